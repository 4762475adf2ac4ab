// Overlaps of an audit: pairs of occupied stations' boxes, that of the higher number shrunk, found
// along the order of left sides (docs/RULES.md, 'Overlaps').
ghost use Rattle.std.specs.Prelude.{◌≡◌, ◌+◌, ◌*◌, ◌^◌, ◌≤◌, ◌<◌, length, get_or, take, drop};
ghost use Rattle.numbers.specs.Order.{count};
ghost use Rattle.network.specs.Views.{boxes_in};
ghost use Rattle.audit.specs.Overlaps.{overlaps};
ghost use Rattle.audit.specs.Stages.Sweep.{Finite, Keyed, Sorted, Lefts, paired, either, pairs};
ghost use Rattle.audit.specs.Stages.Views.{placed_boxes, placed_stations, SortRoom};

use network::lists::{FewPlaced, Placed};
use numbers::float::key::order_key;
use plane::geometry::{Box, box_at, shrunk};
use plane::proximity::overlaps;

// Whether the boxes of two stations overlap, that of the higher number shrunk.
#[tactic(auto, unfolding(crate::specs::Stages::Sweep::paired))]
fn paired(first: Box, second: Box, first_station: usize, second_station: usize) -> bool
    ensures { result ≡ paired first second first_station second_station }
{
    if second_station < first_station {
        overlaps(shrunk(first), second)
    } else {
        first_station < second_station && overlaps(shrunk(second), first)
    }
}

// The order keys of the boxes' left sides.
fn left_keys(stations: usize, boxes: &[f64], keys: &mut [u64])
    requires all_boxes { 4 * stations ≤ length boxes.now }
    requires key_room { stations ≤ length keys.old }
    requires finite_boxes { Finite boxes.now }
    ensures { Keyed boxes.now stations keys.new }
{
    for s in 0..stations {
        keys[s] = order_key(boxes[4 * s]);
    }
}

// The numbers of the occupied stations, in order, at the front of `order`, and how many they are.
fn list_occupied(few: &FewPlaced<'_>, order: &mut [u32]) -> usize
    requires { few.now.placed.k ≤ length order.old }
    ensures listed { take result order.new ≡ placed_stations few.now.placed }
    ensures counted { result ≡ length (placed_stations few.now.placed) }
    ensures few { result ≤ few.now.placed.k }
{
    let placed = &few.placed;
    let mut c = 0;
    for s in 0..placed.k {
        if placed.is_occupied(s) {
            order[c] = s as u32;
            c += 1;
        }
    }
    c
}

// These numbers by rising left side, and how many they are.
fn by_left(few: &FewPlaced<'_>, keys: &mut [u64], order: &mut [u32], spare: &mut [u32]) -> usize
    requires finite_boxes { Finite few.now.placed.frames.now }
    requires sort_room { SortRoom few.now.placed.k order.old spare.old keys.old }
    ensures lefts { Lefts few.now.placed.frames.now few.now.placed.k
        (placed_stations few.now.placed) result order.new }
    ensures few { result ≤ few.now.placed.k }
{
    left_keys(few.placed.k, few.placed.frames, keys);
    let n = list_occupied(few, order);
    numbers::order::sort_part(keys, order, spare, 0, n);
    n
}

// How many stations behind a place of the order overlap the one there: none from the first whose
// left side isn't left of its right side.
#[tactic(auto, unfolding(numbers::specs::Order::count))]
fn count_right(stations: usize, boxes: &[f64], order: &[u32], place: usize) -> usize
    requires all_boxes { 4 * stations ≤ length boxes.now }
    requires in_order { place < length order.now }
    requires finite_boxes { Finite boxes.now }
    requires sorted { Sorted boxes.now stations order.now }
    ensures counted { result ≡ count
        (either (boxes_in stations boxes.now) (get_or order.now place 0))
        (drop (place + 1) order.now) }
    ensures few { result ≤ length order.now }
{
    let s = order[place] as usize;
    let p = box_at(boxes, s);
    let mut found = 0;
    for &i in &order[place + 1..] {
        let t = i as usize;
        let b = box_at(boxes, t);
        if p.right <= b.left {
            return found;
        }
        if paired(p, b, s, t) {
            found += 1;
        }
    }
    found
}

// The number of pairs that overlap among the stations of an order.
#[tactic(auto, unfolding(crate::specs::Stages::Sweep::pairs))]
fn count_pairs(placed: &Placed<'_>, order: &[u32]) -> usize
    requires few { length order.now ≤ 4096 }
    requires finite_boxes { Finite placed.now.frames.now }
    requires sorted { Sorted placed.now.frames.now placed.now.k order.now }
    ensures { result ≡ pairs (placed_boxes placed.now) order.now }
{
    let mut found = 0;
    for c in 0..order.len() {
        found += count_right(placed.k, placed.frames, order, c);
    }
    found
}

// The number of pairs that overlap. `keys`, `order` and `spare` are work lists.
#[tactic(auto, unfolding(crate::specs::Overlaps::overlaps))]
pub(crate) fn count_overlaps(
    few: &FewPlaced<'_>,
    keys: &mut [u64],
    order: &mut [u32],
    spare: &mut [u32],
) -> usize
    requires finite_boxes { Finite few.now.placed.frames.now }
    requires sort_room { SortRoom few.now.placed.k order.old spare.old keys.old }
    ensures { result ≡ overlaps (placed_boxes few.now.placed) (placed_stations few.now.placed) }
{
    let n = by_left(few, keys, order, spare);
    count_pairs(&few.placed, &order[..n])
}
