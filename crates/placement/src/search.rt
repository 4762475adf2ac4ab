//! Each station placed in its turn, and the boxes (docs/RULES.md, 'Free places').
ghost use Rattle.std.specs.Prelude.{◌≡◌, ◌+◌, ◌*◌, ◌≤◌, ◌<◌, length, take, is_some};
ghost use Rattle.numbers.specs.Lists.{All};
ghost use Rattle.plane.specs.Plane.{point_at};
ghost use Rattle.network.specs.Views.{order_in, points_in, boxes_in};
ghost use Rattle.stations.specs.Stages.Measured.{measured_counts};
ghost use Rattle.placement.specs.Place as Place;
ghost use Rattle.placement.specs.Place.{all_find_free};
ghost use Rattle.placement.specs.Search.{box_on, found_place};
ghost use Rattle.placement.specs.Stages.Views.{half_sides_in, PlacedAs, PlacedUnless};
ghost use Rattle.placement.specs.Stages.Among.{kept_boxes, Holds};
ghost use Rattle.placement.specs.Stages.Lent.{measured_half_sides, tried_offsets};
ghost use Rattle.offsets.specs.Offset.{offsets};
ghost use Rattle.placement.specs.Stages.Listed.{Turns};

use crate::free_places::{Earlier, Outline, Tried, box_on, find_place};
use network::seeds::put_box;
use offset_table::OFFSETS;
use plane::box_order::keep_box;
use plane::geometry::{Box, Point};
use stations::measures::Measures;
use stations::sizes::Measured;

// How a station stands once it is placed.
#[derive(Clone, Copy)]
struct Standing {
    // The most cells that a kept box spans.
    most: u64,
    // Whether it found a free place.
    free: bool,
}

// Places a station behind so many others: its place, the first free one or its seed, is written
// over its seed, its box is stored, and it is kept with them.
fn place_station(
    station: u32,
    passed: usize,
    measures: Measures,
    blocks: &[f64],
    tried: &Tried<'_>,
    most: u64,
    places: &mut [f64],
    boxes: &mut [f64],
    keys: &mut [u64],
    sorted: &mut [u32],
) -> Standing
    requires blocks_room { 3 * station + 2 < length blocks.now }
    requires places_room { 2 * station + 1 < length places.old }
    requires boxes_room { 4 * station + 3 < length boxes.old }
    requires keys_room { passed < length keys.old }
    requires sorted_room { passed < length sorted.old }
    requires boxes_kept { Holds measures.unit boxes.old most (take passed keys.old)
        (take passed sorted.old) }
    requires not_passed { All (λ y. station ≡ y → ⊥) (take passed sorted.old) }
    ensures placed { PlacedAs measures blocks.now (tried_offsets tried.now) station passed
        result.most places.old boxes.old sorted.old places.new boxes.new keys.new sorted.new }
    ensures free { result.free
        ≡ is_some (found_place (point_at places.old station)
        (half_sides_in measures blocks.now station)
        (kept_boxes boxes.old (take passed sorted.old)) (tried_offsets tried.now)) }
{
    let i = station as usize;
    let block = measures.unit * blocks[3 * i + 2];
    let w = blocks[3 * i] * block / 2.0;
    let h = blocks[3 * i + 1] * block / 2.0;
    let seed = Point {
        x: places[2 * i],
        y: places[2 * i + 1],
    };
    let buffer = measures.block_options.buffer;
    let earlier = Earlier {
        unit: measures.unit,
        boxes,
        keys: &keys[..passed],
        sorted: &sorted[..passed],
        most,
    };
    let found = find_place(
        seed,
        Outline {
            w,
            h,
            block,
            buffer,
        },
        tried,
        &earlier,
    );
    let c = found.unwrap_or(seed);
    places[2 * i] = c.x;
    places[2 * i + 1] = c.y;
    put_box(boxes, i, box_on(c, w, h));
    Standing {
        most: keep_box(measures.unit, boxes, station, passed, most, keys, sorted),
        free: found.is_some(),
    }
}

// Places so many stations of the order, which is every second number of `measured.counts`, and
// answers whether each of them found a free place. With `only_free` it gives up at the first that
// finds none. `boxes` holds their boxes by station, `keys` and `sorted` keep them by cell.
fn place_all(
    measured: &Measured<'_>,
    occupied: usize,
    measures: Measures,
    tried: &Tried<'_>,
    only_free: bool,
    places: &mut [f64],
    boxes: &mut [f64],
    keys: &mut [u64],
    sorted: &mut [u32],
) -> bool
    requires few_occupied { occupied ≤ measured.now.k }
    requires few_stations { measured.now.k ≤ 4096 }
    requires places_room { 2 * measured.now.k ≤ length places.old }
    requires boxes_room { 4 * measured.now.k ≤ length boxes.old }
    requires keys_room { measured.now.k ≤ length keys.old }
    requires sorted_room { measured.now.k ≤ length sorted.old }
    requires turns { Turns measured.now.k (order_in occupied measured.now.counts.now) }
    ensures free { result
        ≡ all_find_free (measured_half_sides measures measured.now) (tried_offsets tried.now)
        (points_in measured.now.k places.old) (order_in occupied measured.now.counts.now) }
    ensures placed { PlacedUnless only_free result (points_in measured.now.k places.new)
        (Place.places (measured_half_sides measures measured.now) (tried_offsets tried.now)
        (points_in measured.now.k places.old) (order_in occupied measured.now.counts.now)) }
{
    let blocks = measured.blocks;
    let mut most = 0;
    let mut all_free = true;
    for p in 0..occupied {
        let s = measured.counts[2 * p + 1];
        let standing = place_station(
            s, p, measures, blocks, tried, most, places, boxes, keys, sorted,
        );
        if only_free && !standing.free {
            return false;
        }
        most = standing.most;
        all_free &= standing.free;
    }
    all_free
}

/// Places so many stations of the order, which is every second number of `measured.counts`, by
/// the table of offsets: each one's place is written over its seed in `places`. Answers whether
/// each found a free place; with `only_free` it gives up at the first that finds none, and `places`
/// then holds nothing. `boxes`, `keys` and `sorted` are work lists.
pub(crate) fn place_by_table(
    measured: &Measured<'_>,
    occupied: usize,
    measures: Measures,
    search: usize,
    only_free: bool,
    places: &mut [f64],
    boxes: &mut [f64],
    keys: &mut [u64],
    sorted: &mut [u32],
) -> bool
    requires search_fits { search ≤ 20 }
    requires few_occupied { occupied ≤ measured.now.k }
    requires few_stations { measured.now.k ≤ 4096 }
    requires places_room { 2 * measured.now.k ≤ length places.old }
    requires boxes_room { 4 * measured.now.k ≤ length boxes.old }
    requires keys_room { measured.now.k ≤ length keys.old }
    requires sorted_room { measured.now.k ≤ length sorted.old }
    requires turns { Turns measured.now.k (order_in occupied measured.now.counts.now) }
    ensures free { result
        ≡ all_find_free (measured_half_sides measures measured.now) (offsets search)
        (points_in measured.now.k places.old) (order_in occupied measured.now.counts.now) }
    ensures placed { PlacedUnless only_free result (points_in measured.now.k places.new)
        (Place.places (measured_half_sides measures measured.now) (offsets search)
        (points_in measured.now.k places.old) (order_in occupied measured.now.counts.now)) }
{
    let tried = Tried {
        pairs: &OFFSETS,
        search,
    };
    place_all(
        measured, occupied, measures, &tried, only_free, places, boxes, keys, sorted,
    )
}

// A station's box at its place.
#[tactic(auto, unfolding(crate::specs::Search::half_sides_for))]
fn station_box(station: usize, measures: Measures, blocks: &[f64], places: &[f64]) -> Box
    requires blocks_room { 3 * station + 2 < length blocks.now }
    requires places_room { 2 * station + 1 < length places.now }
    ensures { result
        ≡ box_on (point_at places.now station) (half_sides_in measures blocks.now station).half }
{
    let f = measures.unit * blocks[3 * station + 2];
    let w = blocks[3 * station] * f / 2.0;
    let h = blocks[3 * station + 1] * f / 2.0;
    let c = Point {
        x: places[2 * station],
        y: places[2 * station + 1],
    };
    box_on(c, w, h)
}

/// The box list: four numbers of each station, zeros where it has no buses.
pub(crate) fn station_boxes(
    measured: &Measured<'_>,
    measures: Measures,
    places: &[f64],
    frames: &mut [f64],
)
    requires places_room { 2 * measured.now.k ≤ length places.now }
    requires frames_room { 4 * measured.now.k ≤ length frames.old }
    ensures { boxes_in measured.now.k frames.new
        ≡ Place.boxes (measured_half_sides measures measured.now) (measured_counts measured.now)
        (points_in measured.now.k places.now) }
{
    let blocks = measured.blocks;
    for s in 0..measured.k {
        if measured.is_occupied(s) {
            put_box(frames, s, station_box(s, measures, blocks, places));
        } else {
            put_box(
                frames,
                s,
                Box {
                    left: 0.0,
                    top: 0.0,
                    right: 0.0,
                    bottom: 0.0,
                },
            );
        }
    }
}
