// The audit's displacement and spacing of the occupied stations (docs/RULES.md, 'Displacement and
// spacing').
ghost use Rattle.std.specs.Prelude.{◌≡◌, ◌*◌, ◌≤◌, length};
ghost use Rattle.network.specs.Views.{points_in, boxes_in};
ghost use Rattle.plane.specs.Near.{distance};
ghost use Rattle.numbers.specs.Over.{over};
ghost use Rattle.audit.specs.Figure.{middle, middles, displacements, shorter, by_sides};
ghost use Rattle.audit.specs.Figure.{spacings_from};
ghost use Rattle.audit.specs.Stages.Views.{placed_boxes, placed_stations, SortRoom};

use network::lists::{FewPlaced, Placed};
use network::seeds::put_point;
use numbers::float::small::{max, min};
use numbers::hypot::hypot;
use plane::geometry::{Box, Point, box_at, point_at};
use plane::neighbours::nearest_neighbour_distances;
use plane::neighbours::points::Points;

// The middle of a box.
#[tactic(auto, unfolding(crate::specs::Figure::middle))]
fn middle(outline: Box) -> Point
    ensures { result ≡ middle outline }
{
    Point {
        x: (outline.left + outline.right) / 2.0,
        y: (outline.top + outline.bottom) / 2.0,
    }
}

// The distance from one point to another (docs/RULES.md, 'Hypot').
#[tactic(auto, unfolding(plane::specs::Near::distance))]
pub(crate) fn distance(start: Point, end: Point) -> f64
    ensures { result ≡ distance start end }
{
    hypot(end.x - start.x, end.y - start.y)
}

// The middle of each station's box, into `points`.
#[tactic(auto, using(crate::proofs::figures::Stationwise::middles_laws))]
pub(crate) fn middles(stations: usize, boxes: &[f64], points: &mut [f64])
    requires all_boxes { 4 * stations ≤ length boxes.now }
    requires point_room { 2 * stations ≤ length points.old }
    ensures { points_in stations points.new ≡ middles (boxes_in stations boxes.now) }
{
    for s in 0..stations {
        let c = middle(box_at(boxes, s));
        put_point(points, s, c);
    }
}

// The distance from each occupied station's seed to its box's middle, at the front of
// `displacement`.
pub(crate) fn displacements(few: &FewPlaced<'_>, seeds: &[f64], displacement: &mut [f64])
    requires { few.now.placed.k ≤ length displacement.old }
    ensures { displacement.new ≡ over (displacements (points_in few.now.placed.k seeds.now)
        (placed_boxes few.now.placed) (placed_stations few.now.placed)) displacement.old }
{
    let placed = &few.placed;
    let mut c = 0;
    for s in 0..placed.k {
        if placed.is_occupied(s) {
            displacement[c] = distance(point_at(seeds, s), middle(box_at(placed.frames, s)));
            c += 1;
        }
    }
}

// A box's shorter side, at least `f64::MIN_POSITIVE`.
#[tactic(auto, unfolding(crate::specs::Figure::shorter))]
fn shorter(outline: Box) -> f64
    ensures { result ≡ shorter outline }
{
    let side = min(outline.right - outline.left, outline.bottom - outline.top);
    max(side, f64::MIN_POSITIVE)
}

// A number for each occupied station, in order at the front of `spacing`, divided by the shorter
// side of its box.
fn by_sides(placed: &Placed<'_>, spacing: &mut [f64])
    requires { placed.now.k ≤ length spacing.old }
    ensures { spacing.new ≡ over (by_sides spacing.old (placed_boxes placed.now) 0
        (placed_stations placed.now)) spacing.old }
{
    let mut c = 0;
    for s in 0..placed.k {
        if placed.is_occupied(s) {
            spacing[c] = spacing[c] / shorter(box_at(placed.frames, s));
            c += 1;
        }
    }
}

// The least positive distance of each point to another, divided by the shorter side of its
// station's
// box: the points are the occupied stations' in order. `keys`, `order` and `spare` are work lists.
pub(crate) fn spacings(
    few: &FewPlaced<'_>,
    points: &Points<'_>,
    spacing: &mut [f64],
    keys: &mut [u64],
    order: &mut [u32],
    spare: &mut [u32],
)
    requires counted { points.now.n ≡ length (placed_stations few.now.placed) }
    requires spacing_room { few.now.placed.k ≤ length spacing.old }
    requires sort_room { SortRoom few.now.placed.k order.old spare.old keys.old }
    ensures { spacing.new ≡ over (spacings_from points.now.xy.now points.now.n
        (placed_boxes few.now.placed) 0 (placed_stations few.now.placed)) spacing.old }
{
    nearest_neighbour_distances(points, spacing, keys, order, spare);
    by_sides(&few.placed, spacing);
}
