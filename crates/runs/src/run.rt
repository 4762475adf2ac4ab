// The points of a branch's run (docs/RULES.md, 'Runs, pieces, roles and bounds').
ghost use Rattle.std.specs.Prelude.{◌≡◌, ◌+◌, ◌*◌, ◌<◌, ◌≤◌, ◌^◌, [], ◌∷◌, ◌++◌, length, is_some};
ghost use Rattle.std.specs.Prelude.{unwrap_or};
ghost use Rattle.std.specs.Float.{nan};
ghost use Rattle.plane.specs.Plane.{box_at};
ghost use Rattle.boxes.specs.Stages.Paths.{path_in, Led};
ghost use Rattle.runs.specs.Stages.Views.{block_of, bar_of, row_end_of, exit_of, first_exit};
ghost use Rattle.runs.specs.Stages.Views.{second_exit, open_from, internal_from, led_in, led_run};
ghost use Rattle.runs.specs.Stages.Views.{other_run, HasRoom, Ran};
ghost use Rattle.runs.specs.Stages.Lent.{kind_in, lead_of};

use crate::laid::{Laid, Obstacles};
use boxes::detour::detour;
use network::lists::Network;
use network::seeds::put_point;
use network::words::{Kind, kind_of, station_of};
use numbers::order::at;
use plane::geometry::{Box, Point, number_at, point_at};
use stations::bars::{Bar, Interior, bar_for, exit_x, position, row_y};
use stations::measures::Measures;

/// A station's box in a list of four numbers each; what stands past the list's end is NaN.
pub fn box_at(list: &[f64], station: usize) -> Box
    requires station_bound { station < 2 ^ 32 }
    ensures { result ≡ box_at list.now station }
{
    Box {
        left: number_at(list, 4 * station),
        top: number_at(list, 4 * station + 1),
        right: number_at(list, 4 * station + 2),
        bottom: number_at(list, 4 * station + 3),
    }
}

// The block of a station, unit × scale.
#[tactic(auto, unfolding(crate::specs::Stages::Views::block_of))]
fn block_of(unit: f64, blocks: &[f64], station: usize) -> f64
    requires station_bound { station < 2 ^ 32 }
    ensures { result ≡ block_of unit blocks.now station }
{
    unit * number_at(blocks, 3 * station + 2)
}

/// The bar of a bus in its station's box (docs/RULES.md, 'Bars and row ends'). `buses` has three
/// numbers for each bus, `blocks` three and `frames` four for each station.
#[tactic(auto, unfolding(crate::specs::Stages::Views::bar_of))]
pub fn bar_of(
    measures: Measures,
    buses: &[u32],
    blocks: &[f64],
    frames: &[f64],
    station: usize,
    bus: usize,
) -> Bar
    requires station_bound { station < 2 ^ 32 }
    requires bus_bound { bus < 2 ^ 32 }
    ensures { result ≡ bar_of measures buses.now blocks.now frames.now station bus }
{
    bar_for(
        Interior {
            block_options: measures.block_options,
            outer: box_at(frames, station),
            block: block_of(measures.unit, blocks, station),
        },
        at(buses, 3 * bus),
        at(buses, 3 * bus + 1),
        at(buses, 3 * bus + 2),
    )
}

// The row end of a bus in its station's box: on its bar, at the height of a row
// (docs/RULES.md, 'Bars and row ends').
#[tactic(auto, unfolding(crate::specs::Stages::Views::row_end_of))]
pub(crate) fn row_end_of(
    laid: &Laid<'_>,
    frames: &[f64],
    station: usize,
    bus: usize,
    row: u32,
) -> Point
    requires station_bound { station < 2 ^ 32 }
    requires bus_bound { bus < 2 ^ 32 }
    ensures { result
        ≡ row_end_of laid.now.measures laid.now.buses.now laid.now.blocks.now frames.now
        station bus row }
{
    let bar = bar_of(laid.measures, laid.buses, laid.blocks, frames, station, bus);
    Point {
        x: bar.x,
        y: row_y(
            Interior {
                block_options: laid.measures.block_options,
                outer: box_at(frames, station),
                block: block_of(laid.measures.unit, laid.blocks, station),
            },
            row,
        ),
    }
}

/// The exit of a station's box towards another station, at this height
/// (docs/RULES.md, 'Exits').
#[tactic(auto, unfolding(crate::specs::Stages::Views::exit_of))]
pub fn exit_of(places: &[f64], frames: &[f64], station: usize, towards: usize, height: f64) -> Point
    requires station_bound { station < 2 ^ 32 }
    requires towards_bound { towards < 2 ^ 32 }
    ensures { result ≡ exit_of places.now frames.now station towards height }
{
    Point {
        x: exit_x(
            box_at(frames, station),
            point_at(places, station),
            point_at(places, towards),
        ),
        y: height,
    }
}

/// The first exit of a branch: `places` has two for each branch, behind so many points.
pub fn first_exit(point_count: usize, places: &[f64], branch: usize) -> Point
    requires few_points { point_count ≤ 2 ^ 33 }
    requires branch_bound { branch < 2 ^ 32 }
    ensures { result ≡ first_exit point_count places.now branch }
{
    let i = point_count + 2 * branch;
    Point {
        x: number_at(places, 2 * i),
        y: number_at(places, 2 * i + 1),
    }
}

/// The second exit of a branch, behind so many points as above.
pub fn second_exit(point_count: usize, places: &[f64], branch: usize) -> Point
    requires few_points { point_count ≤ 2 ^ 32 }
    requires branch_bound { branch < 2 ^ 32 }
    ensures { result ≡ second_exit point_count places.now branch }
{
    first_exit(point_count + 1, places, branch)
}

// Two points at the front of a list.
#[tactic(auto, using(crate::proofs::Paths::two_put))]
fn put_two(path: &mut [f64], p: Point, q: Point) -> usize
    requires has_room { 8 ≤ length path.old }
    ensures { Ran result path.new (p ∷ q ∷ []) }
{
    put_point(path, 0, p);
    put_point(path, 1, q);
    2
}

// The run of an open branch between two buses.
#[tactic(auto, unfolding(crate::specs::Stages::Views::open_from))]
fn run_open(
    sub: &[u32],
    laid: &Laid<'_>,
    frames: &[f64],
    from_bus: usize,
    to_bus: usize,
    path: &mut [f64],
) -> usize
    requires from_bus_bound { from_bus < 2 ^ 32 }
    requires to_bus_bound { to_bus < 2 ^ 32 }
    requires has_room { 8 ≤ length path.old }
    ensures { Ran result path.new
        (open_from sub.now laid.now.measures laid.now.buses.now laid.now.blocks.now frames.now
        from_bus to_bus) }
{
    let p = bar_of(
        laid.measures,
        laid.buses,
        laid.blocks,
        frames,
        station_of(sub, from_bus),
        from_bus,
    );
    let q = bar_of(
        laid.measures,
        laid.buses,
        laid.blocks,
        frames,
        station_of(sub, to_bus),
        to_bus,
    );
    put_two(path, position(p), position(q))
}

// The run of an internal branch between two buses, whose ends have these rows.
#[tactic(auto, unfolding(crate::specs::Stages::Views::internal_from))]
fn run_internal(
    sub: &[u32],
    laid: &Laid<'_>,
    frames: &[f64],
    from_bus: usize,
    to_bus: usize,
    from_row: u32,
    to_row: u32,
    path: &mut [f64],
) -> usize
    requires from_bus_bound { from_bus < 2 ^ 32 }
    requires to_bus_bound { to_bus < 2 ^ 32 }
    requires has_room { 8 ≤ length path.old }
    ensures { Ran result path.new
        (internal_from sub.now laid.now.measures laid.now.buses.now laid.now.blocks.now frames.now
        from_bus to_bus from_row to_row) }
{
    let p = row_end_of(laid, frames, station_of(sub, from_bus), from_bus, from_row);
    let q = row_end_of(laid, frames, station_of(sub, to_bus), to_bus, to_row);
    put_two(path, p, q)
}

// Copies `count` points of a list, from number `first` on, to another, from number `to` on. Points
// past the list's end are read as NaN.
#[tactic(auto, using(crate::proofs::Paths::copied))]
fn copy_points(ways: &[f64], first: usize, count: usize, path: &mut [f64], to: usize)
    requires has_room { 2 * (to + count) ≤ length path.old }
    requires to_bound { to + count < 2 ^ 32 }
    requires first_bound { first + count < 2 ^ 32 }
    ensures { Led to count (path_in first count ways.now) path.old path.new }
{
    for j in 0..count {
        put_point(path, to + j, point_at(ways, first + j));
    }
}

// Puts a path behind the first point of a list: a point before, `count` points of `ways` from
// number `first` on, and a point behind.
#[tactic(auto, using(crate::proofs::Paths::middle))]
fn put_middle(
    path: &mut [f64],
    before: Point,
    ways: &[f64],
    first: usize,
    count: usize,
    behind: Point,
)
    requires has_room { HasRoom count path.old }
    requires first_bound { first + count < 2 ^ 31 }
    ensures { path_in 1 (count + 2) path.new
        ≡ before ∷ (path_in first count ways.now ++ (behind ∷ [])) }
{
    put_point(path, 1, before);
    copy_points(ways, first, count, path, 2);
    put_point(path, count + 2, behind);
}

// Leads the path of `count` points behind the first point of a list round boxes, where a clearance
// is given, and answers how many points it has then.
#[tactic(auto, unfolding(crate::specs::Stages::Views::led_in), using(crate::proofs::Paths::leads))]
fn lead_round_boxes(
    obstacles: &Obstacles<'_>,
    from_station: usize,
    to_station: usize,
    path: &mut [f64],
    count: usize,
) -> usize
    requires has_room { 2 * (count + 5) ≤ length path.old }
    ensures path_led { path_in 1 result path.new
        ≡ led_in (is_some obstacles.now.clearance) (unwrap_or obstacles.now.clearance nan)
        obstacles.now.index.placed.k
        obstacles.now.index.placed.stations.now obstacles.now.index.placed.frames.now
        from_station to_station (path_in 1 count path.old) }
    ensures at_most_four_more { result ≤ count + 4 }
{
    match obstacles.clearance {
        Some(clearance) => detour(
            clearance,
            &obstacles.index,
            from_station,
            to_station,
            path,
            1,
            count,
        ),
        None => count,
    }
}

// Puts p before and q behind the path of `count` points behind the first point of a list, and
// answers how many points that makes.
#[tactic(auto, using(crate::proofs::Paths::ends_put, crate::proofs::Paths::ends_count))]
fn put_ends(path: &mut [f64], p: Point, q: Point, count: usize) -> usize
    requires has_room { 2 * (count + 2) ≤ length path.old }
    requires count_bound { count + 2 < 2 ^ 32 }
    ensures { Ran result path.new (p ∷ (path_in 1 count path.old ++ (q ∷ []))) }
{
    put_point(path, 0, p);
    put_point(path, count + 1, q);
    count + 2
}

/// Puts the run of a line between two stations at the front of `path`, and answers how many points
/// it has: from its first row end by its first exit, its waypoints, led round boxes where the
/// obstacles have a clearance, and its second exit to its second row end. The waypoints are `count`
/// points of the obstacles' `ways` from number `first` on.
#[tactic(auto, unfolding(crate::specs::Stages::Views::led_run))]
pub fn run_line(
    obstacles: &Obstacles<'_>,
    from_station: usize,
    to_station: usize,
    from_row_end: Point,
    to_row_end: Point,
    from_exit: Point,
    to_exit: Point,
    first: usize,
    count: usize,
    path: &mut [f64],
) -> usize
    requires has_room { HasRoom count path.old }
    requires first_bound { first + count < 2 ^ 31 }
    ensures { Ran result path.new
        (led_run (lead_of obstacles.now) obstacles.now.index.placed.frames.now
        from_station to_station from_row_end to_row_end from_exit to_exit first count) }
{
    put_middle(path, from_exit, obstacles.ways, first, count, to_exit);
    let r = lead_round_boxes(obstacles, from_station, to_station, path, count + 2);
    put_ends(path, from_row_end, to_row_end, r)
}

/// Puts the run of a branch at the front of `path`, and answers how many points it has: two of an
/// open or internal branch, none where the branch is undrawn or a line.
#[tactic(auto, unfolding(network::specs::Words::Safe))]
pub fn run(
    network: &Network<'_>,
    laid: &Laid<'_>,
    frames: &[f64],
    branch: usize,
    path: &mut [f64],
) -> usize
    requires branch_bound { branch < 2 ^ 32 }
    requires few_buses { length network.now.sub.now ≤ 2 ^ 32 }
    requires has_room { 8 ≤ length path.old }
    ensures { Ran result path.new
        (other_run network.now.sub.now laid.now.measures laid.now.buses.now laid.now.ends.now
        laid.now.blocks.now frames.now branch (kind_in network.now branch)) }
{
    let ra = at(laid.ends, 4 * branch);
    let rb = at(laid.ends, 4 * branch + 1);
    match kind_of(network, branch) {
        Kind::Undrawn | Kind::Line(_, _) => 0,
        Kind::Open(a, b) => run_open(network.sub, laid, frames, a, b, path),
        Kind::Internal(a, b) => run_internal(network.sub, laid, frames, a, b, ra, rb, path),
    }
}
