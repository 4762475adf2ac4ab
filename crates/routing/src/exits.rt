// The exits of lines from their stations' boxes, worked out once and kept in a lent list
// (docs/RULES.md, 'Exits').
ghost use Rattle.std.specs.Prelude.{◌≡◌, ℕ, ◌+◌, ◌*◌, ◌^◌, ◌≤◌, ◌<◌, length};
ghost use Rattle.plane.specs.Plane.{point_at};
ghost use Rattle.network.specs.Words.{station_of};
ghost use Rattle.routing.specs.Stages.Exits.{no_exits, exit_from, line_exits, exits_in, Exited};
ghost use Rattle.routing.specs.Stages.Lent.{grid_of};

use network::lists::{Bounded, Network};
use network::seeds::put_point;
use network::words::{Kind, kind_of, station_of};
use numbers::order::at;
use plane::geometry::{Point, number_at};
use runs::run::{box_at, exit_of};
use stations::bars::{Interior, row_y};
use stations::measures::Measures;

// The two exits of a line: from its first station's box and from its second's.
#[derive(Clone, Copy)]
pub(crate) struct Exits {
    pub first: Point,
    pub second: Point,
}

// The exit of a station towards another, at the height of a row.
fn exit_at(
    measures: Measures,
    blocks: &[f64],
    places: &[f64],
    frames: &[f64],
    station: usize,
    towards: usize,
    row: u32,
) -> Point
    requires station_bound { station < 2 ^ 32 }
    requires towards_bound { towards < 2 ^ 32 }
    ensures { result
        ≡ exit_from measures blocks.now places.now frames.now station towards row }
{
    let y = row_y(
        Interior {
            block_options: measures.block_options,
            outer: box_at(frames, station),
            block: measures.unit * number_at(blocks, 3 * station + 2),
        },
        row,
    );
    exit_of(places, frames, station, towards, y)
}

// The exits of a line between two buses, whose ends have these rows.
#[tactic(auto, unfolding(crate::specs::Stages::Exits::line_exits))]
fn line_exits(
    sub: &[u32],
    measures: Measures,
    blocks: &[f64],
    places: &[f64],
    frames: &[f64],
    from_bus: usize,
    to_bus: usize,
    from_row: u32,
    to_row: u32,
) -> Exits
    ensures { result
        ≡ line_exits sub.now measures blocks.now places.now frames.now
        from_bus to_bus from_row to_row }
{
    let s = station_of(sub, from_bus);
    let t = station_of(sub, to_bus);
    let first = exit_at(measures, blocks, places, frames, s, t, from_row);
    let second = exit_at(measures, blocks, places, frames, t, s, to_row);
    Exits { first, second }
}

// Those of a branch that is no line: no points.
#[tactic(auto, using(crate::proofs::exits::Keeping::not_a_number))]
fn no_exits() -> Exits
    ensures { result ≡ no_exits }
{
    let none = Point {
        x: f64::NAN,
        y: f64::NAN,
    };
    Exits {
        first: none,
        second: none,
    }
}

// The exits of a branch.
fn exits_of(
    network: &Network<'_>,
    measures: Measures,
    ends: &[u32],
    blocks: &[f64],
    places: &[f64],
    frames: &[f64],
    branch: usize,
) -> Exits
    requires branch_bound { branch < 2 ^ 32 }
    ensures { result
        ≡ exits_in (grid_of network.now measures ends.now blocks.now places.now frames.now) branch }
{
    let ra = at(ends, 4 * branch);
    let rb = at(ends, 4 * branch + 1);
    match kind_of(network, branch) {
        Kind::Line(a, b) => line_exits(network.sub, measures, blocks, places, frames, a, b, ra, rb),
        _ => no_exits(),
    }
}

/// Writes every branch's two exits, two coordinates each, behind the places of as many stations as
/// there are buses (docs/RULES.md, 'Exits'); NaN for a branch that is no line.
#[tactic(auto, using(crate::proofs::exits::Keeping::exited))]
pub fn write_exits(
    network: &Bounded<'_>,
    measures: Measures,
    ends: &[u32],
    blocks: &[f64],
    frames: &[f64],
    places: &mut [f64],
)
    requires places_fit { 2 * length network.now.lists.sub.now
        + 4 * length network.now.lists.from.now ≤ length places.old }
    requires stations_in_bounds { (i : ℕ) → i < length network.now.lists.sub.now
        → station_of network.now.lists.sub.now i < length network.now.lists.sub.now }
    ensures exits_written { Exited
        (grid_of network.now.lists measures ends.now blocks.now places.new frames.now) }
    ensures places_unchanged { (s : ℕ) → s < length network.now.lists.sub.now
        → point_at places.new s ≡ point_at places.old s }
{
    let n = network.lists.sub.len();
    for e in 0..network.lists.from.len() {
        let x = exits_of(&network.lists, measures, ends, blocks, places, frames, e);
        put_point(places, n + 2 * e, x.first);
        put_point(places, n + 2 * e + 1, x.second);
    }
}
