// Line requests: records of what each line asks for, kept in a list that is lent.
ghost use Rattle.std.specs.Prelude.{◌≡◌, ◌<◌, ◌≤◌, ◌^◌, length, get_or};
ghost use Rattle.runs.specs.Stages.Requests.{nothing_at, line_request, request_of, FilledTo};
ghost use Rattle.runs.specs.Stages.Lent.{kind_in, request_lists};

use crate::laid::Laid;
use crate::run::{first_exit, row_end_of, second_exit};
use network::lists::Network;
use network::words::{Kind, kind_of, station_of};
use numbers::order::at;
use plane::geometry::Point;

/// What a line asks for: its branch, its two stations, and its row end and exit at each of
/// them. The two stations are one where the branch is no line.
#[derive(Clone, Copy)]
pub struct LineRequest {
    pub e: usize,
    pub sa: usize,
    pub sb: usize,
    pub row_end_a: Point,
    pub row_end_b: Point,
    pub exit_a: Point,
    pub exit_b: Point,
}

// The request of a branch that is no line.
#[tactic(auto, unfolding(crate::specs::Stages::Requests::nothing_at))]
fn nothing_at(branch: usize) -> LineRequest
    ensures { result ≡ nothing_at branch }
{
    let p = Point { x: 0.0, y: 0.0 };
    LineRequest {
        e: branch,
        sa: 0,
        sb: 0,
        row_end_a: p,
        row_end_b: p,
        exit_a: p,
        exit_b: p,
    }
}

// The request of a line between two buses, whose ends have these rows; its exits stand in `places`.
#[tactic(auto, unfolding(crate::specs::Stages::Requests::line_request))]
fn line_request(
    sub: &[u32],
    laid: &Laid<'_>,
    frames: &[f64],
    branch: usize,
    from_bus: usize,
    to_bus: usize,
    from_row: u32,
    to_row: u32,
) -> LineRequest
    requires branch_bound { branch < 2 ^ 32 }
    requires few_buses { length sub.now ≤ 2 ^ 32 }
    requires from_bus_bound { from_bus < 2 ^ 32 }
    requires to_bus_bound { to_bus < 2 ^ 32 }
    ensures { result
        ≡ line_request sub.now laid.now.measures laid.now.buses.now laid.now.blocks.now
        laid.now.places.now frames.now branch from_bus to_bus from_row to_row }
{
    let sa = station_of(sub, from_bus);
    let sb = station_of(sub, to_bus);
    let p = row_end_of(laid, frames, sa, from_bus, from_row);
    let q = row_end_of(laid, frames, sb, to_bus, to_row);
    let x = first_exit(sub.len(), laid.places, branch);
    let y = second_exit(sub.len(), laid.places, branch);
    LineRequest {
        e: branch,
        sa,
        sb,
        row_end_a: p,
        row_end_b: q,
        exit_a: x,
        exit_b: y,
    }
}

// The request of a branch.
#[tactic(auto, unfolding(crate::specs::Stages::Requests::request_of, network::specs::Words::Safe))]
fn request_of(network: &Network<'_>, laid: &Laid<'_>, frames: &[f64], branch: usize) -> LineRequest
    requires branch_bound { branch < 2 ^ 32 }
    requires few_buses { length network.now.sub.now ≤ 2 ^ 32 }
    ensures { result
        ≡ request_of (request_lists network.now laid.now frames.now) branch
        (kind_in network.now branch) }
{
    let ra = at(laid.ends, 4 * branch);
    let rb = at(laid.ends, 4 * branch + 1);
    match kind_of(network, branch) {
        Kind::Undrawn | Kind::Open(_, _) | Kind::Internal(_, _) => nothing_at(branch),
        Kind::Line(a, b) => line_request(network.sub, laid, frames, branch, a, b, ra, rb),
    }
}

/// The requests of the 16 branches from `start` on; a branch that is no line, or past the last,
/// asks for nothing.
pub fn requests_from(
    network: &Network<'_>,
    laid: &Laid<'_>,
    frames: &[f64],
    start: usize,
) -> [LineRequest; 16]
    requires start_bound { start < 2 ^ 31 }
    requires few_buses { length network.now.sub.now ≤ 2 ^ 32 }
    ensures filled { FilledTo (request_lists network.now laid.now frames.now)
        network.now.from.now network.now.to.now network.now.service.now start 16 result }
    ensures sixteen { length result ≡ 16 }
{
    std::array::from_fn(|i| request_of(network, laid, frames, start + i))
}

/// A request of a lent list, by its number there.
pub fn request_at(list: &[LineRequest], number: usize) -> LineRequest
    requires in_bounds { number < length list.now }
    ensures { result ≡ get_or list.now number (nothing_at 0) }
{
    list[number]
}
