// The lists of stations and branches: boxes, scales and roles.
ghost use Rattle.std.specs.Prelude.{◌≡◌, map, ◌*◌, ◌≤◌, length};
ghost use Rattle.std.specs.Float.{nan};
ghost use Rattle.numbers.specs.Table.{strided};
ghost use Rattle.network.specs.Views.{boxes_in};
ghost use Rattle.runs.specs.Run.{role};
ghost use Rattle.numbers.specs.Over.{over};
ghost use Rattle.runs.specs.Lists.{flat, box_numbers};
ghost use Rattle.results.specs.Stages.Lent.{kinds_in};

use network::lists::Network;
use network::seeds::put_box;
use network::words::{Kind, kind_of};
use plane::geometry::box_at;

/// Writes the stations' boxes, four numbers each, and their scales, one each, which stand third of
/// three numbers in `blocks`. What stands behind them in both lists stays.
pub fn write_stations(
    station_count: usize,
    frames: &[f64],
    blocks: &[f64],
    boxes: &mut [f64],
    scales: &mut [f64],
)
    requires frames_given { 4 * station_count ≤ length frames.now }
    requires boxes_fit { 4 * station_count ≤ length boxes.old }
    requires blocks_given { 3 * station_count ≤ length blocks.now }
    requires scales_fit { station_count ≤ length scales.old }
    ensures boxes_after { boxes.new
        ≡ over (flat box_numbers (boxes_in station_count frames.now)) boxes.old }
    ensures scales_after { scales.new
        ≡ over (strided 3 2 nan station_count blocks.now) scales.old }
{
    for s in 0..station_count {
        put_box(boxes, s, box_at(frames, s));
        scales[s] = blocks[3 * s + 2];
    }
}

// A branch's role: 0 line, 1 internal, 2 open or undrawn.
#[tactic(auto, unfolding(runs::specs::Run::role))]
fn role_of(kind: Kind) -> u8
    ensures { result ≡ role kind }
{
    match kind {
        Kind::Undrawn => 2,
        Kind::Open(_, _) => 2,
        Kind::Internal(_, _) => 1,
        Kind::Line(_, _) => 0,
    }
}

/// Writes each branch's role: 0 line, 1 internal, 2 open or undrawn
/// (docs/RULES.md, 'Runs, pieces, roles and bounds').
pub fn write_roles(network: &Network<'_>, roles: &mut [u8])
    requires few_branches { length network.now.from.now ≤ 8192 }
    requires roles_fit { length network.now.from.now ≤ length roles.old }
    ensures { roles.new ≡ over (map role (kinds_in network.now)) roles.old }
{
    for e in 0..network.from.len() {
        roles[e] = role_of(kind_of(network, e));
    }
}
