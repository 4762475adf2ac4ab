// Refusals 1 to 7 and 15, which the input alone decides.
ghost use Rattle.std.specs.Prelude.{◌≡◌, ◌≤◌, min, length};
ghost use Rattle.std.specs.Result.{result_err};
ghost use Rattle.drawing.specs.Network.{network_of};
ghost use Rattle.drawing.specs.Answer.{short_results, short_work, early};

use boxes::box_cells::build::index_length;
use drawing::lengths::ListLengths;
use network::lists::Network;
use network::options::Options;
use network::refusals::{Refusal, check_shape, too_far};
use network::words::station_count;

// Whether a result list of fixed length is too short.
#[tactic(auto, unfolding(drawing::specs::Answer::short_results))]
fn short_results(buses: usize, branches: usize, stations: usize, room: ListLengths) -> bool
    requires few_buses { buses ≤ 4096 }
    requires few_stations { stations ≤ buses }
    ensures { result ≡ short_results buses branches stations room }
{
    room.positions < 2 * buses
        || room.bars < 4 * buses
        || room.boxes < 4 * stations
        || room.scales < stations
        || room.roles < branches
}

// Whether a work list is too short; `mesh` is the mesh length.
#[tactic(auto, unfolding(drawing::specs::Answer::short_work))]
fn short_work(buses: usize, branches: usize, mesh: usize, room: ListLengths) -> bool
    requires few_buses { buses ≤ 4096 }
    requires few_branches { branches ≤ 8192 }
    requires few_corners { mesh ≤ 24576 }
    ensures { result ≡ short_work buses branches mesh room }
{
    let sorting = buses + 2 * branches + mesh;
    room.stations < 2 * buses
        || room.buses < 3 * buses
        || room.ends < 4 * branches + 4 * mesh + 4
        || room.sorted < sorting
        || room.spare < sorting
        || room.keys < sorting
        || room.places < 2 * buses + 4 * branches
        || room.blocks < 3 * buses
        || room.frames < 4 * buses
        || room.path < 2 * buses + 3 * mesh + 16
        || room.sorted < index_length(buses)
}

// The mesh length: that of the corner list, counted as at most 24,576.
fn mesh_length(corners: &[u32]) -> usize
    ensures counted { result ≡ min (length corners.now) 24576 }
    ensures few { result ≤ 24576 }
{
    corners.len().min(24576)
}

/// The refusal of a layout's input that applies first: 1 to 4, 15, 5, 6 or 7, in this order
/// (docs/RULES.md, 'Order of refusals'). `room` has the lengths of the lent lists.
#[tactic(auto, using(crate::proofs::Inputs::laws), unfolding(drawing::specs::Answer::early))]
pub fn check_input(options: Options, net: &Network<'_>, room: ListLengths) -> Result<(), Refusal>
    ensures { result_err result ≡ early options (network_of net.now) room }
{
    check_shape(net.sub, net.kv, net.from, net.to)?;
    if !options.in_range() {
        return Err(Refusal::OptionRange);
    }
    let buses = net.sub.len();
    if too_far(buses, net.xy) {
        return Err(Refusal::TooFar);
    }
    let branches = net.from.len();
    if short_results(buses, branches, station_count(net.sub), room)
        || short_work(buses, branches, mesh_length(net.mesh.corners), room)
    {
        return Err(Refusal::ListTooShort);
    }
    Ok(())
}
