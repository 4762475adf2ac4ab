// A drawing with work lists of its own.
ghost use Rattle.std.specs.Prelude.{◌≤◌};
ghost use Rattle.lent.specs.Held.{held_network, held_lists, SameLists};
ghost use Rattle.small.specs.Small.{SmallCall};

use drawing::answer::Plot;
use layout::call::tx_schematic_layout;
use lent::{Crossings, Lists, Work};
use network::lists::Network;
use network::options::Options;
use network::refusals::Refusal;

/// Draws a network of at most 64 buses and 64 branches into the lent lists (docs/RULES.md,
/// 'Promises of every call').
///
/// The work lists are held here, long enough for 64 buses and 64 branches, or for fewer and a mesh.
/// `station_room`: how many numbers the list `stations` has, of which a network asks two for each
/// bus. `crossing_room`: how many crossings there is room for. A network that asks more is refused
/// (docs/RULES.md, 'Refusals').
pub fn draw_small(
    lists: &mut Lists<'_>,
    options: Options,
    station_room: usize,
    crossing_room: usize,
    network: &Network<'_>,
) -> Result<Plot, Refusal>
    requires few_stations { station_room ≤ 128 }
    requires few_crossings { crossing_room ≤ 128 }
    ensures same { SameLists lists.new lists.old }
    ensures is { SmallCall options (held_network network.now) (held_lists lists.old)
        station_room crossing_room result (held_lists lists.new) }
{
    let mut stations = [0u32; 128];
    let mut buses = [0u32; 192];
    let mut ends = [0u32; 320];
    let mut sorted = [0u32; 320];
    let mut spare = [0u32; 192];
    let mut keys = [0u64; 192];
    let mut places = [0f64; 384];
    let mut blocks = [0f64; 192];
    let mut frames = [0f64; 256];
    let mut path = [0f64; 232];
    let mut numbers = [0u32; 384];
    let mut crossings = [0f64; 128];
    let mut ways = [0f64; 256];
    let mut work = Work {
        stations: &mut stations[0..station_room],
        buses: &mut buses,
        ends: &mut ends,
        sorted: &mut sorted,
        spare: &mut spare,
        keys: &mut keys,
        places: &mut places,
        blocks: &mut blocks,
        frames: &mut frames,
        path: &mut path,
    };
    let mut crossings = Crossings {
        numbers: &mut numbers,
        places: &mut crossings[0..crossing_room],
        ways: &mut ways,
    };
    tx_schematic_layout(lists, &mut work, &mut crossings, options, network)
}
