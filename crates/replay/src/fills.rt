// The largest fill of a small network, with work lists on the stack.
ghost use Rattle.std.specs.Prelude.{◌≤◌};

use fill::answer::Largest;
use fill::call::largest_fill;
use lent::{Crossings, Lists, Work};
use network::lists::Network;
use network::options::Options;
use network::refusals::Refusal;

// The largest fill of a network of at most 64 buses and 64 branches, or of fewer with a mesh; the
// lists as draw_small lends them.
pub(crate) fn largest_small(
    lists: &mut Lists<'_>,
    options: Options,
    station_room: usize,
    crossing_room: usize,
    network: &Network<'_>,
) -> Result<Largest, Refusal>
    requires few_stations { station_room ≤ 128 }
    requires few_crossings { crossing_room ≤ 128 }
{
    let mut stations = [0u32; 128];
    let mut buses = [0u32; 192];
    let mut ends = [0u32; 320];
    let mut sorted = [0u32; 320];
    let mut spare = [0u32; 192];
    let mut keys = [0u64; 192];
    let mut places = [0f64; 384];
    let mut blocks = [0f64; 192];
    let mut frames = [0f64; 256];
    let mut path = [0f64; 232];
    let mut numbers = [0u32; 384];
    let mut crossings = [0f64; 128];
    let mut ways = [0f64; 256];
    let mut work = Work {
        stations: &mut stations[0..station_room],
        buses: &mut buses,
        ends: &mut ends,
        sorted: &mut sorted,
        spare: &mut spare,
        keys: &mut keys,
        places: &mut places,
        blocks: &mut blocks,
        frames: &mut frames,
        path: &mut path,
    };
    let mut crossings = Crossings {
        numbers: &mut numbers,
        places: &mut crossings[0..crossing_room],
        ways: &mut ways,
    };
    largest_fill(lists, &mut work, &mut crossings, options, network)
}
