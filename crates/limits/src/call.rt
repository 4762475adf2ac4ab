// A call of layout with lists that are just long enough for 4,096 buses of one station, without
// branches and mesh (docs/WORK.md).
use layout::call::tx_schematic_layout;
use lent::{Crossings, Lists, Work};
use network::lists::Network;
use network::mesh::Mesh;
use network::options::Options;
use network::refusals::Refusal;

// Whether these buses are drawn, or why they aren't.
pub(crate) fn answer_of<'a>(
    options: Options,
    sub: &'a [u32],
    kv: &'a [u64],
    xy: &'a [f64],
) -> Result<(), Refusal> {
    let mut positions = [0.0; 8192];
    let mut bars = [0.0; 16384];
    let mut boxes = [0.0; 8];
    let mut scales = [0.0; 2];
    let mut roles = [0; 1];
    let mut pieces = [0.0; 4];
    let mut branches = [0; 1];
    let mut stations = [0; 8192];
    let mut buses = [0; 12288];
    let mut ends = [0; 4];
    let mut sorted = [0; 20480];
    let mut spare = [0; 4096];
    let mut keys = [0; 4096];
    let mut places = [0.0; 8192];
    let mut blocks = [0.0; 12288];
    let mut frames = [0.0; 16384];
    let mut path = [0.0; 8208];
    let mut crossing_numbers = [0; 1];
    let mut crossing_places = [0.0; 1];
    let mut crossing_ways = [0.0; 1];
    let mut lists = Lists {
        positions: &mut positions,
        bars: &mut bars,
        boxes: &mut boxes,
        scales: &mut scales,
        roles: &mut roles,
        pieces: &mut pieces,
        branches: &mut branches,
    };
    let mut work = Work {
        stations: &mut stations,
        buses: &mut buses,
        ends: &mut ends,
        sorted: &mut sorted,
        spare: &mut spare,
        keys: &mut keys,
        places: &mut places,
        blocks: &mut blocks,
        frames: &mut frames,
        path: &mut path,
    };
    let mut crossings = Crossings {
        numbers: &mut crossing_numbers,
        places: &mut crossing_places,
        ways: &mut crossing_ways,
    };
    let network = Network {
        sub,
        kv,
        from: &[],
        to: &[],
        service: &[],
        xy,
        mesh: Mesh {
            corners: &[],
            twins: &[],
        },
    };
    tx_schematic_layout(&mut lists, &mut work, &mut crossings, options, &network).map(|_| ())
}
