// The call of the largest fill.
ghost use Rattle.drawing.specs.Network.{network, crossings};
ghost use Rattle.records.specs.Lent.{layout_lists, layout_work};
ghost use Rattle.records.specs.Plain.{fill_drew, FillAnswered};

use fill::call::largest_fill;
use lent::{Crossings, Lists, Work};
use network::lists::Network;
use network::mesh::Mesh;
use network::options::Options;
use records::plain::{Filled, Settings};

/// Draws a network with straight lines at the largest fill of 1/64 to 64/64 at which nothing refuses
/// the drawing and every box finds a free place (docs/RULES.md, 'Largest fill').
///
/// The lists, the options and the network are lent as to `tansygate_plot`. `fill` and
/// `route_iterations` of the options aren't looked at, and the mesh only for its length.
///
/// The answer's number is 0, and then `sixty_fourths` is the fill and the result lists hold the
/// drawing that `tansygate_plot` leaves at it; or the first refusal that applies: 1 to 7 and 15 as
/// for `tansygate_plot`, else 18 where no fill serves. At a refusal the other numbers are zeros and
/// no result list is changed. After 1 to 7 and 15 the work lists hold what they held, else zeros.
#[unsafe(no_mangle)]
pub extern "C" fn tansygate_largest_fill(
    positions: &mut [f64],
    bars: &mut [f64],
    boxes: &mut [f64],
    scales: &mut [f64],
    roles: &mut [u8],
    pieces: &mut [f64],
    branches: &mut [u32],
    stations: &mut [u32],
    buses: &mut [u32],
    ends: &mut [u32],
    sorted: &mut [u32],
    spare: &mut [u32],
    keys: &mut [u64],
    places: &mut [f64],
    blocks: &mut [f64],
    frames: &mut [f64],
    path: &mut [f64],
    crossing_numbers: &mut [u32],
    crossing_places: &mut [f64],
    crossing_ways: &mut [f64],
    settings: Settings,
    sub: &[u32],
    kv: &[u64],
    from: &[i64],
    to: &[i64],
    service: &[u8],
    xy: &[f64],
    corners: &[u32],
    twins: &[u32],
) -> Filled
    ensures { FillAnswered settings
        (network sub.now kv.now from.now to.now service.now xy.now corners.now twins.now)
        (layout_lists positions.old bars.old boxes.old scales.old roles.old pieces.old branches.old)
        (layout_work stations.old buses.old ends.old sorted.old spare.old keys.old
        places.old blocks.old frames.old path.old)
        (crossings crossing_numbers.old crossing_places.old crossing_ways.old)
        (fill_drew result
        (layout_lists positions.new bars.new boxes.new scales.new roles.new pieces.new branches.new)
        (layout_work stations.new buses.new ends.new sorted.new spare.new keys.new
        places.new blocks.new frames.new path.new)
        (crossings crossing_numbers.new crossing_places.new crossing_ways.new)) }
{
    let mut lists = Lists {
        positions,
        bars,
        boxes,
        scales,
        roles,
        pieces,
        branches,
    };
    let mut work = Work {
        stations,
        buses,
        ends,
        sorted,
        spare,
        keys,
        places,
        blocks,
        frames,
        path,
    };
    let mut crossings = Crossings {
        numbers: crossing_numbers,
        places: crossing_places,
        ways: crossing_ways,
    };
    let network = Network {
        sub,
        kv,
        from,
        to,
        service,
        xy,
        mesh: Mesh { corners, twins },
    };
    Filled::from(largest_fill(
        &mut lists,
        &mut work,
        &mut crossings,
        Options::from(settings),
        &network,
    ))
}
