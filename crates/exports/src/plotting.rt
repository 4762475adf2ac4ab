// The drawing call.
ghost use Rattle.drawing.specs.Network.{network, crossings};
ghost use Rattle.records.specs.Lent.{layout_lists, layout_work};
ghost use Rattle.records.specs.Plain.{drew, LayoutAnswered};

use layout::call::tx_schematic_layout;
use lent::{Crossings, Lists, Work};
use network::lists::Network;
use network::mesh::Mesh;
use network::options::Options;
use records::plain::{Plotted, Settings};

/// Draws a network into the lent lists (docs/RULES.md, 'Promises of every call'). n buses, m
/// branches, k the highest station number + 1, L the length of `corners`, counted as at most
/// 24,576.
///
/// Result lists: `positions`, 2 n or more: x and y of each bar's middle. `bars`, 4 n: x and y of
/// both ends of each bus's bar. `boxes`, 4 k: left, top, right and bottom of each station's box.
/// `scales`, k: each station's scale. `roles`, m: each branch's role, 0 a line, 1 within a station,
/// 2 open or undrawn. `pieces`, any length: x and y of both ends of each piece. `branches`, any
/// length: each piece's branch. What stands past the drawing keeps its old content.
///
/// Work lists, with any content: `stations` 2 n, `buses` 3 n, `ends` 4 m + 4 L + 4, `sorted` n + 2
/// m + L and at least 5 n, `spare` and `keys` n + 2 m + L, `places` 2 n + 4 m, `blocks` 3 n,
/// `frames` 4 n and `path` 2 n + 3 L + 16, or more. The crossing list: `crossing_numbers` 3 for
/// each crossing, `crossing_places` 1, `crossing_ways` 2; `sorted`, `spare` and `keys` hold 1 too.
///
/// `settings`: the options. The network: `sub`, n: each bus's station. `kv`, n: its voltage, as the
/// bits of a float. `from` and `to`, m: each branch's buses; one below 0 or from n on is unknown.
/// `service`: 0 where a branch is open; one that is absent is live. `xy`: each bus's map
/// point, x and y; (0, 0) where it is absent or not finite. `corners` and `twins`: the mesh over the
/// occupied stations, for each half-edge the vertex that it starts at and its twin, 4,294,967,295
/// for none.
///
/// The answer's number is 0, or the first that applies, and then its other numbers are zeros and no
/// result list is changed: 1 more than 4,096 buses or 8,192 branches; 2 `kv` isn't as long as
/// `sub`; 3 `to` isn't as long as `from`; 4 a station number isn't below the bus count; 15 a
/// voltage isn't finite and above zero; 5 an option is out of range; 6 a bus with two finite
/// coordinates has one above 10^12 in size; 7 a list of fixed length is too short; 8 the boxes have
/// no size, or a corner by that size isn't at most 2^40 in size; 9 the mesh is ill-formed; 10
/// crossings outnumber the crossing list; 11 pieces outnumber the piece lists. After 1 to 7 and 15
/// the work lists hold what they held, else zeros.
#[unsafe(no_mangle)]
pub extern "C" fn tansygate_plot(
    positions: &mut [f64],
    bars: &mut [f64],
    boxes: &mut [f64],
    scales: &mut [f64],
    roles: &mut [u8],
    pieces: &mut [f64],
    branches: &mut [u32],
    stations: &mut [u32],
    buses: &mut [u32],
    ends: &mut [u32],
    sorted: &mut [u32],
    spare: &mut [u32],
    keys: &mut [u64],
    places: &mut [f64],
    blocks: &mut [f64],
    frames: &mut [f64],
    path: &mut [f64],
    crossing_numbers: &mut [u32],
    crossing_places: &mut [f64],
    crossing_ways: &mut [f64],
    settings: Settings,
    sub: &[u32],
    kv: &[u64],
    from: &[i64],
    to: &[i64],
    service: &[u8],
    xy: &[f64],
    corners: &[u32],
    twins: &[u32],
) -> Plotted
    ensures { LayoutAnswered settings
        (network sub.now kv.now from.now to.now service.now xy.now corners.now twins.now)
        (layout_lists positions.old bars.old boxes.old scales.old roles.old pieces.old branches.old)
        (layout_work stations.old buses.old ends.old sorted.old spare.old keys.old
        places.old blocks.old frames.old path.old)
        (crossings crossing_numbers.old crossing_places.old crossing_ways.old)
        (drew result
        (layout_lists positions.new bars.new boxes.new scales.new roles.new pieces.new branches.new)
        (layout_work stations.new buses.new ends.new sorted.new spare.new keys.new
        places.new blocks.new frames.new path.new)
        (crossings crossing_numbers.new crossing_places.new crossing_ways.new)) }
{
    let mut lists = Lists {
        positions,
        bars,
        boxes,
        scales,
        roles,
        pieces,
        branches,
    };
    let mut work = Work {
        stations,
        buses,
        ends,
        sorted,
        spare,
        keys,
        places,
        blocks,
        frames,
        path,
    };
    let mut crossings = Crossings {
        numbers: crossing_numbers,
        places: crossing_places,
        ways: crossing_ways,
    };
    let network = Network {
        sub,
        kv,
        from,
        to,
        service,
        xy,
        mesh: Mesh { corners, twins },
    };
    Plotted::from(tx_schematic_layout(
        &mut lists,
        &mut work,
        &mut crossings,
        Options::from(settings),
        &network,
    ))
}
