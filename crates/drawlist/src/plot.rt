// A drawing at fill 1/2 and 0 iterations, the other options the default ones, in lists that it
// holds itself.
ghost use Rattle.std.specs.Prelude.{◌≡◌, []};
ghost use Rattle.drawing.specs.Network.{network};
ghost use Rattle.small.specs.Output.{list_options, lists_with, Shown};

use drawing::answer::Plot;
use lent::Lists;
use network::lists::Network;
use network::mesh::Mesh;
use network::options::Options;
use network::refusals::Refusal;
use small::draw::draw_small;

// The options of drawlist: fill 1/2, 0 iterations.
fn options() -> Options
    ensures { result ≡ list_options }
{
    let o = Options::default();
    let block_options = o.block_options;
    Options {
        fill: 0.5,
        tier_radius: o.tier_radius,
        tier_count_1: o.tier_count_1,
        tier_count_2: o.tier_count_2,
        tier_scale_1: o.tier_scale_1,
        tier_scale_2: o.tier_scale_2,
        search: o.search,
        route_iterations: 0,
        block_options,
    }
}

// Draws, and gives what a listing shows: roles, pieces and their branches.
pub(crate) fn plot<'a>(
    sub: &'a [u32],
    kv: &'a [u64],
    from: &'a [i64],
    to: &'a [i64],
    service: &'a [u8],
    xy: &'a [f64],
    roles: &mut [u8],
    pieces: &mut [f64],
    branches: &mut [u32],
) -> Result<Plot, Refusal>
    ensures { Shown (network sub.now kv.now from.now to.now service.now xy.now [] [])
        (lists_with roles.old pieces.old branches.old) result roles.new pieces.new branches.new }
{
    let mut positions = [0f64; 128];
    let mut bars = [0f64; 256];
    let mut boxes = [0f64; 256];
    let mut scales = [0f64; 64];
    let mut lists = Lists {
        positions: &mut positions,
        bars: &mut bars,
        boxes: &mut boxes,
        scales: &mut scales,
        roles,
        pieces,
        branches,
    };
    let network = Network {
        sub,
        kv,
        from,
        to,
        service,
        xy,
        mesh: Mesh {
            corners: &[],
            twins: &[],
        },
    };
    draw_small(&mut lists, options(), 128, 0, &network)
}
