// The lists of buses: positions and bars.
ghost use Rattle.std.specs.Prelude.{◌≡◌, ◌*◌, ◌≤◌, length};
ghost use Rattle.stations.specs.Bar.{position};
ghost use Rattle.numbers.specs.Over.{over};
ghost use Rattle.runs.specs.Lists.{flat, point_numbers, bar_numbers};
ghost use Rattle.results.specs.Stages.Bars.{bars_in};

use network::seeds::{put_box, put_point};
use plane::geometry::Box;
use runs::run::bar_of;
use stations::bars::position;
use stations::measures::Measures;

/// Writes the buses' positions, two coordinates each, and their bars, four numbers each: a bar is
/// stored as a box of no width. What stands behind them in both lists stays.
pub fn write_buses(
    sub: &[u32],
    measures: Measures,
    buses: &[u32],
    blocks: &[f64],
    frames: &[f64],
    positions: &mut [f64],
    bars: &mut [f64],
)
    requires few_buses { length sub.now ≤ 4096 }
    requires positions_fit { 2 * length sub.now ≤ length positions.old }
    requires bars_fit { 4 * length sub.now ≤ length bars.old }
    ensures positions_after { positions.new
        ≡ over (flat (λ b. point_numbers (position b))
        (bars_in sub.now measures buses.now blocks.now frames.now)) positions.old }
    ensures bars_after { bars.new
        ≡ over (flat bar_numbers
        (bars_in sub.now measures buses.now blocks.now frames.now)) bars.old }
{
    for (i, &s) in sub.iter().enumerate() {
        let bar = bar_of(measures, buses, blocks, frames, s as usize, i);
        put_point(positions, i, position(bar));
        put_box(
            bars,
            i,
            Box {
                left: bar.x,
                top: bar.y0,
                right: bar.x,
                bottom: bar.y1,
            },
        );
    }
}
