// A charted drawing judged: its plot, or refusal 11.
ghost use Rattle.std.specs.Prelude.{◌≡◌};
ghost use Rattle.drawing.specs.Network.{network_of};
ghost use Rattle.drawing.specs.Drawing.{drawing};
ghost use Rattle.drawing.specs.Answer.{late, answer_for};
ghost use Rattle.finish.specs.Stages.Draft.{clearance_led, ChartedBy};

use drawing::answer::Plot;
use drawing::late::check_pieces;
use drawing::lengths::ListLengths;
use network::lists::Bounded;
use network::options::Options;
use network::refusals::Refusal;
use results::bounds::bounds_of;
use results::piece_list::piece_count;
use routing::crossings::clearance::clearance_of;
use runs::laid::{Laid, Obstacles};

// The clearance that lines keep where they are led: where there are iterations.
#[tactic(auto, using(numbers::proofs::order::Choices::some_if))]
pub(crate) fn clearance_led(options: Options, unit: f64) -> Option<f64>
    ensures { result ≡ clearance_led options unit }
{
    (0 < options.route_iterations).then_some(clearance_of(unit))
}

// Judges the drawing that the work lists hold, which nothing refuses so far, with lists of these
// lengths: its numbers, or refusal 11.
#[tactic(auto, using(network::proofs::refusals::Unless::accepted))]
pub(crate) fn plot_of(
    options: Options,
    net: &Bounded<'_>,
    laid: &Laid<'_>,
    obstacles: &Obstacles<'_>,
    room: ListLengths,
    path: &mut [f64],
) -> Result<Plot, Refusal>
    requires measured { laid.now.measures.block_options ≡ options.block_options }
    requires guided { obstacles.now.clearance ≡ clearance_led options laid.now.measures.unit }
    requires charted { ChartedBy options (network_of net.now.lists) room laid.now obstacles.now
        path.old }
    ensures { result ≡ answer_for (late (drawing options (network_of net.now.lists)) room)
        (drawing options (network_of net.now.lists)) }
{
    let pieces = piece_count(net, laid, obstacles, path);
    let bounds = bounds_of(&obstacles.index.placed);
    check_pieces(pieces, room.pieces, room.branches)?;
    Ok(Plot {
        unit: laid.measures.unit,
        bounds,
        pieces,
    })
}
