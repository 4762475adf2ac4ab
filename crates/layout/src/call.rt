// The public call.
ghost use Rattle.std.specs.Prelude.{◌≡◌};
ghost use Rattle.drawing.specs.Network.{network_of};
ghost use Rattle.drawing.specs.Answer.{call};
ghost use Rattle.drawing.specs.Number.{Answered};
ghost use Rattle.lent.specs.Held.{held_lists, held_work, held_crossings};
ghost use Rattle.lent.specs.Held.{SameLists, SameWork, SameCrossings};

use chart::lay_out_and_route;
use drawing::answer::Plot;
use finish::write_drawing;
use layout_limits::refuse::check_input;
use lent::clear::{zero_crossings, zero_work};
use lent::lengths::{crossing_room, room_of};
use lent::{Crossings, Lists, Work};
use network::lists::{Bounded, Network};
use network::options::Options;
use network::refusals::Refusal;
use network::words::station_count;

/// Draws the network into the lent lists: the call of layout.
///
/// Answers the drawing's numbers, or the refusal that applies first (docs/RULES.md, 'Order of
/// refusals'). A refused call changes no result list; refusals 1 to 7 and 15 leave every list as it
/// was, and after any other answer the work and crossing lists hold zeros ('After a refusal').
#[tactic(auto, using(drawing::proofs::Fitting::fits_of, drawing::proofs::Fitting::room_parts))]
pub fn tx_schematic_layout(
    lists: &mut Lists<'_>,
    work: &mut Work<'_>,
    crossings: &mut Crossings<'_>,
    options: Options,
    net: &Network<'_>,
) -> Result<Plot, Refusal>
    ensures same { SameLists lists.new lists.old × SameWork work.new work.old }
    ensures same_crossings { SameCrossings crossings.new crossings.old }
    ensures is { Answered options (network_of net.now) (held_lists lists.old) (held_work work.old)
        (held_crossings crossings.old) (call result (held_lists lists.new) (held_work work.new)
        (held_crossings crossings.new)) }
{
    let room = room_of(lists, work, crossings);
    check_input(options, net, room)?;
    let net = Bounded { lists: *net };
    let stations = station_count(net.lists.sub);
    let fit = crossing_room(room);
    let outcome = lay_out_and_route(work, crossings, options, &net, stations, fit);
    let answer = write_drawing(
        lists, work, crossings, options, &net, stations, room, outcome,
    );
    zero_work(work);
    zero_crossings(crossings);
    answer
}
