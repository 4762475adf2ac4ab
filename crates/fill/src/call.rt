//! The call of the largest fill.
ghost use Rattle.std.specs.Prelude.{◌≡◌};
ghost use Rattle.drawing.specs.Network.{network_of};
ghost use Rattle.lent.specs.Held.{held_lists, held_work, held_crossings};
ghost use Rattle.lent.specs.Held.{SameLists, SameWork, SameCrossings};
ghost use Rattle.fill.specs.Fill.{fill_call, largest_fill_of};

use crate::answer::Largest;
use crate::tries::{at_fill, try_fills};
use chart::lay::prepare;
use layout_limits::refuse::check_input;
use lent::clear::{zero_crossings, zero_work};
use lent::lengths::room_of;
use lent::{Crossings, Lists, Work};
use network::lists::{Bounded, Network};
use network::options::Options;
use network::refusals::Refusal;
use network::words::station_count;

/// Draws the network with straight lines at the largest fill of 1/64 to 64/64 at which nothing
/// refuses the drawing and every box finds a free place (docs/RULES.md, 'Largest fill').
///
/// The fill and the iterations of `options` aren't looked at. Answers the fill and the drawing's
/// numbers. Refusals 1 to 7 and 15 end the call and leave every list as it was; refusal 18 says
/// that no fill serves, and leaves the result lists as they were. After any other answer than 1 to
/// 7 and 15 the work and crossing lists hold zeros.
#[tactic(auto, using(drawing::proofs::Fitting::fits_of, drawing::proofs::Fitting::room_parts))]
pub fn largest_fill(
    lists: &mut Lists<'_>,
    work: &mut Work<'_>,
    crossings: &mut Crossings<'_>,
    options: Options,
    net: &Network<'_>,
) -> Result<Largest, Refusal>
    ensures same { SameLists lists.new lists.old × SameWork work.new work.old }
    ensures same_crossings { SameCrossings crossings.new crossings.old }
    ensures is { fill_call result (held_lists lists.new) (held_work work.new)
        (held_crossings crossings.new)
        ≡ largest_fill_of options (network_of net.now) (held_lists lists.old)
        (held_work work.old) (held_crossings crossings.old) }
{
    let room = room_of(lists, work, crossings);
    check_input(at_fill(options, 64), net, room)?;
    let net = Bounded { lists: *net };
    let stations = station_count(net.lists.sub);
    let typical = prepare(work, options, &net, stations);
    let answer = try_fills(
        lists, work, crossings, options, &net, stations, room, typical, 64,
    );
    zero_work(work);
    zero_crossings(crossings);
    answer.ok_or(Refusal::NoFill)
}
