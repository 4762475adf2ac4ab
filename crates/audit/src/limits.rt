// Refusals of an audit by its input: 1 to 4, 15, 6 and 7, which the input alone decides.
ghost use Rattle.std.specs.Prelude.{◌≡◌, ◌≤◌};
ghost use Rattle.std.specs.Result.{result_err};
ghost use Rattle.audit.specs.Held.{held_drawing};
ghost use Rattle.audit.specs.Answer.{too_short, early};

use crate::findings::lengths::AuditLengths;
use crate::fit::drawn::Drawn;
use boxes::box_cells::build::index_length;
use network::refusals::{Refusal, check_shape, too_far};
use network::words::station_count;

// Whether a list is too short for as many buses, stations and pieces.
#[tactic(auto, unfolding(crate::specs::Answer::too_short))]
fn too_short(buses: usize, stations: usize, pieces: usize, room: AuditLengths) -> bool
    requires { buses ≤ 4096 }
    ensures { result ≡ too_short buses stations pieces room }
{
    room.displacement < stations
        || room.spacing < stations
        || room.relative < pieces
        || room.stations < 2 * buses
        || room.spare < buses
        || room.keys < buses
        || room.points < 2 * buses
        || room.path < 2 * buses
        || room.index < index_length(buses)
}

// The refusal of an audit's input that applies first: 1 to 4, 15, 6 or 7, in this order.
pub(crate) fn check_input(drawing: &Drawn<'_>, room: AuditLengths) -> Result<(), Refusal>
    ensures { result_err result ≡ early (held_drawing drawing.now) room }
{
    check_shape(drawing.sub, drawing.kv, drawing.from, drawing.to)?;
    if too_far(drawing.sub.len(), drawing.xy) {
        return Err(Refusal::TooFar);
    }
    if too_short(
        drawing.sub.len(),
        station_count(drawing.sub),
        drawing.branches.len(),
        room,
    ) {
        return Err(Refusal::ListTooShort);
    }
    Ok(())
}
