// An audit once its input has passed: refusals 13 and 8, and the figures.
ghost use Rattle.std.specs.Prelude.{◌*◌, ◌≤◌, length};
ghost use Rattle.network.specs.Words.{station_count};
ghost use Rattle.audit.specs.Answer.{Inner};
ghost use Rattle.audit.specs.Held.{held_drawing, held_lists, SameLists, SameWork, LongWork};
ghost use Rattle.audit.specs.Stages.Views.{FigureRoom, SortRoom};

use crate::accepted::figures_of;
use crate::findings::answer::Figures;
use crate::fit::drawn::FewBuses;
use crate::fit::fit::fits;
use crate::fit::scale::ill_drawn;
use crate::lists::{FigureLists, Work};
use network::lists::Placed;
use network::refusals::Refusal;
use network::words::{bus_counts, station_count};

// Refusal 13 or 8, or the figures, in the result lists and the answer.
pub(crate) fn audited(
    drawing: &FewBuses<'_>,
    lists: &mut FigureLists<'_>,
    work: &mut Work<'_>,
) -> Result<Figures, Refusal>
    requires few_stations { station_count drawing.now.lists.sub.now
        ≤ length drawing.now.lists.sub.now }
    requires count_room { 2 * length drawing.now.lists.sub.now ≤ length work.old.stations.now }
    requires figure_room { FigureRoom (station_count drawing.now.lists.sub.now)
        (length drawing.now.lists.branches.now) (held_lists lists.old) }
    requires point_room { 2 * length drawing.now.lists.sub.now ≤ length work.old.points.now }
    requires path_room { 2 * length drawing.now.lists.sub.now ≤ length work.old.path.now }
    requires sort_room { SortRoom (length drawing.now.lists.sub.now) work.old.index.now
        work.old.spare.now work.old.keys.now }
    ensures same { SameLists lists.new lists.old × SameWork work.new work.old }
    ensures long { LongWork work.new work.old }
    ensures is { Inner (held_drawing drawing.now.lists) (held_lists lists.old) result
        (held_lists lists.new) }
{
    if !fits(drawing) {
        return Err(Refusal::NoFit);
    }
    let stations = station_count(drawing.lists.sub);
    let counts = &mut *work.stations;
    bus_counts(drawing.lists.sub, stations, counts);
    let placed = Placed {
        k: stations,
        stations: counts,
        frames: drawing.lists.boxes,
    };
    if ill_drawn(&placed, drawing.lists.pieces) {
        return Err(Refusal::IllSized);
    }
    Ok(figures_of(
        drawing,
        stations,
        counts,
        lists.displacement,
        lists.spacing,
        lists.relative,
        work.index,
        work.spare,
        work.keys,
        work.points,
        work.path,
    ))
}
