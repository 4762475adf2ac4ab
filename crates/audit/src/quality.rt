// The public call.
ghost use Rattle.audit.specs.Answer.{call, Answered};
ghost use Rattle.audit.specs.Held.{held_drawing, held_lists, held_work, SameLists, SameWork};

use crate::clear::zero_work;
use crate::findings::answer::Figures;
use crate::findings::lengths::AuditLengths;
use crate::fit::drawn::{Drawn, FewBuses};
use crate::inside::audited;
use crate::limits::check_input;
use crate::lists::{FigureLists, Work};
use network::refusals::Refusal;

/// Audits a drawing: the figures of each station and line go into the result lists, the others are
/// the answer.
///
/// Or answers the refusal that applies first: 1 to 4, 15, 6, 7, 13 or 8 (docs/RULES.md, 'Order of
/// refusals'). A refused call changes no result list; refusals 1 to 7 and 15 leave every list as it
/// was, and after any other answer the work lists hold zeros ('After a refusal').
pub fn tx_layout_quality(
    lists: &mut FigureLists<'_>,
    work: &mut Work<'_>,
    drawing: &Drawn<'_>,
) -> Result<Figures, Refusal>
    ensures same { SameLists lists.new lists.old × SameWork work.new work.old }
    ensures is { Answered (held_drawing drawing.now) (held_lists lists.old) (held_work work.old)
        (call result (held_lists lists.new) (held_work work.new)) }
{
    let room = AuditLengths {
        displacement: lists.displacement.len(),
        spacing: lists.spacing.len(),
        relative: lists.relative.len(),
        stations: work.stations.len(),
        index: work.index.len(),
        spare: work.spare.len(),
        keys: work.keys.len(),
        points: work.points.len(),
        path: work.path.len(),
    };
    check_input(drawing, room)?;
    let drawing = FewBuses { lists: *drawing };
    let a = audited(&drawing, lists, work);
    zero_work(work);
    a
}
