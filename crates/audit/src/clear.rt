// Work lists back to zeros.
ghost use Rattle.std.specs.Prelude.{◌≡◌};
ghost use Rattle.audit.specs.Answer.{cleared};
ghost use Rattle.audit.specs.Held.{held_work, SameWork};

use crate::lists::Work;

// Writes zeros into all work lists.
#[tactic(auto, unfolding(crate::specs::Answer::cleared))]
pub(crate) fn zero_work(work: &mut Work<'_>)
    ensures same { SameWork work.new work.old }
    ensures is { held_work work.new ≡ cleared (held_work work.old) }
{
    work.stations.fill(0);
    work.index.fill(0);
    work.spare.fill(0);
    work.keys.fill(0);
    work.points.fill(0.0);
    work.path.fill(0.0);
}
