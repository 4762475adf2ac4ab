// Work and crossing lists back to zeros.
ghost use Rattle.std.specs.Prelude.{◌≡◌};
ghost use Rattle.drawing.specs.Answer.{zeroed_work, zeroed_crossings};
ghost use Rattle.lent.specs.Held.{held_work, held_crossings, SameWork, SameCrossings};

use crate::{Crossings, Work};

/// Writes zeros into every work list of fixed needed length (docs/RULES.md, 'After a refusal').
#[tactic(auto, unfolding(drawing::specs::Answer::zeroed_work))]
pub fn zero_work(work: &mut Work<'_>)
    ensures same { SameWork work.new work.old }
    ensures is { held_work work.new ≡ zeroed_work (held_work work.old) }
{
    work.stations.fill(0);
    work.buses.fill(0);
    work.ends.fill(0);
    work.sorted.fill(0);
    work.spare.fill(0);
    work.keys.fill(0);
    work.places.fill(0.0);
    work.blocks.fill(0.0);
    work.frames.fill(0.0);
    work.path.fill(0.0);
}

/// Writes zeros into the crossing lists.
#[tactic(auto, unfolding(drawing::specs::Answer::zeroed_crossings))]
pub fn zero_crossings(crossings: &mut Crossings<'_>)
    ensures same { SameCrossings crossings.new crossings.old }
    ensures is { held_crossings crossings.new ≡ zeroed_crossings (held_crossings crossings.old) }
{
    crossings.numbers.fill(0);
    crossings.places.fill(0.0);
    crossings.ways.fill(0.0);
}
