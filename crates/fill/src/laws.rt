//! Laws of the definitions. The functions here do nothing: their contracts are the laws.
ghost use Rattle.fill.specs.Laws.{GreatestHolds, LargestFillHolds};

/// What is taken for the greatest number with a property is the greatest, and there is none just
/// where no number has it (docs/RULES.md, 'Largest fill').
pub fn greatest()
    ensures { GreatestHolds }
{}

/// The call answers the largest fill that serves, with the drawing that layout gives at it, or
/// refusal 18 just where none serves (docs/RULES.md, 'Largest fill').
pub fn largest_fill()
    ensures { LargestFillHolds }
{}
