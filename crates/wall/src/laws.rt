//! Laws of the definitions. The functions here do nothing: their contracts are the laws.
ghost use Rattle.wall.specs.Largest.{LargestHolds};
ghost use Rattle.wall.specs.Laws.{CasesHold};

/// The worked cases come out of the definitions as they stand in
/// docs/RULES.md, 'Worked cases'.
pub fn cases()
    ensures { CasesHold }
{}

/// The drawing at the largest fill is one that arises as the rules say, and no audit that accepts
/// it counts an overlap (docs/RULES.md, 'Largest fill').
pub fn largest_fill()
    ensures { LargestHolds }
{}
