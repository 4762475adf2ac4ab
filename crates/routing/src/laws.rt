//! Laws of crossings. A function here does nothing: its contract is the law.
ghost use Rattle.routing.specs.Laws.{CrossingsHold};

/// The worked cases of a crossing's fraction, its wish and its waypoint
/// (docs/RULES.md, 'Worked cases').
pub fn cases()
    ensures { CrossingsHold }
{}
