//! Laws of channels. A function here does nothing: its contract is the law.
ghost use Rattle.channels.specs.Laws.{EndsOrdered, CrossedIsFinite, PlacedIsFinite, SpacingsHold};

/// The lower end of a channel is not above its upper end, whatever its two stations are
/// (docs/RULES.md, 'Channels').
pub fn ends()
    ensures { EndsOrdered }
{}

/// The ends of a channel that a line crosses are numbers, and so is its least step
/// (docs/RULES.md, 'No lost numbers').
pub fn crossed()
    ensures { CrossedIsFinite }
{}

/// The fractions that wishes get on such a channel are numbers wherever the wishes are
/// (docs/RULES.md, 'No lost numbers').
pub fn wishes()
    ensures { PlacedIsFinite }
{}

/// The worked cases of a channel and of wishes on one (docs/RULES.md, 'Worked cases').
pub fn cases()
    ensures { SpacingsHold }
{}
