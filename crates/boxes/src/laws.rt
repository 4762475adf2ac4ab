//! Laws of ways round boxes. A function here does nothing: its contract is the law.
ghost use Rattle.boxes.specs.Laws.{WayIsFinite, DetourIsFinite};

/// The length of a way round a box is a number wherever its three points are
/// (docs/RULES.md, 'Corner of a detour').
pub fn ways()
    ensures { WayIsFinite }
{}

/// The points of a path that is led round boxes are numbers wherever its own points and the boxes
/// are (docs/RULES.md, 'No lost numbers').
pub fn detours()
    ensures { DetourIsFinite }
{}
