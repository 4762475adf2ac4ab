//! Laws of pieces and boxes. A function here does nothing: its contract is the law.
ghost use Rattle.plane.specs.Laws.{EntersWhatItHits, EntersAtEntry, TestedPartAsStored};

/// A piece enters a box just where the clip test hits it, and with the entry that the rule names
/// (docs/RULES.md, 'Where a piece enters a box').
pub fn entries()
    ensures hit { EntersWhatItHits }
    ensures entry { EntersAtEntry }
{}

/// Cells in signs and cells as they are stored give one tested part
/// (docs/RULES.md, 'Boxes in cell order').
pub fn tested_parts()
    ensures { TestedPartAsStored }
{}
