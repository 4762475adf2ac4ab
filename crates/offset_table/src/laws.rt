//! Laws of the table of offsets. A function here does nothing: its contract is the law.
ghost use Rattle.offset_table.specs.Laws.{TableIsComplete, TableIsGenerated, TableServesSmaller};

/// The table holds each offset within search 20 once and no other, in their order, entry for
/// entry as they are generated, and serves each smaller search
/// (docs/RULES.md, 'Table of offsets').
pub fn table()
    ensures complete { TableIsComplete }
    ensures generated { TableIsGenerated }
    ensures smaller { TableServesSmaller }
{}
