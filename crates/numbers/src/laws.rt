//! Laws of the arithmetic of a drawing. A function here does nothing: its contract is the law.
ghost use Rattle.numbers.specs.Laws.{Rounds, RoundsToOne, AddsOnce, SubtractsOnce, MultipliesOnce};
ghost use Rattle.numbers.specs.Laws.{DividesOnce, ConvertsOnce, RootsToOne, FloorIsGreatest};
ghost use Rattle.numbers.specs.Laws.{FloorOfInfinity, FloorOfNan, KeysAreTotalOrder};

/// A fraction has one nearest binary64 number, ties to even, and rounding gives it
/// (docs/RULES.md, 'Rounding').
pub fn rounding()
    ensures rounds { Rounds }
    ensures to_one { RoundsToOne }
{}

/// Sum, difference, product, quotient and conversion of a whole number give the exact result
/// rounded once (docs/RULES.md, 'Rounding').
pub fn operations()
    ensures sum { AddsOnce }
    ensures difference { SubtractsOnce }
    ensures product { MultipliesOnce }
    ensures quotient { DividesOnce }
    ensures conversion { ConvertsOnce }
{}

/// One number of the format is the root of a whole number of squared grains, rounded
/// (docs/RULES.md, 'Hypot'); `hypot` gives it.
pub fn roots()
    ensures { RootsToOne }
{}

/// The floor of a finite number is the greatest whole number not above it, with its sign; an
/// infinity and NaN are their own floor (docs/RULES.md, 'Floor').
pub fn floors()
    ensures finite { FloorIsGreatest }
    ensures infinite { FloorOfInfinity }
    ensures no_number { FloorOfNan }
{}

/// Bit patterns in the order of their keys stand in IEEE 754's totalOrder
/// (docs/RULES.md, 'Total order').
pub fn total_order()
    ensures { KeysAreTotalOrder }
{}
