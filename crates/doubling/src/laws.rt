//! Laws of doubling. A function here does nothing: its contract is the law.
ghost use Rattle.doubling.specs.Laws.{Scales, Doubles, TimesScales, CanBeAsked, CloseUnit};
ghost use Rattle.doubling.specs.Laws.{LoneUnit};

/// Two calls of layout, the second with every map point times a power of two: both answer the
/// same number, and where they draw, the second drawing is the first one scaled
/// (docs/RULES.md, 'Doubling').
pub fn doubling()
    ensures scaled { Scales }
    ensures doubled { Doubles }
    ensures by_product { TimesScales }
{}

/// What doubling asks of a network can be met, and without two seeds far enough apart the unit
/// does not double (docs/RULES.md, 'Doubling').
pub fn premises()
    ensures met { CanBeAsked }
    ensures close_seeds { CloseUnit }
    ensures one_seed { LoneUnit }
{}
