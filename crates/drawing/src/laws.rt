//! Laws of every drawing. A function here does nothing: its contract is the law.
ghost use Rattle.drawing.specs.Laws.{NoLostNumbers, FiniteBySeeds, SeedsAreNear, NumbersAreSized};

/// Each seed, the unit, each edge of a box, number of a bar, fraction of a crossing and point of a
/// run is finite (docs/RULES.md, 'No lost numbers'): `of_input` wherever neither the input nor the
/// mesh is refused; `of_seeds` wherever options, counts and mesh pass their tests and the seeds lie
/// within 10^12.
pub fn no_lost_numbers()
    ensures of_input { NoLostNumbers }
    ensures of_seeds { FiniteBySeeds }
{}

/// Where refusal 6 doesn't apply, each seed lies within 10^12 (docs/RULES.md, 'No lost numbers').
pub fn seeds()
    ensures { SeedsAreNear }
{}

/// Where neither the input nor the mesh is refused, each number of a drawing is at most as large
/// as the table says (docs/RULES.md, 'No lost numbers').
pub fn sizes()
    ensures { NumbersAreSized }
{}
