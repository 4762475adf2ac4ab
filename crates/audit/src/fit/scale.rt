// Refusal 8 in the audit (docs/RULES.md, 'Refusals').
ghost use Rattle.std.specs.Prelude.{◌≡◌};
ghost use Rattle.audit.specs.Stages.Views.{placed_boxes, placed_stations};
ghost use Rattle.audit.specs.Scale.{sized_ends, ill_drawn};

use network::lists::Placed;
use placement::sized::{any_occupied, ill_sized, largest, sized};

// Whether every coordinate of a piece end, divided by `side`, is at most 2^40 in size.
fn sized_ends(side: f64, pieces: &[f64]) -> bool
    ensures { result ≡ sized_ends side pieces.now }
{
    pieces.iter().all(|&x| sized(side, x))
}

// Whether the boxes are ill sized, or a piece end lies too far out for their size.
#[tactic(auto, unfolding(crate::specs::Scale::ill_drawn))]
pub(crate) fn ill_drawn(placed: &Placed<'_>, pieces: &[f64]) -> bool
    ensures { result ≡ ill_drawn (placed_boxes placed.now) (placed_stations placed.now) pieces.now }
{
    ill_sized(placed)
        || any_occupied(placed.k, placed.stations) && !sized_ends(largest(placed), pieces)
}
