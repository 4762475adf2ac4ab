// Whether boxes are finite: only finite ones are entered.
ghost use Rattle.std.specs.Prelude.{◌≡◌, true};
ghost use Rattle.plane.specs.Stages.Window.{finite_box};
ghost use Rattle.boxes.specs.Stages.Lent.{FiniteBoxes};

use crate::first_box::box_in;
use network::lists::Placed;
use numbers::float::small::is_finite;
use plane::geometry::Box;

// Whether all sides of a box are finite.
#[tactic(auto, unfolding(plane::specs::Stages::Window::finite_box))]
fn finite_box(station_box: Box) -> bool
    ensures { result ≡ finite_box station_box }
{
    is_finite(station_box.left)
        && is_finite(station_box.top)
        && is_finite(station_box.right)
        && is_finite(station_box.bottom)
}

/// Whether all sides of the occupied stations' boxes are finite.
pub(crate) fn all_finite(placed: &Placed<'_>) -> bool
    ensures { result ≡ true → FiniteBoxes placed.now }
{
    for s in 0..placed.k {
        if placed.is_occupied(s) {
            if !finite_box(box_in(placed.k, placed.frames, s)) {
                return false;
            }
        }
    }
    true
}
