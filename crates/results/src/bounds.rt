// The bounds of a drawing (docs/RULES.md, 'Runs, pieces, roles and bounds').
ghost use Rattle.std.specs.Prelude.{◌≡◌};
ghost use Rattle.boxes.specs.Stages.Lent.{boxes_of, occupied_of};
ghost use Rattle.results.specs.Bounds.{around, around_all, nowhere, bounds_of};

use network::lists::Placed;
use numbers::float::small::{is_finite, max, min};
use plane::geometry::{Box, box_at};

// The least box around two.
#[tactic(auto, unfolding(crate::specs::Bounds::around))]
fn around(bounds: Box, station_box: Box) -> Box
    ensures { result ≡ around bounds station_box }
{
    Box {
        left: min(bounds.left, station_box.left),
        top: min(bounds.top, station_box.top),
        right: max(bounds.right, station_box.right),
        bottom: max(bounds.bottom, station_box.bottom),
    }
}

// The least box around the occupied stations' boxes.
fn around_all(placed: &Placed<'_>) -> Box
    ensures { result ≡ around_all (boxes_of placed.now) nowhere (occupied_of placed.now) }
{
    let mut b = Box {
        left: f64::INFINITY,
        top: f64::INFINITY,
        right: f64::NEG_INFINITY,
        bottom: f64::NEG_INFINITY,
    };
    for s in 0..placed.k {
        if placed.is_occupied(s) {
            b = around(b, box_at(placed.frames, s));
        }
    }
    b
}

/// The bounds of a drawing: the least box around the occupied stations' boxes; 0, 0, 1, 1 where no
/// station is occupied.
#[tactic(auto, unfolding(crate::specs::Bounds::bounds_of))]
pub fn bounds_of(placed: &Placed<'_>) -> Box
    ensures { result ≡ bounds_of (boxes_of placed.now) (occupied_of placed.now) }
{
    let b = around_all(placed);
    if is_finite(b.left) {
        b
    } else {
        Box {
            left: 0.0,
            top: 0.0,
            right: 1.0,
            bottom: 1.0,
        }
    }
}
