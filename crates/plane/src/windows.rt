//! The window of a part of a piece: a box that every box reaches which the piece enters there.
ghost use Rattle.std.specs.Prelude.{◌≡◌};
ghost use Rattle.plane.specs.Stages.Window.{range_holds, window_holds, is_apart};

use crate::geometry::{Box, Point};

// Whether low and high bound, in one direction, the part between two places of a piece that goes on
// from start by step.
#[tactic(auto, unfolding(crate::specs::Stages::Window::range_holds))]
fn range_holds(start: f64, step: f64, from: f64, to: f64, low: f64, high: f64) -> bool
    ensures { result ≡ range_holds start step from to low high }
{
    if 0.0 < step {
        (low - start) / step < from && to < (start - high) / -step
    } else if step < 0.0 {
        (start - high) / -step < from && to < (low - start) / step
    } else {
        low - start < 0.0 && start - high < 0.0
    }
}

/// Whether a box is a window of the part between two places, from 0 to 1, of the piece from p to q.
#[tactic(auto, unfolding(crate::specs::Stages::Window::window_holds))]
pub fn holds(p: Point, q: Point, from: f64, to: f64, window: Box) -> bool
    ensures { result ≡ window_holds p q from to window }
{
    range_holds(p.x, q.x - p.x, from, to, window.left, window.right)
        && range_holds(p.y, q.y - p.y, from, to, window.top, window.bottom)
}

/// Whether a box lies apart from a window: beyond one of its sides, and not touching it.
#[tactic(auto, unfolding(crate::specs::Stages::Window::is_apart))]
pub fn is_apart(window: Box, rectangle: Box) -> bool
    ensures { result ≡ is_apart window rectangle }
{
    window.right < rectangle.left
        || rectangle.right < window.left
        || window.bottom < rectangle.top
        || rectangle.bottom < window.top
}
