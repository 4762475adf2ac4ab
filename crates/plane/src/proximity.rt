//! Whether boxes overlap and points are near: the tests that scans over points and boxes make.
ghost use Rattle.std.specs.Prelude.{◌≡◌};
ghost use Rattle.std.specs.Float.Ieee.{le};
ghost use Rattle.numbers.specs.Hypot.{hypot_of};
ghost use Rattle.plane.specs.Overlap.{meet, overlap};
ghost use Rattle.plane.specs.Near.{NotPast, nearer};

use crate::geometry::Box;
use numbers::float::small::{abs, max, min};
use numbers::hypot::hypot;

// Whether each of two ranges begins before the other ends.
#[tactic(auto, unfolding(crate::specs::Overlap::meet))]
fn meet(first_start: f64, first_end: f64, second_start: f64, second_end: f64) -> bool
    ensures { result ≡ meet first_start first_end second_start second_end }
{
    first_start < second_end && second_start < first_end
}

/// Whether two boxes overlap; touching doesn't count (docs/RULES.md, 'Free places').
#[tactic(auto, unfolding(crate::specs::Overlap::overlap))]
pub fn overlaps(first: Box, second: Box) -> bool
    ensures { result ≡ overlap first second }
{
    meet(first.left, first.right, second.left, second.right)
        && meet(first.top, first.bottom, second.top, second.bottom)
}

// The longer of two sides, which the hypotenuse is not below. `max(dx, -dx)` is one test, where
// std's `abs` makes two, and scans ask this of each point that they meet.
fn longer(dx: f64, dy: f64) -> f64
    ensures { NotPast result (hypot_of dx dy) }
{
    max(max(dx, -dx), max(dy, -dy))
}

// The lesser of best and the length of (dx, dy), where that is above 0. A side longer than best
// decides it, and so do two sides of 0.
pub(crate) fn closer(best: f64, dx: f64, dy: f64) -> f64
    ensures { result ≡ nearer best (hypot_of dx dy) }
{
    if best < longer(dx, dy) {
        return best;
    }
    if abs(dx) + abs(dy) <= 0.0 {
        return best;
    }
    let d = hypot(dx, dy);
    if 0.0 < d {
        return min(best, d);
    }
    best
}

// Whether the length of (dx, dy) is at most radius. A side longer than that decides it, and so do
// two sides that are shorter together.
pub(crate) fn is_near(dx: f64, dy: f64, radius: f64) -> bool
    ensures { result ≡ le (hypot_of dx dy) radius }
{
    if radius < longer(dx, dy) {
        return false;
    }
    abs(dx) + abs(dy) < radius || hypot(dx, dy) <= radius
}
