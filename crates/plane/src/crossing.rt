//! Whether two segments cross, and where on a segment a line crosses it.
ghost use Rattle.std.specs.Prelude.{◌≡◌, true, false};
ghost use Rattle.plane.specs.Plane.{point};
ghost use Rattle.plane.specs.Cross.{orient, crosses, parallel, param};

use crate::geometry::Point;
use numbers::float::small::{abs, clamp, max};
use numbers::hypot::hypot;

/// Where the line through two points crosses a segment.
#[derive(Clone, Copy)]
pub enum Param {
    /// From 0 at the segment's start to 1 at its end.
    At(f64),
    /// The two are parallel.
    Parallel,
}

// Twice the area of a triangle, with its sense.
#[tactic(auto, unfolding(crate::specs::Cross::orient))]
fn orient(origin: Point, first: Point, second: Point) -> f64
    ensures { result ≡ orient origin first second }
{
    (first.x - origin.x) * (second.y - origin.y) - (first.y - origin.y) * (second.x - origin.x)
}

/// Whether the segments from p to q and from start to end cross at a point inside both
/// (docs/RULES.md, 'Walk').
#[tactic(auto, unfolding(crate::specs::Cross::crosses))]
pub fn segments_cross(p: Point, q: Point, start: Point, end: Point) -> bool
    ensures { result ≡ crosses p q start end }
{
    orient(start, end, p) * orient(start, end, q) < 0.0
        && orient(p, q, start) * orient(p, q, end) < 0.0
}

// Whether two directions are so far from parallel that their lengths need not be found: each is at
// most the sum of its sides' sizes.
fn far_from_parallel(denom: f64, first_x: f64, first_y: f64, second_x: f64, second_y: f64) -> bool
    ensures { result ≡ true
        → parallel denom (point first_x first_y) (point second_x second_y) ≡ false }
{
    let a = abs(first_x) + abs(first_y);
    let b = abs(second_x) + abs(second_y);
    1e-12 * max(a * b, f64::MIN_POSITIVE) <= abs(denom)
}

// Whether two directions are parallel, where denom is their cross product.
#[tactic(auto, unfolding(crate::specs::Cross::parallel))]
fn parallel(denom: f64, first: Point, second: Point) -> bool
    ensures { result ≡ parallel denom first second }
{
    !far_from_parallel(denom, first.x, first.y, second.x, second.y)
        && abs(denom)
            < 1e-12
                * max(
                    hypot(first.x, first.y) * hypot(second.x, second.y),
                    f64::MIN_POSITIVE,
                )
}

/// Where the line through p and q crosses the segment from start to end: from 0 at its start to 1
/// at its end, clamped to these, or that the two are parallel (docs/RULES.md, 'Crossings').
pub fn line_param(p: Point, q: Point, start: Point, end: Point) -> Param
    ensures { result ≡ param p q start end }
{
    let r = Point {
        x: q.x - p.x,
        y: q.y - p.y,
    };
    let s = Point {
        x: end.x - start.x,
        y: end.y - start.y,
    };
    let denom = r.x * s.y - r.y * s.x;
    if parallel(denom, r, s) {
        return Param::Parallel;
    }
    let t = ((start.x - p.x) * r.y - (start.y - p.y) * r.x) / denom;
    Param::At(clamp(t, 0.0, 1.0))
}
