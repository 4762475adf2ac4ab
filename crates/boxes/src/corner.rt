// The point by which a piece goes round a box: a corner of it, half a clearance off
// (docs/RULES.md, 'Corner of a detour'). A piece is its two ends, p and q.
ghost use Rattle.std.specs.Prelude.{◌≡◌, cond, None};
ghost use Rattle.boxes.specs.Corner.{cost, cost_key, avoids, avoiding, cheaper, cheapest};
ghost use Rattle.boxes.specs.Corner.{corners_of, corner};

use numbers::float::key::order_key_total;
use numbers::hypot::hypot;
use plane::geometry::{Box, Point, piece_hits, shrunk};

// How long the way from p over `via` to q is.
fn cost(p: Point, q: Point, via: Point) -> f64
    ensures { result ≡ cost p q via }
{
    hypot(via.x - p.x, via.y - p.y) + hypot(q.x - via.x, q.y - via.y)
}

// Its place in the total order.
#[tactic(auto, unfolding(crate::specs::Corner::cost_key))]
fn cost_key(p: Point, q: Point, via: Point) -> u64
    ensures { result ≡ cost_key p q via }
{
    order_key_total(cost(p, q, via))
}

// Whether the two pieces from p over `via` to q clear the box, shrunk by 1e-9.
fn avoids(p: Point, q: Point, obstacle: Box, via: Point) -> bool
    ensures { result ≡ avoids p q obstacle via }
{
    let s = shrunk(obstacle);
    if piece_hits(p, via, s) {
        return false;
    }
    !piece_hits(via, q, s)
}

// `via` in place of the cheapest so far where it costs strictly less.
fn cheaper(p: Point, q: Point, best: Option<Point>, via: Point) -> Option<Point>
    ensures { result ≡ cheaper p q best via }
{
    match best {
        None => Some(via),
        Some(d) => {
            if cost_key(p, q, via) < cost_key(p, q, d) {
                Some(via)
            } else {
                best
            }
        }
    }
}

// The same, but only where the two pieces over `via` clear the box.
fn cheaper_avoiding(
    p: Point,
    q: Point,
    obstacle: Box,
    best: Option<Point>,
    via: Point,
) -> Option<Point>
    ensures { result ≡ cond (avoids p q obstacle via) (cheaper p q best via) best }
{
    if avoids(p, q, obstacle, via) {
        return cheaper(p, q, best, via);
    }
    best
}

// The cheapest of these points.
fn cheapest(p: Point, q: Point, corners: &[Point]) -> Option<Point>
    ensures { result ≡ cheapest p q None corners.now }
{
    let mut best = None;
    for &c in corners {
        best = cheaper(p, q, best, c);
    }
    best
}

// The cheapest of those that clear the box.
fn cheapest_avoiding(p: Point, q: Point, obstacle: Box, corners: &[Point]) -> Option<Point>
    ensures { result ≡ cheapest p q None (avoiding p q obstacle corners.now) }
{
    let mut best = None;
    for &c in corners {
        best = cheaper_avoiding(p, q, obstacle, best, c);
    }
    best
}

// The four points so far off a box's corners.
#[tactic(auto, unfolding(crate::specs::Corner::corners_of))]
fn corners_of(obstacle: Box, margin: f64) -> [Point; 4]
    ensures { result ≡ corners_of obstacle margin }
{
    let left = obstacle.left - margin;
    let top = obstacle.top - margin;
    let right = obstacle.right + margin;
    let bottom = obstacle.bottom + margin;
    [
        Point { x: left, y: top },
        Point { x: right, y: top },
        Point {
            x: right,
            y: bottom,
        },
        Point { x: left, y: bottom },
    ]
}

// The point by which the piece p q goes round a box: of the four points half of `clearance` off its
// corners the cheapest by which both new pieces clear the box, else the cheapest of all four
// (docs/RULES.md, 'Corner of a detour').
#[tactic(auto, unfolding(crate::specs::Corner::corner))]
pub(crate) fn corner(p: Point, q: Point, obstacle: Box, clearance: f64) -> Point
    ensures { result ≡ corner p q obstacle clearance }
{
    let corners = corners_of(obstacle, clearance * 0.5);
    cheapest_avoiding(p, q, obstacle, &corners).unwrap_or_else(|| cheapest(
        p, q, &corners,
    ).unwrap_or(p))
}
