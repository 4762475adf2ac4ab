// The steps by which a look goes along a piece, and their windows. Only speed depends on them:
// whether a window holds is tested.
use crate::grid::Grid;
use numbers::float::small::{abs, max, min};
use plane::geometry::{Box, Point};

/// Steps along a piece: how far the next one goes, and how far one may go that stays within a
/// column or row, both as parts of the piece.
#[derive(Clone, Copy)]
pub(crate) struct Steps {
    pub next: f64,
    pub most: f64,
}

/// The first step passes two cells at most.
pub(crate) fn first_steps(grid: Grid, p: Point, q: Point) -> Steps {
    let x = grid.width / abs(q.x - p.x);
    let y = grid.height / abs(q.y - p.y);
    Steps {
        next: 2.0 * min(x, y),
        most: max(x, y),
    }
}

/// Each further step goes twice as far, as long as it stays within a column or row.
pub(crate) fn further(steps: Steps) -> Steps {
    if 2.0 * steps.next < steps.most {
        return Steps {
            next: 2.0 * steps.next,
            most: steps.most,
        };
    }
    steps
}

/// The place where the step from a place on ends.
pub(crate) fn step_end(entry: f64, steps: Steps) -> f64 {
    let u = entry + steps.next;
    if u < 0.99 { u } else { 1.0 }
}

/// How far a window reaches past a piece in each direction, so that rounding doesn't matter; never
/// 0, at which no window holds.
pub(crate) fn margins(p: Point, q: Point) -> Point {
    Point {
        x: (abs(p.x) + abs(q.x)) * 2.842170943040401e-14 + 1e-300,
        y: (abs(p.y) + abs(q.y)) * 2.842170943040401e-14 + 1e-300,
    }
}

/// A window of the part of the piece p q from `start` to `end`.
pub(crate) fn window_of(p: Point, q: Point, margin: Point, start: f64, end: f64) -> Box {
    let dx = q.x - p.x;
    let dy = q.y - p.y;
    let x0 = p.x + dx * start;
    let x1 = p.x + dx * end;
    let y0 = p.y + dy * start;
    let y1 = p.y + dy * end;
    Box {
        left: min(x0, x1) - margin.x,
        top: min(y0, y1) - margin.y,
        right: max(x0, x1) + margin.x,
        bottom: max(y0, y1) + margin.y,
    }
}
