//! The clip test with its entry: where a piece enters a box.
ghost use Rattle.std.specs.Prelude.{◌≡◌, length};
ghost use Rattle.plane.specs.Plane.{box_at};
ghost use Rattle.plane.specs.Entry.{enters};

use crate::geometry::{Point, box_at, clipped};

/// Where the piece from p to q enters the box whose four numbers, a part of a box list, are
/// `sides`, from 0 at p to 1 at q, or none if it misses the box (docs/RULES.md, 'Where a piece
/// enters a box').
#[tactic(auto, unfolding(crate::specs::Entry::enters))]
pub fn enters(p: Point, q: Point, sides: &[f64]) -> Option<f64>
    requires { length sides.now ≡ 4 }
    ensures { result ≡ enters p q (box_at sides.now 0) }
{
    clipped(p, q, box_at(sides, 0)).map(|(t0, _)| t0)
}
