//! Points, boxes and pieces: the clip test (docs/RULES.md, 'Where a piece enters a box'). A piece
//! is handed on as its two ends, p and q.
ghost use Rattle.std.specs.Prelude.{◌≡◌, ◌+◌, ◌*◌, ◌<◌, length, get_or};
ghost use Rattle.std.specs.Float.{nan};
ghost use Rattle.plane.specs.Plane.{point_at, box_at, shrunk};
ghost use Rattle.plane.specs.Clip.{part, clip_by, clipped, hits};

use numbers::float::small::{max, min};

/// Where a piece enters a box.
pub mod entry;

/// A point of the drawing.
#[derive(Clone, Copy)]
pub struct Point {
    /// How far right.
    pub x: f64,
    /// How far down.
    pub y: f64,
}

/// A box: the x of its left and right sides, the y of its top and bottom.
#[derive(Clone, Copy)]
pub struct Box {
    pub left: f64,
    pub top: f64,
    pub right: f64,
    pub bottom: f64,
}

/// The box at an index of a list that holds four numbers for each: left, top, right, bottom.
pub fn box_at(frames: &[f64], index: usize) -> Box
    requires { 4 * index + 3 < length frames.now }
    ensures { result ≡ box_at frames.now index }
{
    Box {
        left: frames[4 * index],
        top: frames[4 * index + 1],
        right: frames[4 * index + 2],
        bottom: frames[4 * index + 3],
    }
}

/// A box with its sides moved in by 1e-9 (docs/RULES.md, 'Overlaps').
pub fn shrunk(rectangle: Box) -> Box
    ensures { result ≡ shrunk rectangle }
{
    Box {
        left: rectangle.left + 1e-9,
        top: rectangle.top + 1e-9,
        right: rectangle.right - 1e-9,
        bottom: rectangle.bottom - 1e-9,
    }
}

// The part of a piece between two places on it, unless it is turned round.
#[tactic(auto, unfolding(crate::specs::Clip::part))]
fn part(from: f64, to: f64) -> Option<(f64, f64)>
    ensures { result ≡ part from to }
{
    if to < from { None } else { Some((from, to)) }
}

// What one side of a box leaves of the part of a piece that the others kept: the speed at which the
// piece nears the side, and the distance from which it starts.
fn clip_by(speed: f64, distance: f64, kept: Option<(f64, f64)>) -> Option<(f64, f64)>
    ensures { result ≡ clip_by speed distance kept }
{
    let (t0, t1) = kept?;
    if speed == 0.0 {
        if distance < 0.0 {
            return None;
        }
        return kept;
    }
    if speed < 0.0 {
        return part(max(t0, distance / speed), t1);
    }
    part(t0, min(t1, distance / speed))
}

// What a box leaves of the piece from p to q: the part between two places on it, or nothing.
#[tactic(auto, unfolding(crate::specs::Clip::clipped))]
fn clipped(p: Point, q: Point, rectangle: Box) -> Option<(f64, f64)>
    ensures { result ≡ clipped p q rectangle }
{
    let dx = q.x - p.x;
    let dy = q.y - p.y;
    let c1 = clip_by(-dx, p.x - rectangle.left, Some((0.0, 1.0)));
    let c2 = clip_by(dx, rectangle.right - p.x, c1);
    let c3 = clip_by(-dy, p.y - rectangle.top, c2);
    clip_by(dy, rectangle.bottom - p.y, c3)
}

/// Whether the piece from p to q meets a box; touching it counts.
#[tactic(auto, unfolding(crate::specs::Clip::hits))]
pub fn piece_hits(p: Point, q: Point, rectangle: Box) -> bool
    ensures { result ≡ hits p q rectangle }
{
    clipped(p, q, rectangle).is_some()
}

/// Whether the piece from p to q meets the box of these four sides: left, top, right, bottom.
pub fn segment_hits_box(p: Point, q: Point, sides: &[f64]) -> bool
    requires { length sides.now ≡ 4 }
    ensures { result ≡ hits p q (box_at sides.now 0) }
{
    piece_hits(
        p,
        q,
        Box {
            left: sides[0],
            top: sides[1],
            right: sides[2],
            bottom: sides[3],
        },
    )
}

/// The number at an index of a list, a NaN past its end.
pub fn number_at(list: &[f64], index: usize) -> f64
    ensures { result ≡ get_or list.now index nan }
{
    list.get(index).copied().unwrap_or(f64::NAN)
}

/// The point at an index of a list of coordinates, two numbers each; NaNs past its end.
pub fn point_at(list: &[f64], index: usize) -> Point
    requires { index < 0x1_0000_0000 }
    ensures { result ≡ point_at list.now index }
{
    Point {
        x: number_at(list, 2 * index),
        y: number_at(list, 2 * index + 1),
    }
}
