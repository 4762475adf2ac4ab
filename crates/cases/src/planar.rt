// Calls of the clip test, the crossing test, the place on a segment and the overlap of boxes.
use crate::words::{floats, same};
use plane::crossing::Param;
use plane::geometry::{Box, Point};
use text::stored::{float_at, word_at};

// The point of the two words from a place on.
fn point_at(words: &[u64], place: usize) -> Point {
    let [x, y]: [f64; 2] = floats(words, place);
    Point { x, y }
}

// The box of the four words from a place on.
fn box_at(words: &[u64], place: usize) -> Box {
    let [left, top, right, bottom]: [f64; 4] = floats(words, place);
    Box {
        left,
        top,
        right,
        bottom,
    }
}

pub(crate) fn hit_agrees(words: &[u64]) -> bool {
    let b: [f64; 4] = floats(words, 4);
    let hit = plane::geometry::segment_hits_box(point_at(words, 0), point_at(words, 2), &b);
    hit == (word_at(words, 8) == 1)
}

pub(crate) fn cross_agrees(words: &[u64]) -> bool {
    let crosses = plane::crossing::segments_cross(
        point_at(words, 0),
        point_at(words, 2),
        point_at(words, 4),
        point_at(words, 6),
    );
    crosses == (word_at(words, 8) == 1)
}

pub(crate) fn param_agrees(words: &[u64]) -> bool {
    let p = plane::crossing::line_param(
        point_at(words, 0),
        point_at(words, 2),
        point_at(words, 4),
        point_at(words, 6),
    );
    match p {
        Param::At(t) => word_at(words, 8) == 1 && same(t, word_at(words, 9)),
        Param::Parallel => word_at(words, 8) == 0,
    }
}

pub(crate) fn overlap_agrees(words: &[u64]) -> bool {
    plane::proximity::overlaps(box_at(words, 0), box_at(words, 4)) == (word_at(words, 8) == 1)
}
