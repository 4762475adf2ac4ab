// Calls of functions over lists: channels and their spacing, neighbours, the median.
use crate::words::{all_same, floats, same};
use channels::channel::Channel;
use channels::channel::ends::channel;
use plane::geometry::Point;
use plane::neighbours::points::Points;
use text::stored::{float_at, length_at, word_at};

// The most elements of a list.
const MOST: usize = 12;

pub(crate) fn channel_agrees(words: &[u64]) -> bool {
    let [ux, uy, vx, vy]: [f64; 4] = floats(words, 0);
    let bu: [f64; 4] = floats(words, 4);
    let bw: [f64; 4] = floats(words, 8);
    let c = channel(
        Point { x: ux, y: uy },
        Point { x: vx, y: vy },
        &bu,
        &bw,
        float_at(words, 12),
        float_at(words, 13),
        float_at(words, 14),
    );
    all_same(&[c.lo, c.hi, c.least_step], words, 15)
}

pub(crate) fn space_agrees(words: &[u64]) -> bool {
    let [lo, hi, least_step]: [f64; 3] = floats(words, 0);
    let n = length_at(words, 3, MOST);
    let mut wish: [f64; MOST] = floats(words, 4);
    let mut keys = [0; MOST];
    let mut order = [0; MOST];
    let mut spare = [0; MOST];
    channels::spacing::space_sorted(
        Channel { lo, hi, least_step },
        n,
        &mut wish,
        &mut keys,
        &mut order,
        &mut spare,
    );
    // each place has the pattern that stands for its wish's number
    wish[..n].iter().zip(&order[..n]).all(|(x, j)| same(
        *x,
        word_at(words, (4 + n).wrapping_add(*j as usize)),
    ))
}

pub(crate) fn nearest_agrees(words: &[u64]) -> bool {
    let n = length_at(words, 0, MOST);
    let points: [f64; 2 * MOST] = floats(words, 1);
    let mut out = [0.0; MOST];
    let mut keys = [0; MOST];
    let mut order = [0; MOST];
    let mut spare = [0; MOST];
    let points = Points { n, xy: &points };
    plane::neighbours::nearest_neighbour_distances(
        &points, &mut out, &mut keys, &mut order, &mut spare,
    );
    all_same(&out[..n], words, 1 + 2 * n)
}

pub(crate) fn within_agrees(words: &[u64]) -> bool {
    let n = length_at(words, 0, MOST);
    let points: [f64; 2 * MOST] = floats(words, 2);
    let mut counts = [0; MOST];
    let mut keys = [0; MOST];
    let mut order = [0; MOST];
    let points = Points { n, xy: &points };
    plane::neighbours::neighbour_counts(
        &points,
        float_at(words, 1),
        &mut counts,
        &mut keys,
        &mut order,
    );
    counts[..n].iter().enumerate().all(|(i, count)| u64::from(*count)
        == word_at(words, 2 + 2 * n + i))
}

pub(crate) fn median_agrees(words: &[u64]) -> bool {
    let n = length_at(words, 0, MOST);
    let values: [f64; MOST] = floats(words, 1);
    let mut keys = [0; MOST];
    let mut order = [0; MOST];
    let mut spare = [0; MOST];
    match numbers::order::median(&values[..n], &mut keys, &mut order, &mut spare) {
        Some(x) => word_at(words, 1 + n) == 1 && same(x, word_at(words, 2 + n)),
        None => word_at(words, 1 + n) == 0,
    }
}
