// The lists of a stored call: filled from its words, and compared with them.
ghost use Rattle.std.specs.Prelude.{◌≤◌};

use crate::words::{Words, same};

// Sets the element of a place, where the list has one.
fn put<T: Copy>(list: &mut [T], place: usize, value: T) {
    if let Some(element) = list.get_mut(place) {
        *element = value;
    }
}

// Buses, four words each: station, voltage, x, y.
pub(crate) fn fill_buses(
    words: &mut Words,
    rows: usize,
    sub: &mut [u32],
    kv: &mut [u64],
    xy: &mut [f64],
)
    requires { rows ≤ 64 }
{
    for i in 0..rows {
        put(sub, i, words.u32());
        put(kv, i, words.word());
        put(xy, 2 * i, words.float());
        put(xy, 2 * i + 1, words.float());
    }
}

// Branches, three words each: its two buses, and its service flag or role.
pub(crate) fn fill_branches(
    words: &mut Words,
    rows: usize,
    from: &mut [i64],
    to: &mut [i64],
    marks: &mut [u8],
) {
    for i in 0..rows {
        put(from, i, words.i64());
        put(to, i, words.i64());
        put(marks, i, words.u8());
    }
}

// Half-edges, two words each: its corner and its twin.
pub(crate) fn fill_mesh(words: &mut Words, rows: usize, corners: &mut [u32], twins: &mut [u32]) {
    for i in 0..rows {
        put(corners, i, words.u32());
        put(twins, i, words.u32());
    }
}

// Floats, a word each.
pub(crate) fn fill_floats(words: &mut Words, rows: usize, list: &mut [f64]) {
    for i in 0..rows {
        put(list, i, words.float());
    }
}

// Pieces, five words each: its two ends and its branch.
pub(crate) fn fill_pieces(words: &mut Words, rows: usize, pieces: &mut [f64], branches: &mut [u32])
    requires { rows ≤ 256 }
{
    for j in 0..rows {
        for k in 0..4 {
            put(pieces, 4 * j + k, words.float());
        }
        put(branches, j, words.u32());
    }
}

// Whether a list has so many floats or more, and the first of them are the next words'.
pub(crate) fn floats_same(list: &[f64], count: usize, words: &mut Words) -> bool {
    count <= list.len() && list[..count].iter().all(|x| same(*x, words.word()))
}

// Whether roles are the next words.
pub(crate) fn roles_same(roles: &[u8], words: &mut Words) -> bool {
    roles.iter().all(|r| u64::from(*r) == words.word())
}

// Whether pieces of so many branches are those of the next words, five each.
pub(crate) fn pieces_same(pieces: &[f64], branches: &[u32], words: &mut Words) -> bool {
    pieces.chunks_exact(4).zip(branches).all(|(piece, b)| floats_same(piece, 4, words)
        && u64::from(*b) == words.word())
}
