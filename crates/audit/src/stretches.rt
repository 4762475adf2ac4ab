// The audit's relative lengths: the drawn length of each stretch of a line by the distance of its
// ends (docs/RULES.md, 'Relative lengths').
ghost use Rattle.std.specs.Prelude.{◌≡◌, ◌+◌, ◌*◌, ◌≤◌, ◌<◌, length};
ghost use Rattle.std.proofs.lemmas.List.Edits.{sets};
ghost use Rattle.numbers.specs.Over.{over};
ghost use Rattle.audit.specs.Relative.{piece_start, piece_end, longer, begun, ratio, ended};
ghost use Rattle.audit.specs.Relative.{relatives};

use crate::figures::distance;
use crate::fit::fit::{branch_of, is_line};
use plane::geometry::Point;

// An unbroken stretch of pieces of one branch: where it starts, where it ends so far, and its
// length so far.
#[derive(Clone, Copy)]
pub(crate) struct Stretch {
    pub branch: usize,
    pub start: Point,
    pub end: Point,
    pub drawn: f64,
}

// Where a piece starts.
#[tactic(auto, unfolding(crate::specs::Relative::piece_start))]
pub(crate) fn piece_start(pieces: &[f64], piece: usize) -> Point
    requires { 4 * piece + 3 < length pieces.now }
    ensures { result ≡ piece_start pieces.now piece }
{
    Point {
        x: pieces[4 * piece],
        y: pieces[4 * piece + 1],
    }
}

// Where a piece ends.
#[tactic(auto, unfolding(crate::specs::Relative::piece_end))]
pub(crate) fn piece_end(pieces: &[f64], piece: usize) -> Point
    requires { 4 * piece + 3 < length pieces.now }
    ensures { result ≡ piece_end pieces.now piece }
{
    Point {
        x: pieces[4 * piece + 2],
        y: pieces[4 * piece + 3],
    }
}

// A stretch with one piece more.
#[tactic(auto, unfolding(crate::specs::Relative::longer))]
fn longer(pieces: &[f64], stretch: Stretch, piece: usize) -> Stretch
    requires { 4 * piece + 3 < length pieces.now }
    ensures { result ≡ longer pieces.now stretch piece }
{
    let p = piece_start(pieces, piece);
    let q = piece_end(pieces, piece);
    let start = stretch.start;
    Stretch {
        branch: stretch.branch,
        start,
        end: q,
        drawn: stretch.drawn + distance(p, q),
    }
}

// The stretch of a branch that a piece begins.
#[tactic(auto, unfolding(crate::specs::Relative::begun))]
fn begun(pieces: &[f64], branch: usize, piece: usize) -> Stretch
    requires { 4 * piece + 3 < length pieces.now }
    ensures { result ≡ begun pieces.now branch piece }
{
    let p = piece_start(pieces, piece);
    longer(
        pieces,
        Stretch {
            branch,
            start: p,
            end: p,
            drawn: 0.0,
        },
        piece,
    )
}

// Its length by the distance of its ends, 1 where they are one point.
#[tactic(auto, unfolding(crate::specs::Relative::ratio))]
fn ratio(stretch: Stretch) -> f64
    ensures { result ≡ ratio stretch }
{
    let p = stretch.start;
    let q = stretch.end;
    let straight = distance(p, q);
    if 0.0 < straight {
        stretch.drawn / straight
    } else {
        1.0
    }
}

// Writes a line's relative length behind the first `count`, and gives how many there are then.
#[tactic(auto, unfolding(crate::specs::Relative::ended))]
fn put_ended(roles: &[u8], stretch: Stretch, count: usize, relative: &mut [f64]) -> usize
    requires { count < length relative.old }
    ensures relative_after { relative.new ≡ sets relative.old count (ended roles.now stretch) }
    ensures counted { result ≡ count + length (ended roles.now stretch) }
{
    if is_line(roles, stretch.branch) {
        relative[count] = ratio(stretch);
        count + 1
    } else {
        count
    }
}

// The relative lengths in list order, at the front of `relative`, and how many they are.
#[tactic(auto, unfolding(numbers::specs::Over::over, crate::specs::Relative::relatives))]
pub(crate) fn relative_lengths(
    roles: &[u8],
    pieces: &[f64],
    branches: &[u32],
    relative: &mut [f64],
) -> usize
    requires four_each { length pieces.now ≡ 4 * length branches.now }
    requires relative_room { length branches.now ≤ length relative.old }
    ensures relative_after { relative.new ≡ over (relatives roles.now pieces.now branches.now)
        relative.old }
    ensures counted { result ≡ length (relatives roles.now pieces.now branches.now) }
{
    if branches.is_empty() {
        return 0;
    }
    let mut t = begun(pieces, branch_of(branches, 0), 0);
    let mut c = 0;
    for j in 1..branches.len() {
        let f = branch_of(branches, j);
        if f == t.branch {
            t = longer(pieces, t, j);
        } else {
            c = put_ended(roles, t, c, relative);
            t = begun(pieces, f, j);
        }
    }
    put_ended(roles, t, c, relative)
}
