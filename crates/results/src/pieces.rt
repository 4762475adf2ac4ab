// Pieces of one run: counted, and written where they are to be written.
ghost use Rattle.std.specs.Prelude.{◌≡◌, [], ◌∷◌, ◌+◌, ◌*◌, ◌<◌, ◌≤◌, ◌^◌, length};
ghost use Rattle.network.specs.Views.{points_in};
ghost use Rattle.runs.specs.Run.{apart, pieces};
ghost use Rattle.results.specs.Stages.Pieces.{piece, Counted, Put};
ghost use Rattle.results.specs.Stages.Passes.{RoomFor, Passed};

use numbers::float::small::abs;
use plane::geometry::{Point, point_at};

// Whether two points differ.
#[tactic(auto, unfolding(runs::specs::Run::apart))]
fn apart(p: Point, q: Point) -> bool
    ensures { result ≡ apart p q }
{
    0.0 < abs(p.x - q.x) + abs(p.y - q.y)
}

// How many pieces run through the first `count` points of a path.
fn count_pieces(path: &[f64], count: usize) -> usize
    requires few_points { count < 2 ^ 32 }
    ensures { Counted result (points_in count path.now) }
{
    let mut n = 0;
    for j in 0..count.saturating_sub(1) {
        if apart(point_at(path, j), point_at(path, j + 1)) {
            n += 1;
        }
    }
    n
}

// Writes a branch's piece, from p to q, as piece number `number`.
fn put_piece(
    branch: u32,
    number: usize,
    p: Point,
    q: Point,
    numbers: &mut [f64],
    branches: &mut [u32],
)
    requires numbers_fit { 4 * (number + 1) ≤ length numbers.old }
    requires branches_fit { number + 1 ≤ length branches.old }
    ensures { Put number (number + 1) (piece branch p q ∷ [])
        numbers.old numbers.new branches.old branches.new }
{
    numbers[4 * number] = p.x;
    numbers[4 * number + 1] = p.y;
    numbers[4 * number + 2] = q.x;
    numbers[4 * number + 3] = q.y;
    branches[number] = branch;
}

// Writes a branch's pieces through the first `count` points of a path, from piece number `at` on,
// and answers the number after the last. Points past the path's end are read as NaN.
fn put_pieces(
    path: &[f64],
    count: usize,
    branch: u32,
    at: usize,
    numbers: &mut [f64],
    branches: &mut [u32],
) -> usize
    requires few_points { count < 2 ^ 32 }
    requires numbers_fit { 4 * (at + length (pieces branch (points_in count path.now)))
        ≤ length numbers.old }
    requires branches_fit { at + length (pieces branch (points_in count path.now))
        ≤ length branches.old }
    ensures { Put at result (pieces branch (points_in count path.now))
        numbers.old numbers.new branches.old branches.new }
{
    let mut k = at;
    for j in 0..count.saturating_sub(1) {
        let p = point_at(path, j);
        let q = point_at(path, j + 1);
        if apart(p, q) {
            put_piece(branch, k, p, q, numbers, branches);
            k += 1;
        }
    }
    k
}

/// Counts a branch's pieces through the first `count` points of a path from number `first` on,
/// writes them if it is to write, and answers the number after the last.
pub(crate) fn count_or_write(
    write: bool,
    first: usize,
    branch: usize,
    path: &[f64],
    count: usize,
    numbers: &mut [f64],
    branches: &mut [u32],
) -> usize
    requires few_points { count < 2 ^ 32 }
    requires branch_bound { branch < 2 ^ 32 }
    requires room_for { RoomFor write first (pieces branch (points_in count path.now))
        numbers.old branches.old }
    ensures { Passed write first result (pieces branch (points_in count path.now))
        numbers.old numbers.new branches.old branches.new }
{
    if write {
        put_pieces(path, count, branch as u32, first, numbers, branches)
    } else {
        first + count_pieces(path, count)
    }
}
