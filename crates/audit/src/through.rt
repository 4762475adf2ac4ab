// The audit's lines through boxes (docs/RULES.md, 'Lines through boxes').
ghost use Rattle.std.specs.Prelude.{◌≡◌, ◌+◌, ◌*◌, ◌<◌, length};
ghost use Rattle.audit.specs.Through.{station_at, crosses, runs_through, through};
ghost use Rattle.audit.specs.Stages.Views.{placed_boxes, placed_stations};

use crate::fit::drawn::Drawn;
use crate::fit::fit::{branch_of, is_line};
use crate::stretches::{piece_end, piece_start};
use boxes::box_cells::build::index_boxes;
use boxes::first_hit::search::first_hit;
use boxes::grid::grid_of;
use boxes::grid::index::BoxIndex;
use network::lists::FewPlaced;
use network::words::{end_of, station_of};

// The station of a bus, and no station's number for an unknown one: an accepted audit has no more
// stations than buses.
#[tactic(auto, unfolding(crate::specs::Through::station_at))]
fn station_at(sub: &[u32], bus: Option<usize>) -> usize
    ensures { result ≡ station_at sub.now bus }
{
    match bus {
        Some(i) => station_of(sub, i),
        None => sub.len(),
    }
}

// Whether a piece, as one of a branch, hits a box of the index other than those of the branch's two
// stations.
#[tactic(auto, unfolding(crate::specs::Through::crosses, crate::specs::Fit::end_at))]
fn crosses(index: &BoxIndex<'_>, drawing: &Drawn<'_>, branch: usize, piece: usize) -> bool
    requires { 4 * piece + 3 < length drawing.now.pieces.now }
    ensures { result ≡ crosses (placed_boxes index.now.placed) (placed_stations index.now.placed)
        drawing.now.sub.now drawing.now.from.now drawing.now.to.now drawing.now.pieces.now
        branch piece }
{
    let p = piece_start(drawing.pieces, piece);
    let q = piece_end(drawing.pieces, piece);
    let a = station_at(drawing.sub, end_of(drawing.sub.len(), drawing.from, branch));
    let b = station_at(drawing.sub, end_of(drawing.sub.len(), drawing.to, branch));
    first_hit(index, p, q, a, b).is_some()
}

// Whether a piece is a line's and does.
#[tactic(auto, unfolding(crate::specs::Through::runs_through))]
fn runs_through(index: &BoxIndex<'_>, drawing: &Drawn<'_>, piece: usize) -> bool
    requires { 4 * piece + 3 < length drawing.now.pieces.now }
    ensures { result ≡ runs_through
        (placed_boxes index.now.placed) (placed_stations index.now.placed)
        drawing.now.sub.now drawing.now.from.now drawing.now.to.now drawing.now.roles.now
        drawing.now.pieces.now drawing.now.branches.now piece }
{
    let e = branch_of(drawing.branches, piece);
    is_line(drawing.roles, e) && crosses(index, drawing, e, piece)
}

// How many pieces of lines hit a box of the index that isn't one of their own stations'.
fn count_hits(index: &BoxIndex<'_>, drawing: &Drawn<'_>) -> usize
    requires { length drawing.now.pieces.now ≡ 4 * length drawing.now.branches.now }
    ensures { result ≡ through (placed_boxes index.now.placed) (placed_stations index.now.placed)
        drawing.now.sub.now drawing.now.from.now drawing.now.to.now drawing.now.roles.now
        drawing.now.pieces.now drawing.now.branches.now }
{
    (0..drawing.branches.len())
        .filter(|&j| runs_through(index, drawing, j))
        .count()
}

// The same of the stations' boxes, which `index` is to enter by cell.
pub(crate) fn count_through(few: &FewPlaced<'_>, index: &mut [u32], drawing: &Drawn<'_>) -> usize
    requires { length drawing.now.pieces.now ≡ 4 * length drawing.now.branches.now }
    ensures { result ≡ through (placed_boxes few.now.placed) (placed_stations few.now.placed)
        drawing.now.sub.now drawing.now.from.now drawing.now.to.now drawing.now.roles.now
        drawing.now.pieces.now drawing.now.branches.now }
{
    index_boxes(true, few, index);
    let placed = few.placed;
    count_hits(
        &BoxIndex {
            placed,
            cells: index,
            grid: grid_of(placed.k, placed.frames, index),
        },
        drawing,
    )
}
