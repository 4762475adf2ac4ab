// The box that a piece enters first, by the cells that it passes.
ghost use Rattle.std.specs.Prelude.{◌≡◌, true, ◌-◌, ◌^◌, ◌≤◌, ◌<◌, min};
ghost use Rattle.boxes.specs.First.{first_hit};
ghost use Rattle.boxes.specs.Stages.Cells.{grid_in, next_at, HasCells};
ghost use Rattle.boxes.specs.Stages.Lent.{boxes_of, occupied_of};
ghost use Rattle.boxes.specs.Stages.Looks.{closer, hit_of, after_chain, after_chains, after_rows};
ghost use Rattle.boxes.specs.Stages.Looks.{after_window, is_done, Sure};
ghost use Rattle.plane.specs.Stages.Window.{plain_piece};

use crate::first_box::{box_in, comes_first, entry_at, scan};
use crate::first_hit::steps::{first_steps, further, margins, step_end, window_of};
use crate::grid::index::BoxIndex;
use crate::grid::{Grid, column, row};
use numbers::float::small::is_finite;
use numbers::order::at;
use plane::geometry::{Box, Point};
use plane::windows::{holds, is_apart};

/// The box entered first so far: the entry of the piece, above 1 for none, and its
/// station. (An Option in its place takes these loops twice the time.)
#[derive(Clone, Copy)]
pub(crate) struct Near {
    pub entry: f64,
    pub station: usize,
}

/// A piece, from p to q, of a line between two stations, whose boxes are passed over.
#[derive(Clone, Copy)]
pub(crate) struct Piece {
    pub p: Point,
    pub q: Point,
    pub from_station: usize,
    pub to_station: usize,
}

// The box entered first after one more, of `station`.
fn closer(station: usize, entry: Option<f64>, nearest: Near) -> Near
    ensures { result ≡ closer station entry nearest }
{
    let Some(t) = entry else {
        return nearest;
    };
    if comes_first(t, station, nearest.entry, nearest.station) {
        Near { entry: t, station }
    } else {
        nearest
    }
}

// The station of the box entered first.
fn hit_of(nearest: Near) -> Option<usize>
    ensures { result ≡ hit_of nearest }
{
    (nearest.entry <= 1.0).then_some(nearest.station)
}

// One more than the station behind a station in its chain, 0 for none; never above the station.
#[tactic(auto, unfolding(crate::specs::Stages::Cells::next_at))]
fn behind(index: &BoxIndex<'_>, station: usize) -> usize
    requires { station < 2 ^ 32 }
    ensures { result ≡ min (next_at index.now.placed.k index.now.cells.now station) station }
{
    station.min(at(index.cells, 4 * index.placed.k + station) as usize)
}

// The box entered first after those of a chain that reach the window.
fn look_chain(index: &BoxIndex<'_>, piece: &Piece, window: Box, chain: usize, first: Near) -> Near
    requires { chain ≤ 2 ^ 40 }
    ensures { result
        ≡ after_chain (boxes_of index.now.placed)
        piece.now.p piece.now.q piece.now.from_station piece.now.to_station
        index.now.placed.k index.now.cells.now window chain first }
{
    let mut n = first;
    let mut h = at(index.cells, 7 + chain) as usize;
    // each station of the chain names the next
    while 0 < h {
        let s = h - 1;
        if is_apart(window, box_in(index.placed.k, index.placed.frames, s)) {
            h = behind(index, s);
        } else {
            n = closer(
                s,
                entry_at(
                    index.placed.k,
                    index.placed.frames,
                    piece.p,
                    piece.q,
                    piece.from_station,
                    piece.to_station,
                    s,
                ),
                n,
            );
            h = behind(index, s);
        }
    }
    n
}

// The same of the chains from `chain` to before `end`.
fn look_chains(
    index: &BoxIndex<'_>,
    piece: &Piece,
    window: Box,
    chain: usize,
    end: usize,
    first: Near,
) -> Near
    requires { end ≤ 2 ^ 40 }
    ensures { result
        ≡ after_chains (boxes_of index.now.placed)
        piece.now.p piece.now.q piece.now.from_station piece.now.to_station
        index.now.placed.k index.now.cells.now window chain (end - chain) first }
{
    let mut n = first;
    for c in chain..end {
        n = look_chain(index, piece, window, c, n);
    }
    n
}

// The same of the rows from `row` to before `end`, each from its first column to its last.
fn look_rows(
    grid: Grid,
    index: &BoxIndex<'_>,
    piece: &Piece,
    window: Box,
    first_column: usize,
    last_column: usize,
    row: usize,
    end: usize,
    first: Near,
) -> Near
    requires few_columns { grid.columns ≤ 16384 }
    requires few_rows { end ≤ 16384 }
    requires first_column_bound { first_column ≤ 16384 }
    requires last_column_bound { last_column ≤ 16384 }
    ensures { result
        ≡ after_rows (boxes_of index.now.placed)
        piece.now.p piece.now.q piece.now.from_station piece.now.to_station
        index.now.placed.k index.now.cells.now window
        grid first_column last_column row (end - row) first }
{
    let mut n = first;
    for r in row..end {
        let c = 1 + r * grid.columns;
        n = look_chains(
            index,
            piece,
            window,
            c + first_column,
            c + last_column + 1,
            n,
        );
    }
    n
}

// The same of the window's cells, and of the boxes that span more.
fn look_window(grid: Grid, index: &BoxIndex<'_>, piece: &Piece, window: Box, first: Near) -> Near
    requires has_cells { HasCells grid }
    ensures { result
        ≡ after_window (boxes_of index.now.placed)
        piece.now.p piece.now.q piece.now.from_station piece.now.to_station
        index.now.placed.k index.now.cells.now window grid first }
{
    let i = column(grid, window.left).saturating_sub(1);
    let j = column(grid, window.right);
    let r = row(grid, window.top).saturating_sub(1);
    let end = row(grid, window.bottom) + 1;
    let n = look_chain(index, piece, window, 0, first);
    look_rows(grid, index, piece, window, i, j, r, end, n)
}

// Whether the box entered first so far is entered by a fraction, or the piece ends there.
#[tactic(auto, unfolding(crate::specs::Stages::Looks::is_done))]
fn is_done(nearest: Near, entry: f64) -> bool
    ensures { result ≡ is_done nearest entry }
{
    1.0 <= entry || nearest.entry <= entry
}

// The box entered first, looked for along the piece; none where it may be unsure, by rounding.
fn march(grid: Grid, index: &BoxIndex<'_>, piece: &Piece) -> Option<Near>
    requires has_cells { HasCells grid }
    requires held_grid { grid ≡ grid_in (boxes_of index.now.placed) index.now.cells.now }
    requires plain { plain_piece piece.now.p piece.now.q ≡ true }
    ensures { Sure (boxes_of index.now.placed)
        piece.now.p piece.now.q piece.now.from_station piece.now.to_station
        index.now.cells.now result }
{
    let m = margins(piece.p, piece.q);
    let mut s = first_steps(grid, piece.p, piece.q);
    let mut n = Near {
        entry: 2.0,
        station: 0,
    };
    let mut t = 0.0;
    for _ in 0..8192usize {
        let u = step_end(t, s);
        let w = window_of(piece.p, piece.q, m, t, u);
        if holds(piece.p, piece.q, t, u, w) {
            n = look_window(grid, index, piece, w, n);
            if is_done(n, u) {
                return Some(n);
            }
            s = further(s);
            t = u;
        } else {
            return None;
        }
    }
    None
}

// Whether a piece's start and its differences are finite.
#[tactic(auto, unfolding(plane::specs::Stages::Window::plain_piece))]
fn is_plain(p: Point, q: Point) -> bool
    ensures { result ≡ plain_piece p q }
{
    is_finite(p.x) && is_finite(p.y) && is_finite(q.x - p.x) && is_finite(q.y - p.y)
}

/// The station whose box the piece p q enters first, of the occupied ones without `from_station`
/// and `to_station`, between which the line runs; none where it enters none
/// (docs/RULES.md, 'The box entered first').
pub fn first_hit(
    index: &BoxIndex<'_>,
    p: Point,
    q: Point,
    from_station: usize,
    to_station: usize,
) -> Option<usize>
    ensures { result
        ≡ first_hit (boxes_of index.now.placed) (occupied_of index.now.placed)
        p q from_station to_station }
{
    if 0 < at(index.cells, 0) {
        if is_plain(p, q) {
            if let Some(n) = march(
                index.grid,
                index,
                &Piece {
                    p,
                    q,
                    from_station,
                    to_station,
                },
            ) {
                return hit_of(n);
            }
        }
    }
    scan(&index.placed, p, q, from_station, to_station).map(|(_, s)| s)
}
