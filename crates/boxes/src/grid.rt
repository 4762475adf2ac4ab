// The cells of boxes, and the list that holds them.

/// The boxes of stations with the list that they are entered in.
pub mod index;

ghost use Rattle.std.specs.Prelude.{◌≡◌, ◌*◌, ◌≤◌, ◌<◌, length};
ghost use Rattle.network.specs.Views.{boxes_in};
ghost use Rattle.boxes.specs.Stages.Cells.{cell_at, column_of, row_of, chain_of, grid_in, HasCells};

use crate::first_box::box_in;
use numbers::order::at;
use plane::cells::cell_key;
use plane::geometry::Box;

/// The grid: its left-top corner, the sides of a cell, and how many columns and rows it has.
#[derive(Clone, Copy)]
pub struct Grid {
    pub left: f64,
    pub top: f64,
    pub width: f64,
    pub height: f64,
    pub columns: usize,
    pub rows: usize,
}

/// The column or row, of `most`, of a coordinate, where a cell is `unit` wide and the first begins
/// at `low`.
#[tactic(auto, unfolding(crate::specs::Stages::Cells::cell_at))]
pub(crate) fn cell(unit: f64, low: f64, most: usize, coordinate: f64) -> usize
    requires some_cells { 1 ≤ most }
    requires few_cells { most ≤ 16384 }
    ensures is_cell { result ≡ cell_at unit low most coordinate }
    ensures in_bounds { result < most }
{
    let c = cell_key(unit, coordinate - low).saturating_sub(4503599627370496);
    (c as usize).min(most - 1)
}

/// The column of an x coordinate.
#[tactic(auto, unfolding(crate::specs::Stages::Cells::column_of))]
pub(crate) fn column(grid: Grid, coordinate: f64) -> usize
    requires some_columns { 1 ≤ grid.columns }
    requires few_columns { grid.columns ≤ 16384 }
    ensures is_column { result ≡ column_of grid coordinate }
    ensures in_bounds { result < grid.columns }
{
    cell(grid.width, grid.left, grid.columns, coordinate)
}

/// The row of a y coordinate.
#[tactic(auto, unfolding(crate::specs::Stages::Cells::row_of))]
pub(crate) fn row(grid: Grid, coordinate: f64) -> usize
    requires some_rows { 1 ≤ grid.rows }
    requires few_rows { grid.rows ≤ 16384 }
    ensures is_row { result ≡ row_of grid coordinate }
    ensures in_bounds { result < grid.rows }
{
    cell(grid.height, grid.top, grid.rows, coordinate)
}

/// The chain of a box: 0 where it spans more than two columns or rows, else one more than the
/// number of its left-top corner's cell.
#[tactic(auto, unfolding(crate::specs::Stages::Cells::chain_of))]
pub(crate) fn chain_of(grid: Grid, station_box: Box) -> usize
    requires has_cells { HasCells grid }
    ensures is_chain { result ≡ chain_of grid station_box }
    ensures in_bounds { result ≤ grid.columns * grid.rows }
{
    let c = column(grid, station_box.left);
    let r = row(grid, station_box.top);
    if c + 1 < column(grid, station_box.right) || r + 1 < row(grid, station_box.bottom) {
        return 0;
    }
    1 + r * grid.columns + c
}

/// The grid that the list of entered boxes holds in its numbers 1 to 6.
#[tactic(auto, unfolding(crate::specs::Stages::Cells::grid_in))]
pub fn grid_of(station_count: usize, frames: &[f64], index: &[u32]) -> Grid
    requires { 4 * station_count ≤ length frames.now }
    ensures { result ≡ grid_in (boxes_in station_count frames.now) index.now }
{
    let l = box_in(station_count, frames, at(index, 1) as usize);
    let r = box_in(station_count, frames, at(index, 2) as usize);
    let t = box_in(station_count, frames, at(index, 3) as usize);
    let b = box_in(station_count, frames, at(index, 4) as usize);
    let columns = at(index, 5) as usize;
    let rows = at(index, 6) as usize;
    Grid {
        left: l.left,
        top: t.top,
        width: (r.left - l.left) / (columns as f64),
        height: (b.top - t.top) / (rows as f64),
        columns,
        rows,
    }
}
