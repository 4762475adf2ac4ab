// Boxes entered by cell in a lent list.
ghost use Rattle.std.specs.Prelude.{◌≡◌, ◌+◌, ◌*◌, ◌≤◌, ◌<◌, length, get_or};
ghost use Rattle.boxes.specs.Length.{index_length};
ghost use Rattle.boxes.specs.Stages.Enter.{Empty, SameGrid, StationsTo};
ghost use Rattle.boxes.specs.Stages.Cells.{Chained, Indexed, linked};
ghost use Rattle.boxes.specs.Stages.Lent.{boxes_of, occupied_of, FiniteBoxes};

use crate::box_cells::extent::{Extent, GridSides, counts_for, extent_of};
use crate::box_cells::finite::all_finite;
use crate::first_box::box_in;
use crate::grid::{Grid, chain_of, grid_of};
use network::lists::FewPlaced;
use numbers::float::small::is_finite;

/// The needed length of a list that the boxes of so many stations are entered in.
#[tactic(auto, unfolding(crate::specs::Length::index_length))]
pub fn index_length(station_count: usize) -> usize
    requires few_stations { station_count ≤ 4096 }
    ensures { result ≡ index_length station_count }
{
    5 * station_count
}

// Puts a station at the front of a chain.
#[tactic(auto, using(crate::proofs::box_cells::Chaining::linked_is))]
fn link(station_count: usize, chain: usize, station: usize, index: &mut [u32])
    requires station_in_bounds { station < station_count }
    requires few_stations { station_count ≤ 4096 }
    requires chain_in_bounds { 7 + chain < 4 * station_count }
    requires has_room { 5 * station_count ≤ length index.old }
    ensures { index.new ≡ linked station_count chain station index.old }
{
    index[4 * station_count + station] = index[7 + chain];
    index[7 + chain] = station as u32 + 1;
}

// Empties the chains of a grid.
fn clear_chains(grid: Grid, index: &mut [u32])
    requires has_room { 8 + grid.columns * grid.rows ≤ length index.old }
    requires few_cells { grid.columns * grid.rows ≤ 16384 }
    ensures empty { Empty (1 + grid.columns * grid.rows) index.new }
    ensures same_grid { SameGrid index.old index.new }
{
    index[7..8 + grid.columns * grid.rows].fill(0);
}

// Links the occupied stations into empty chains, each by its box; a chain begins with its last
// station.
fn link_occupied(grid: Grid, few: &FewPlaced<'_>, index: &mut [u32])
    requires has_room { 5 * few.now.placed.k ≤ length index.old }
    requires some_columns { 1 ≤ grid.columns }
    requires some_rows { 1 ≤ grid.rows }
    requires cells_in_bounds { 8 + grid.columns * grid.rows ≤ 4 * few.now.placed.k }
    requires empty { Empty (1 + grid.columns * grid.rows) index.old }
    ensures chained { Chained grid (boxes_of few.now.placed) (occupied_of few.now.placed)
        few.now.placed.k index.new }
    ensures same_grid { SameGrid index.old index.new }
{
    let placed = &few.placed;
    for s in 0..placed.k {
        if placed.is_occupied(s) {
            let b = box_in(placed.k, placed.frames, s);
            link(placed.k, chain_of(grid, b), s, index);
        }
    }
}

// Writes the grid as the list's numbers 1 to 6: the stations that give its extent, and how many
// columns and rows it has.
fn put_grid(extent: Extent, counts: GridSides, index: &mut [u32])
    requires has_room { 7 ≤ length index.old }
    requires few_stations { StationsTo 4096 extent }
    requires few_columns { counts.columns ≤ 16384 }
    requires few_rows { counts.rows ≤ 16384 }
    ensures columns_written { get_or index.new 5 0 ≡ counts.columns }
    ensures rows_written { get_or index.new 6 0 ≡ counts.rows }
{
    index[1] = extent.left as u32;
    index[2] = extent.right as u32;
    index[3] = extent.top as u32;
    index[4] = extent.bottom as u32;
    index[5] = counts.columns as u32;
    index[6] = counts.rows as u32;
}

// Enters the occupied stations' boxes in the cells of the list's grid, if its corner is finite;
// else none.
fn fill(few: &FewPlaced<'_>, index: &mut [u32])
    requires has_room { 5 * few.now.placed.k ≤ length index.old }
    requires some_columns { 1 ≤ get_or index.old 5 0 }
    requires some_rows { 1 ≤ get_or index.old 6 0 }
    requires cells_in_bounds { 8 + get_or index.old 5 0 * get_or index.old 6 0
        ≤ 4 * few.now.placed.k }
    requires finite_boxes { FiniteBoxes few.now.placed }
    ensures { Indexed (boxes_of few.now.placed) (occupied_of few.now.placed) index.new }
{
    let g = grid_of(few.placed.k, few.placed.frames, index);
    if !is_finite(g.left) {
        index[0] = 0;
        return;
    }
    if !is_finite(g.top) {
        index[0] = 0;
        return;
    }
    clear_chains(g, index);
    link_occupied(g, few, index);
    index[0] = 1;
}

// Enters the occupied stations' boxes, if there is room for cells; else none.
fn grow(few: &FewPlaced<'_>, index: &mut [u32])
    requires some_room { 0 < length index.old }
    requires has_room { 5 * few.now.placed.k ≤ length index.old }
    requires finite_boxes { FiniteBoxes few.now.placed }
    ensures { Indexed (boxes_of few.now.placed) (occupied_of few.now.placed) index.new }
{
    let placed = &few.placed;
    let e = extent_of(few);
    let most = 2 * e.count;
    if most == 0 {
        index[0] = 0;
        return;
    }
    if 4 * placed.k < 8 + most {
        index[0] = 0;
        return;
    }
    let c = counts_for(placed, e, most);
    put_grid(e, c, index);
    fill(few, index);
}

/// Enters the occupied stations' boxes by cell in `index` where `wanted`, if the list has room and
/// all sides are finite; else the list says that none is entered, as an empty one does. What
/// `first_hit` answers is the same either way.
pub fn index_boxes(wanted: bool, few: &FewPlaced<'_>, index: &mut [u32])
    ensures { Indexed (boxes_of few.now.placed) (occupied_of few.now.placed) index.new }
{
    if index.len() == 0 {
        return;
    }
    if wanted {
        if 5 * few.placed.k <= index.len() {
            if all_finite(&few.placed) {
                grow(few, index);
                return;
            }
        }
    }
    index[0] = 0;
}
