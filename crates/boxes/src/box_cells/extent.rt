// The extent of boxes, and how many columns and rows their grid has. Only speed depends on it.
ghost use Rattle.std.specs.Prelude.{◌+◌, ◌*◌, ◌≤◌};
ghost use Rattle.boxes.specs.Stages.Enter.{StationsTo};

use crate::first_box::box_in;
use crate::grid::cell;
use network::lists::{FewPlaced, Placed};
use numbers::float::small::max;

/// The stations whose left-top corners lie farthest to each side, the sums of the boxes' sides, and
/// how many boxes there are.
#[derive(Clone, Copy)]
pub(crate) struct Extent {
    pub left: usize,
    pub right: usize,
    pub top: usize,
    pub bottom: usize,
    pub width: f64,
    pub height: f64,
    pub count: usize,
}

// `station` where there was none before it, or where its number `own` is less than that of the
// station so far, `least`; else the station so far.
fn lesser(before: usize, least: f64, own: f64, so_far: usize, station: usize) -> usize
    requires few_so_far { so_far ≤ 4096 }
    requires few_stations { station ≤ 4096 }
    ensures { result ≤ 4096 }
{
    if before == 0 {
        return station;
    }
    if own < least { station } else { so_far }
}

// The extent with one more station.
fn extended(placed: &Placed<'_>, extent: Extent, station: usize) -> Extent
    requires station_in_bounds { station ≤ 4095 }
    requires few_stations { StationsTo 4096 extent }
    requires few_counted { extent.count ≤ station }
    ensures few_stations { StationsTo 4096 result }
    ensures few_counted { result.count ≤ station + 1 }
{
    let b = box_in(placed.k, placed.frames, station);
    let l = box_in(placed.k, placed.frames, extent.left);
    let r = box_in(placed.k, placed.frames, extent.right);
    let t = box_in(placed.k, placed.frames, extent.top);
    let d = box_in(placed.k, placed.frames, extent.bottom);
    Extent {
        left: lesser(extent.count, l.left, b.left, extent.left, station),
        right: lesser(extent.count, b.left, r.left, extent.right, station),
        top: lesser(extent.count, t.top, b.top, extent.top, station),
        bottom: lesser(extent.count, b.top, d.top, extent.bottom, station),
        width: extent.width + (b.right - b.left),
        height: extent.height + (b.bottom - b.top),
        count: extent.count + 1,
    }
}

/// The extent of the occupied stations' boxes.
pub(crate) fn extent_of(few: &FewPlaced<'_>) -> Extent
    ensures few_stations { StationsTo 4096 result }
    ensures few_counted { result.count ≤ few.now.placed.k }
{
    let placed = &few.placed;
    let mut e = Extent {
        left: 0,
        right: 0,
        top: 0,
        bottom: 0,
        width: 0.0,
        height: 0.0,
        count: 0,
    };
    for s in 0..placed.k {
        if placed.is_occupied(s) {
            e = extended(placed, e, s);
        }
    }
    e
}

/// Numbers of columns and rows.
#[derive(Clone, Copy)]
pub(crate) struct GridSides {
    pub columns: usize,
    pub rows: usize,
}

// As many columns and rows as there are cells for, at most `most`, over an extent of `width` by
// `height`, a column no narrower than `cell_width` and a row no lower than `cell_height`.
fn counts_over(width: f64, height: f64, cell_width: f64, cell_height: f64, most: usize) -> GridSides
    requires some_cells { 1 ≤ most }
    requires few_cells { most ≤ 16384 }
    ensures some_columns { 1 ≤ result.columns }
    ensures some_rows { 1 ≤ result.rows }
    ensures few_cells { result.columns * result.rows ≤ most }
{
    let mut side = max(width, height) / (most as f64);
    for _ in 0..64 {
        let columns = 1 + cell(max(side, cell_width), 0.0, most, width);
        let rows = 1 + cell(max(side, cell_height), 0.0, most, height);
        if columns * rows <= most {
            return GridSides { columns, rows };
        }
        side = side * 1.25;
    }
    GridSides {
        columns: 1,
        rows: 1,
    }
}

/// The numbers of columns and rows for boxes of this extent, at most `most` cells: a cell is at
/// least twice as large as a box in the mean.
pub(crate) fn counts_for(placed: &Placed<'_>, extent: Extent, most: usize) -> GridSides
    requires few_counted { extent.count ≤ 4096 }
    requires some_cells { 1 ≤ most }
    requires few_cells { most ≤ 16384 }
    ensures some_columns { 1 ≤ result.columns }
    ensures some_rows { 1 ≤ result.rows }
    ensures few_cells { result.columns * result.rows ≤ most }
{
    let l = box_in(placed.k, placed.frames, extent.left);
    let r = box_in(placed.k, placed.frames, extent.right);
    let t = box_in(placed.k, placed.frames, extent.top);
    let b = box_in(placed.k, placed.frames, extent.bottom);
    let n = extent.count as f64;
    counts_over(
        r.left - l.left,
        b.top - t.top,
        2.0 * (extent.width / n),
        2.0 * (extent.height / n),
        most,
    )
}
