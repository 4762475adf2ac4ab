//! Bars, positions, row ends and exits (docs/RULES.md, 'Bars and row ends' and 'Exits').
ghost use Rattle.std.specs.Prelude.{◌≡◌, ◌<◌};
ghost use Rattle.stations.specs.Bar.{bar_x, row_y, rows, bare, span_of, bar_ends, lengthened};
ghost use Rattle.stations.specs.Bar.{bar_for, position};
ghost use Rattle.stations.specs.Exit.{exit_x};

use network::options::BlockOptions;
use plane::geometry::{Box, Point};

/// A bus's bar: a vertical line.
#[derive(Clone, Copy)]
pub struct Bar {
    pub x: f64,
    /// Its top end.
    pub y0: f64,
    /// Its bottom end.
    pub y1: f64,
}

/// What a station's interior is drawn by.
#[derive(Clone, Copy)]
pub struct Interior {
    /// The block options, in blocks.
    pub block_options: BlockOptions,
    /// The station's box.
    pub outer: Box,
    /// The station's block, unit × scale.
    pub block: f64,
}

// The x of a bar in the column of this number.
#[tactic(auto, unfolding(crate::specs::Bar::bar_x))]
fn bar_x(of: Interior, column: u32) -> f64
    ensures { result ≡ bar_x of.block_options of.outer of.block column }
{
    of.outer.left + (of.block_options.pad + of.block_options.bar_gap * (column as f64)) * of.block
}

/// The y of a row's middle.
#[tactic(auto, unfolding(crate::specs::Bar::row_y))]
pub fn row_y(of: Interior, row: u32) -> f64
    ensures { result ≡ row_y of.block_options of.outer of.block row }
{
    of.outer.top + (of.block_options.pad + (row as f64) + 0.5) * of.block
}

// A bar from its first to its last row.
#[tactic(auto, unfolding(crate::specs::Bar::bar_ends))]
fn over_rows(of: Interior, at_x: f64, first: u32, last: u32) -> Bar
    ensures { result ≡ bar_ends of.block_options of.outer of.block at_x (rows first last) }
{
    Bar {
        x: at_x,
        y0: row_y(of, first) - 0.5 * of.block,
        y1: row_y(of, last) + 0.5 * of.block,
    }
}

// A bar without rows.
#[tactic(auto, unfolding(crate::specs::Bar::bar_ends))]
fn at_top(of: Interior, at_x: f64) -> Bar
    ensures { result ≡ bar_ends of.block_options of.outer of.block at_x bare }
{
    Bar {
        x: at_x,
        y0: of.outer.top + of.block_options.pad * of.block,
        y1: of.outer.top + (of.block_options.pad + of.block_options.min_bar) * of.block,
    }
}

// A bar of at least the shortest length, about its middle.
#[tactic(auto, unfolding(crate::specs::Bar::lengthened))]
fn lengthened(of: Interior, bar: Bar) -> Bar
    ensures { result ≡ lengthened of.block_options of.block bar }
{
    if bar.y1 - bar.y0 < of.block_options.min_bar * of.block {
        let mid = (bar.y0 + bar.y1) / 2.0;
        return Bar {
            x: bar.x,
            y0: mid - of.block_options.min_bar * of.block / 2.0,
            y1: mid + of.block_options.min_bar * of.block / 2.0,
        };
    }
    bar
}

// A bar from its first row to the one before `past`, or without rows where `past` is 0.
#[tactic(auto, unfolding(crate::specs::Bar::span_of))]
fn bar_ends(of: Interior, at_x: f64, first: u32, past: u32) -> Bar
    ensures { result ≡ bar_ends of.block_options of.outer of.block at_x (span_of first past) }
{
    if past == 0 {
        return at_top(of, at_x);
    }
    over_rows(of, at_x, first, past - 1)
}

/// The bar of a bus in this column, from its first row to the one before `past`; where `past` is
/// 0 the bus has no rows.
#[tactic(auto, unfolding(crate::specs::Bar::bar_for))]
pub fn bar_for(of: Interior, column: u32, first: u32, past: u32) -> Bar
    ensures { result ≡ bar_for of.block_options of.outer of.block column (span_of first past) }
{
    lengthened(of, bar_ends(of, bar_x(of, column), first, past))
}

/// A bus's position: its bar's x and middle.
#[tactic(auto, unfolding(crate::specs::Bar::position))]
pub fn position(bar: Bar) -> Point
    ensures { result ≡ position bar }
{
    Point {
        x: bar.x,
        y: (bar.y0 + bar.y1) / 2.0,
    }
}

/// The x where a line leaves a station's box, at its place, towards another place: the right side
/// unless the other lies to the left.
#[tactic(auto, unfolding(crate::specs::Exit::exit_x))]
pub fn exit_x(own: Box, place: Point, other: Point) -> f64
    ensures { result ≡ exit_x own place other }
{
    if other.x >= place.x {
        own.right
    } else {
        own.left
    }
}
