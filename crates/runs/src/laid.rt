// What runs are drawn from.
use boxes::grid::index::BoxIndex;
use stations::measures::Measures;

/// A drawing that is laid out, without its boxes, which the obstacles' index has.
#[derive(Clone, Copy)]
pub struct Laid<'a> {
    /// What the interiors of stations are measured by.
    pub measures: Measures,
    /// Three numbers for each bus: its column, its first row, and one more than its last row.
    pub buses: &'a [u32],
    /// Four numbers for each branch: the rows of its two ends, its first waypoint, and how many
    /// waypoints it has.
    pub ends: &'a [u32],
    /// Three numbers for each station: width, height and scale.
    pub blocks: &'a [f64],
    /// Two coordinates for each station, and behind as many of them as there are buses two exits
    /// for each branch.
    pub places: &'a [f64],
}

/// What lines are led by.
#[derive(Clone, Copy)]
pub struct Obstacles<'a> {
    /// The clearance that lines keep where they are led round boxes, none where they aren't.
    pub clearance: Option<f64>,
    /// The boxes of stations, entered by cell.
    pub index: BoxIndex<'a>,
    /// The waypoints of all lines, two coordinates each.
    pub ways: &'a [f64],
}
