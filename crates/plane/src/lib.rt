//! Points, boxes and pieces in the plane.
#![tactic(auto)]

/// The boxes placed so far, by the cell of their left edge.
pub mod box_order;
/// Cells of edges.
pub mod cells;
/// Segments that cross.
pub mod crossing;
/// Points, boxes and the clip test.
pub mod geometry;
/// Laws of pieces and boxes.
pub mod laws;
/// Distances to the nearest point, and numbers of near points.
pub mod neighbours;
/// Boxes that overlap, points that are near.
pub mod proximity;
/// Windows of parts of pieces.
pub mod windows;
