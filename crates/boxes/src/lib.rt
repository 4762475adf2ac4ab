// The box that a piece enters first, and the way of a path round boxes.
#![tactic(auto)]

/// The boxes of occupied stations, entered by cell in a lent list.
pub mod box_cells;
// The point by which a piece goes round a box.
pub(crate) mod corner;
/// A path led round boxes.
pub mod detour;
pub(crate) mod first_box;
/// The box that a piece enters first, found by the cells that the piece passes.
pub mod first_hit;
/// The cells of boxes, and the list that holds them.
pub mod grid;
/// Laws of ways round boxes.
pub mod laws;
