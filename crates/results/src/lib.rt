// Writing the result lists, and the bounds of a drawing.
#![tactic(auto)]

/// The bounds of a drawing.
pub mod bounds;
/// The lists of buses: positions and bars.
pub mod buses;
/// The lists of stations and branches: boxes, scales and roles.
pub mod lists;
pub(crate) mod pieces;
/// The pieces of all runs: counted, then written.
pub mod piece_list;
