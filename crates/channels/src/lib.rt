//! The mesh's channels between stations: the walk of a line across them, and the spacing of the
//! lines that cross one.
#![tactic(auto)]

/// The part of a channel where lines may cross.
pub mod channel;
/// Crossings by their channel.
pub mod grouping;
/// Half-edges by the vertex that they start at.
pub mod half_edges;
/// Laws of channels.
pub mod laws;
/// Crossings placed along a channel.
pub mod spacing;
/// The walk of a line across the mesh.
pub mod walk;
