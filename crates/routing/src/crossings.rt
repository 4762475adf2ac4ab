// Channels and crossings of one line through the mesh, stored in lent lists.
pub(crate) mod vertices;
/// The crossings of one walk, stored one after another.
pub mod crossings;
pub(crate) mod half_edge_channels;
/// The clearance.
pub mod clearance;
pub(crate) mod line_vertices;
