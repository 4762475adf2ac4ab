// Lines led through the mesh: their crossings, traced and stored, their wishes, and the rounds of
// spacing.
#![tactic(auto)]

/// The channels and crossings of one line through the mesh.
pub mod crossings;
/// The exits of lines from their stations' boxes.
pub mod exits;
/// Laws of crossings.
pub mod laws;
/// The rounds of spacing.
pub mod rounds;
/// All lines routed through the mesh.
pub mod routes;
/// What lines are routed among.
pub mod surroundings;
pub(crate) mod tracing;
pub(crate) mod wishes;
