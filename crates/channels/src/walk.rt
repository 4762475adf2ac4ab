//! The walk of a line across the mesh (docs/RULES.md, 'Walk').

/// The walk of one line.
pub mod trace;

// What the walk of a line does next.
#[derive(Clone, Copy)]
pub(crate) enum Step {
    // It crosses this half-edge.
    Out(u32),
    // It is in a triangle of the other end, or outside the mesh.
    Home,
    // It crosses no further half-edge.
    Lost,
}
