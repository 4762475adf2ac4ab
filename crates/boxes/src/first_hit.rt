// The box that a piece enters first (docs/RULES.md, 'The box entered first'), found by the cells
// that the piece passes.

/// The search along a piece.
pub mod search;
pub(crate) mod steps;
