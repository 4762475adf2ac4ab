//! Functions on f64, each equal to a definition in specs/ on every input that it takes: NaNs, zeros
//! of either sign and infinities too, unless a clause bars them.
/// Bit patterns.
pub mod bits;
/// Whole numbers: docs/RULES.md, 'Floor'.
pub mod floor;
/// Keys that sort floats: docs/RULES.md, 'Total order'.
pub mod key;
/// Maximum, minimum, magnitude, finiteness and clamp.
pub mod small;
