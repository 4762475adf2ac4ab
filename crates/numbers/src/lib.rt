//! The numbers of a drawing: floats and their laws, the exact hypot, a stable sort, tables and the
//! median.
#![tactic(auto)]

/// Floats: patterns, floors, keys, maximum and minimum.
pub mod float;
/// The length of a hypotenuse.
pub mod hypot;
/// Laws of arithmetic.
pub mod laws;
/// Sorting by keys, and the median.
pub mod order;
