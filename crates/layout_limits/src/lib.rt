// Refusals of a layout by its input: 1 to 7 and 15.
#![tactic(auto)]

/// The refusals.
pub mod refuse;
