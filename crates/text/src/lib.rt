//! The texts that the programs read and write: fields, lines, and the words of a stored line.
#![tactic(auto)]

/// The fields of a line.
pub mod fields;
/// Laws of the texts.
pub mod laws;
/// The lines of a network and of a drawing.
pub mod listing;
/// The words of a stored call.
pub mod stored;
