//! Readers and writers that may promise that they don't fail. std's traits say what a read or a
//! write did where it succeeded, and of no reader or writer that it does.
#![tactic(auto)]

/// A reader, and the front of what it has left.
pub mod source;

/// A writer of whole texts.
pub mod sink;
