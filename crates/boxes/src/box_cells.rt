// Boxes entered by cell in a lent list.

/// The list's length, and the boxes entered in it.
pub mod build;
pub(crate) mod extent;
pub(crate) mod finite;
