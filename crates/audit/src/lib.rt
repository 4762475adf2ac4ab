// The audit of a drawing: the public call.
#![tactic(auto)]

pub(crate) mod accepted;
pub(crate) mod clear;
/// Displacement and spacing.
pub mod figures;
/// What an audit is lent and what it answers.
pub mod findings;
/// Refusals 13 and 8.
pub mod fit;
pub(crate) mod inside;
pub(crate) mod limits;
/// The lists that an audit is lent to write.
pub mod lists;
pub(crate) mod overlaps;
/// The call.
pub mod quality;
pub(crate) mod stretches;
pub(crate) mod through;
