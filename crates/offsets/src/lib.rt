//! Offsets round a seed, in the order of the search.
#![tactic(auto)]

pub mod offset;
