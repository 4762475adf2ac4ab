//! A network as a call is lent it: the words for its parts (known buses, live branches, occupied
//! stations), its options, its mesh, the seeds of its stations, and the refusals.
#![tactic(auto)]

pub mod lists;
pub mod mesh;
pub mod options;
pub mod refusals;
pub mod seeds;
pub mod words;
