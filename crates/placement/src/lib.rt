//! Placement: the first free place of each station, and boxes.
#![tactic(auto)]

/// One station's place.
pub mod free_places;
pub mod plan;
pub(crate) mod search;
pub mod sized;
pub mod turns;
