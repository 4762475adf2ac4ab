//! The largest fill at which a network is drawn and every box finds a free place.
#![tactic(auto)]

/// What the call answers.
pub mod answer;
/// The call.
pub mod call;
/// A law of the largest fill.
pub mod laws;
mod tries;
