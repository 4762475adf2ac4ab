// Runs of points and their pieces.
#![tactic(auto)]

/// What runs are drawn from, and what lines are led by.
pub mod laid;
/// What each line asks for.
pub mod requests;
/// The points of a branch's run.
pub mod run;
