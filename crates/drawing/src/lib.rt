// What a drawing is and what a call answers; refusal 11.
#![tactic(auto)]

/// What a call answers.
pub mod answer;
/// Refusal 11.
pub mod late;
/// Laws of every drawing.
pub mod laws;
/// The lengths of the lent lists.
pub mod lengths;
