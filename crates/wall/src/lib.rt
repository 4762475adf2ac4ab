//! A drawing and the audit of it in one call, with what is claimed of it (docs/RULES.md, 'Draw and
//! audit' and 'One claim about a whole drawing').
#![tactic(auto)]

/// The call.
pub mod check;
/// A law of the definitions.
pub mod laws;
