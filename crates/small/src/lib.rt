//! Drawings of small networks, with work lists on the stack.
#![tactic(auto)]

/// The call.
pub mod draw;
