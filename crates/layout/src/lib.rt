// The public call.
#![tactic(auto)]

/// The call.
pub mod call;
