//! Options and answers as plain records, for C and Rust.
#![tactic(auto)]

/// The records, laid out as in C.
pub mod plain;
