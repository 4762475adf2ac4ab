//! A station from within: columns, rows, size, scale and unit, bars and exits.
#![tactic(auto)]

pub mod bars;
pub mod columns;
pub mod measures;
pub(crate) mod ranking;
pub mod rows;
pub mod scales;
pub mod sizes;
pub mod spans;
pub mod units;
