//! A drawing of a network and the audit of one, with every list on the heap.
//!
//! `draw` and `audit` are the two calls for a program that is written in Rattle. They make the
//! result and work lists that `layout` and `audit` are lent, each just as long as the network and
//! `AskedRoom` ask, and hand back lists without a number to spare.
//! `layout::call::tx_schematic_layout` and `audit::quality::tx_layout_quality` are the same calls
//! over lists that the caller lends.
//!
//! Two stations of one bus each, with a line between them, drawn and audited:
//!
//! ```rust
//! let network = Network {
//!     sub: &[0, 1],
//!     kv: &[0x405b_8000_0000_0000, 0x405b_8000_0000_0000],
//!     from: &[0],
//!     to: &[1],
//!     service: &[1],
//!     xy: &[0.0, 0.0, 1.0, 0.0],
//!     mesh: Mesh { corners: &[], twins: &[] },
//! };
//! let options = Options { route_iterations: 0, ..Options::default() };
//! let asked = AskedRoom { pieces: 3, crossings: 0 };
//! let drawing = draw(rt.alloc(), &network, options, asked)?;
//! let audited = audit(rt.alloc(), &network, &drawing.lists)?;
//! ```
#![tactic(auto)]

pub mod audits;
pub mod drawings;
pub mod errors;
pub mod lists;
#[cfg(test)]
mod tests;
mod work;

pub use audits::{Audited, audit};
pub use drawings::{AskedRoom, Drawing, draw};
pub use errors::Error;
pub use lists::Lists;
