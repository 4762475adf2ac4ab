//! Channels between stations: the part where lines may cross.

/// The channel between two stations.
pub mod ends;

/// The numbers of a channel (docs/RULES.md, 'Channels'), as fractions of its length, from 0 at the
/// place of its lower vertex to 1 at that of its higher one.
#[derive(Clone, Copy)]
pub struct Channel {
    /// The low end, from 0 to 1.
    pub lo: f64,
    /// The high end, from 0 to 1.
    pub hi: f64,
    /// The least step, which may be above 1.
    pub least_step: f64,
}
