//! What a call is refused for, and the refusals that the input alone decides: 1 to 4, 15 and 6
//! (docs/RULES.md, 'Refusals' and 'Order of refusals').
ghost use Rattle.std.specs.Prelude.{◌≡◌, ◌+◌, ◌<◌};
ghost use Rattle.std.specs.Result.{result_err};
ghost use Rattle.network.specs.Refusal.{number, is_voltage, stray_voltage, shape_refusal};
ghost use Rattle.network.specs.Refusal.{above, far_out, too_far};

use crate::words::station_count;
use numbers::float::bits::of_bits;
use numbers::float::small::{abs, is_finite};
use plane::geometry::point_at;

/// Why a call is refused. Each has the number that callers get; 12 is no refusal's.
#[derive(Clone, Copy, Debug, PartialEq, Eq)]
pub enum Refusal {
    /// More than 4,096 buses or 8,192 branches.
    TooMany = 1,
    /// `kv` isn't as long as the bus list.
    KvLength = 2,
    /// `to` isn't as long as `from`.
    ToLength = 3,
    /// A substation number is not below the bus count.
    StationNumber = 4,
    /// An option is out of range.
    OptionRange = 5,
    /// A bus with two finite coordinates has one above 10^12 in size.
    TooFar = 6,
    /// A result or work list of fixed length is too short.
    ListTooShort = 7,
    /// The largest of right − left and bottom − top over occupied stations' boxes is 0, or a
    /// corner of these boxes (in the audit, also a piece end) divided by it isn't at most 2^40 in
    /// size.
    IllSized = 8,
    /// The mesh is ill-formed.
    Mesh = 9,
    /// Crossings, those of cleared walks included, outnumber the lent crossing list.
    Crossings = 10,
    /// Pieces outnumber the lent piece lists.
    Pieces = 11,
    /// The audited drawing doesn't fit its network.
    NoFit = 13,
    /// The program's text is malformed.
    Malformed = 14,
    /// A `kv` isn't finite and above zero.
    Voltage = 15,
    /// No fill of 1/64 to 64/64 is accepted and leaves each station a free place.
    NoFill = 18,
}

impl Refusal {
    /// The number that callers get.
    pub fn number(self) -> u32
        ensures { result ≡ number self }
    {
        self as u32
    }
}

// Whether these are the bits of a voltage: a number that is finite and above zero.
#[tactic(auto, unfolding(crate::specs::Refusal::is_voltage))]
fn is_voltage(pattern: u64) -> bool
    ensures { result ≡ is_voltage pattern }
{
    let v = of_bits(pattern);
    is_finite(v) && 0.0 < v
}

// Refusal 15: whether one of these isn't a voltage.
fn stray_voltage(kv: &[u64]) -> bool
    ensures { result ≡ stray_voltage kv.now }
{
    kv.iter().any(|&pattern| !is_voltage(pattern))
}

/// The first of refusals 1 to 4 and then 15 that stands, by the lists alone: the lengths, the
/// station numbers and the voltages, in both calls.
#[tactic(auto, unfolding(crate::specs::Refusal::shape_refusal))]
pub fn check_shape(sub: &[u32], kv: &[u64], from: &[i64], to: &[i64]) -> Result<(), Refusal>
    ensures { result_err result ≡ shape_refusal sub.now kv.now from.now to.now }
{
    if sub.len() > 4096 || from.len() > 8192 {
        return Err(Refusal::TooMany);
    }
    if kv.len() != sub.len() {
        return Err(Refusal::KvLength);
    }
    if to.len() != from.len() {
        return Err(Refusal::ToLength);
    }
    if station_count(sub) > sub.len() {
        return Err(Refusal::StationNumber);
    }
    if stray_voltage(kv) {
        return Err(Refusal::Voltage);
    }
    Ok(())
}

// Whether a number is above 10^12 in size.
#[tactic(auto, unfolding(crate::specs::Refusal::above))]
fn above(number: f64) -> bool
    ensures { result ≡ above number }
{
    1e12 < abs(number)
}

// Whether two finite coordinates have one above 10^12 in size.
#[tactic(auto, unfolding(crate::specs::Refusal::far_out))]
fn far_out(across: f64, down: f64) -> bool
    ensures { result ≡ far_out across down }
{
    is_finite(across) && is_finite(down) && (above(across) || above(down))
}

/// Refusal 6: whether one of so many buses with two finite coordinates has one above 10^12 in
/// size. `xy` may have fewer numbers or more: a point past its end is absent.
pub fn too_far(buses: usize, xy: &[f64]) -> bool
    requires { buses < 0x1_0000_0000 }
    ensures { result ≡ too_far buses xy.now }
{
    (0..buses).any(|bus| {
        let point = point_at(xy, bus);
        far_out(point.x, point.y)
    })
}
