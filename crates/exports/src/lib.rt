//! Functions for C and Rust: numbers pass as themselves, a list as a pointer and a length
//! (include/tansygate.h).
#![tactic(auto)]

/// The audit call.
pub mod auditing;
/// The call of the largest fill.
pub mod filling;
/// The drawing call.
pub mod plotting;

ghost use Rattle.std.specs.Prelude.{◌≡◌, ◌++◌, ◌*◌, ◌/◌, ◌≤◌, min, length, drop};
ghost use Rattle.numbers.specs.Hypot.{hypot_of};
ghost use Rattle.numbers.specs.Table.{table};
ghost use Rattle.plane.specs.Near.{nearest};

use plane::neighbours::points::Points;

/// The root of x * x + y * y, rounded once (docs/RULES.md, 'Hypot').
///
/// `x`, `y`: any floats. Infinite where one is, else not a number where one is none.
#[unsafe(no_mangle)]
pub extern "C" fn tansygate_hypot(x: f64, y: f64) -> f64
    ensures { result ≡ hypot_of x y }
{
    numbers::hypot::hypot(x, y)
}

// How many points of two numbers each a list of this length holds, and no more than another holds
// numbers.
fn points_in(numbers: usize, room: usize) -> usize
    ensures count { result ≡ min (numbers / 2) room }
    ensures within_numbers { 2 * result ≤ numbers }
    ensures within_room { result ≤ room }
{
    (numbers / 2).min(room)
}

/// Writes each point's least positive distance to another over the front of `out`, infinity where
/// there is none; how many points that are.
///
/// `out`: any length; what stands past the points keeps its old content. `points`: x and y of each;
/// an odd number at its end is left out. As many points count as `points` has pairs of numbers and
/// `out` has room for.
#[unsafe(no_mangle)]
pub extern "C" fn tansygate_nearest(out: &mut [f64], points: &[f64]) -> usize
    ensures count { result ≡ min (length points.now / 2) (length out.old) }
    ensures out_after { out.new ≡ table (nearest points.now result) result ++ drop result out.old }
{
    let n = points_in(points.len(), out.len());
    plane::neighbours::nearest_of_all(&Points { n, xy: points }, out);
    n
}
