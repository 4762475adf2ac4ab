//! Neighbours: the distance to the nearest other point (docs/RULES.md, 'Spacing and unit'), and how
//! many points are near (docs/RULES.md, 'Scales').
ghost use Rattle.std.specs.Prelude.{◌≡◌, ◌++◌, ◌^◌, ◌<◌, ◌≤◌, length, drop};
ghost use Rattle.numbers.specs.Table.{table};
ghost use Rattle.plane.specs.Near.{nearest, within, neighbours};

use crate::neighbours::points::Points;
use crate::neighbours::sweep::{Sweep, by_x, counts_in_order, nearest_in_order};
use crate::proximity::{closer, is_near};

/// Points as they are lent.
pub mod points;
mod sweep;

// The least positive distance from a point to another, infinity if none.
#[tactic(auto, using(crate::proofs::neighbours::Scans::nearest_laws))]
fn nearest_distance(points: &Points<'_>, index: usize) -> f64
    requires { index < points.now.n }
    ensures { result ≡ nearest points.now.xy.now points.now.n index }
{
    let xy = points.xy;
    let x = xy[2 * index];
    let y = xy[2 * index + 1];
    let mut best = f64::INFINITY;
    for j in 0..points.n {
        if j != index {
            best = closer(best, xy[2 * j] - x, xy[2 * j + 1] - y);
        }
    }
    best
}

/// For each point its least positive distance to another, +∞ if there is none, at the front of
/// `out`, in the points' order. All pairs are looked at.
#[tactic(auto, using(crate::proofs::neighbours::Fills::fill_laws))]
pub fn nearest_of_all(points: &Points<'_>, out: &mut [f64])
    requires { points.now.n ≤ length out.old }
    ensures { out.new ≡ table (nearest points.now.xy.now points.now.n) points.now.n
        ++ drop points.now.n out.old }
{
    for i in 0..points.n {
        out[i] = nearest_distance(points, i);
    }
}

/// The same distances, found along the order of x where every x is finite, and over all pairs
/// elsewhere. `keys`, `order` and `spare` are work lists, each at least as long as there are
/// points.
pub fn nearest_neighbour_distances(
    points: &Points<'_>,
    out: &mut [f64],
    keys: &mut [u64],
    order: &mut [u32],
    spare: &mut [u32],
)
    requires fits_u32 { points.now.n ≤ 2 ^ 32 }
    requires out_room { points.now.n ≤ length out.old }
    requires keys_room { points.now.n ≤ length keys.old }
    requires order_room { points.now.n ≤ length order.old }
    requires spare_room { points.now.n ≤ length spare.old }
    ensures { out.new ≡ table (nearest points.now.xy.now points.now.n) points.now.n
        ++ drop points.now.n out.old }
{
    let r = by_x(points, keys, order, spare);
    if r == points.n {
        let points = *points;
        nearest_in_order(&Sweep { points, order }, out);
        return;
    }
    nearest_of_all(points, out);
}

// How many other points are at most radius away from a point.
#[tactic(auto, using(crate::proofs::neighbours::Scans::near_laws))]
fn count_near(points: &Points<'_>, radius: f64, index: usize) -> usize
    requires { index < points.now.n }
    ensures { result ≡ within points.now.xy.now points.now.n radius index }
{
    let xy = points.xy;
    let x = xy[2 * index];
    let y = xy[2 * index + 1];
    let mut count = 0;
    for j in 0..points.n {
        if j != index && is_near(xy[2 * j] - x, xy[2 * j + 1] - y, radius) {
            count += 1;
        }
    }
    count
}

// The same, and none where the radius is not above 0.
#[tactic(auto, unfolding(crate::specs::Near::neighbours))]
fn count_within(points: &Points<'_>, radius: f64, index: usize) -> usize
    requires { index < points.now.n }
    ensures { result ≡ neighbours points.now.xy.now points.now.n radius index }
{
    if 0.0 < radius {
        return count_near(points, radius, index);
    }
    0
}

// These counts of the points, in order, at the front of counts, over all pairs.
#[tactic(auto, using(crate::proofs::neighbours::Scans::counts_laws))]
fn counts_of_all(points: &Points<'_>, radius: f64, counts: &mut [u32])
    requires fits_u32 { points.now.n < 2 ^ 32 }
    requires room { points.now.n ≤ length counts.old }
    ensures { counts.new ≡ table (neighbours points.now.xy.now points.now.n radius) points.now.n
        ++ drop points.now.n counts.old }
{
    for i in 0..points.n {
        counts[i] = count_within(points, radius, i) as u32;
    }
}

/// For each point how many others are at most `radius` away, none where the radius isn't above 0,
/// at the front of `counts`, in the points' order. It goes along the order of x where every x is
/// finite, and over all pairs elsewhere. `keys` and `order` are work lists, each at least as long
/// as there are points.
pub fn neighbour_counts(
    points: &Points<'_>,
    radius: f64,
    counts: &mut [u32],
    keys: &mut [u64],
    order: &mut [u32],
)
    requires fits_u32 { points.now.n < 2 ^ 32 }
    requires counts_room { points.now.n ≤ length counts.old }
    requires keys_room { points.now.n ≤ length keys.old }
    requires order_room { points.now.n ≤ length order.old }
    ensures { counts.new ≡ table (neighbours points.now.xy.now points.now.n radius) points.now.n
        ++ drop points.now.n counts.old }
{
    let r = by_x(points, keys, order, counts);
    if r == points.n {
        let points = *points;
        counts_in_order(&Sweep { points, order }, radius, counts);
        return;
    }
    counts_of_all(points, radius, counts);
}
