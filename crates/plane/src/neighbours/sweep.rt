//! The points in the order of their x, and scans along it that stop where the difference of x alone
//! is past the bound.
ghost use Rattle.std.specs.Prelude.{◌≡◌, true, ◌++◌, ◌+◌, ◌^◌, ◌<◌, ◌≤◌};
ghost use Rattle.std.specs.Prelude.{length, drop, get_or, replicate};
ghost use Rattle.std.specs.Float.Ieee.{lt};
ghost use Rattle.numbers.specs.Small.{is_finite};
ghost use Rattle.numbers.specs.Ops.{f0};
ghost use Rattle.numbers.specs.Table.{table, how_many};
ghost use Rattle.plane.specs.Near.{nearest, neighbours};
ghost use Rattle.plane.specs.Stages.Sweep.{Numbered, Swept, Others, Least, away, in_radius};

use crate::neighbours::points::Points;
use crate::proximity::{closer, is_near};
use numbers::float::key::order_key;
use numbers::float::small::is_finite;

// Points with finite x, and their numbers by rising x.
#[derive(Clone, Copy)]
pub(crate) struct Sweep<'a> {
    pub(crate) points: Points<'a>,
    pub(crate) order: &'a [u32],
    pub(crate) ghost numbered: { points.n ≤ length order.now },
    pub(crate) ghost swept: { Swept points.xy.now points.n order.now },
}

// The points before the first whose x is not finite: the order keys of their x, and their numbers.
// How many they are.
fn keys_by_x(points: &Points<'_>, keys: &mut [u64], order: &mut [u32]) -> usize
    requires fits_u32 { points.now.n ≤ 2 ^ 32 }
    requires keys_room { points.now.n ≤ length keys.old }
    requires order_room { points.now.n ≤ length order.old }
    ensures at_most_all { result ≤ points.now.n }
    ensures numbered { Numbered points.now.xy.now result keys.new order.new }
{
    let xy = points.xy;
    for i in 0..points.n {
        let x = xy[2 * i];
        if !is_finite(x) {
            return i;
        }
        keys[i] = order_key(x);
        order[i] = i as u32;
    }
    points.n
}

// Those points' numbers by rising x at the front of order, and how many they are: all where every x
// is finite.
pub(crate) fn by_x(
    points: &Points<'_>,
    keys: &mut [u64],
    order: &mut [u32],
    spare: &mut [u32],
) -> usize
    requires fits_u32 { points.now.n ≤ 2 ^ 32 }
    requires keys_room { points.now.n ≤ length keys.old }
    requires order_room { points.now.n ≤ length order.old }
    requires spare_room { points.now.n ≤ length spare.old }
    ensures at_most_all { result ≤ points.now.n }
    ensures swept { Swept points.now.xy.now result order.new }
    ensures spare_after { spare.new ≡ replicate result 0 ++ drop result spare.old }
{
    let r = keys_by_x(points, keys, order);
    numbers::order::sort_part(keys, order, spare, 0, r);
    r
}

// The least positive distance from the point at a position of the order, whose coordinates are
// handed on, to a point behind it in the order, infinity if none.
#[tactic(auto, using(crate::proofs::neighbours::Places::place_below))]
fn nearest_right(sweep: &Sweep<'_>, position: usize, from_x: f64, from_y: f64) -> f64
    requires in_points { position < sweep.now.points.n }
    requires finite_x { is_finite from_x ≡ true }
    ensures { Least (away sweep.now.points.xy.now sweep.now.order.now from_x from_y)
        (Others position position sweep.now.points.n) result }
{
    let xy = sweep.points.xy;
    let mut best = f64::INFINITY;
    for &i in &sweep.order[position + 1..sweep.points.n] {
        let j = i as usize;
        let d = xy[2 * j] - from_x;
        if best < d {
            return best;
        }
        best = closer(best, d, xy[2 * j + 1] - from_y);
    }
    best
}

// The lesser of that and the least positive distance to a point before it.
#[tactic(auto, using(crate::proofs::neighbours::Places::back_below))]
fn nearest_left(sweep: &Sweep<'_>, position: usize, from_x: f64, from_y: f64, right: f64) -> f64
    requires in_points { position < sweep.now.points.n }
    requires finite_x { is_finite from_x ≡ true }
    requires least_behind { Least (away sweep.now.points.xy.now sweep.now.order.now from_x from_y)
        (Others position position sweep.now.points.n) right }
    ensures { Least (away sweep.now.points.xy.now sweep.now.order.now from_x from_y)
        (Others position 0 sweep.now.points.n) result }
{
    let xy = sweep.points.xy;
    let mut best = right;
    for &i in sweep.order[..position].iter().rev() {
        let j = i as usize;
        let d = xy[2 * j] - from_x;
        if best < -d {
            return best;
        }
        best = closer(best, d, xy[2 * j + 1] - from_y);
    }
    best
}

// The least positive distance from the point at a position of the order to another, infinity if
// none.
#[tactic(auto, using(crate::proofs::neighbours::Places::place_below))]
fn nearest_at(sweep: &Sweep<'_>, position: usize) -> f64
    requires { position < sweep.now.points.n }
    ensures { result ≡ nearest sweep.now.points.xy.now sweep.now.points.n
        (get_or sweep.now.order.now position 0) }
{
    let i = sweep.order[position] as usize;
    let x = sweep.points.xy[2 * i];
    let y = sweep.points.xy[2 * i + 1];
    let right = nearest_right(sweep, position, x, y);
    nearest_left(sweep, position, x, y, right)
}

// The nearest distances of the points at the front of out, each at its point's number.
#[tactic(auto, using(crate::proofs::neighbours::Places::place_below))]
pub(crate) fn nearest_in_order(sweep: &Sweep<'_>, out: &mut [f64])
    requires { sweep.now.points.n ≤ length out.old }
    ensures { out.new
        ≡ table (nearest sweep.now.points.xy.now sweep.now.points.n) sweep.now.points.n
        ++ drop sweep.now.points.n out.old }
{
    for c in 0..sweep.points.n {
        let i = sweep.order[c] as usize;
        out[i] = nearest_at(sweep, c);
    }
}

// How many points behind a position of the order are at most radius away from the point there,
// whose coordinates are handed on.
#[tactic(auto, using(crate::proofs::neighbours::Places::place_below))]
fn count_right(sweep: &Sweep<'_>, position: usize, from_x: f64, from_y: f64, radius: f64) -> usize
    requires in_points { position < sweep.now.points.n }
    requires finite_x { is_finite from_x ≡ true }
    requires positive { lt f0 radius ≡ true }
    ensures { result
        + how_many (in_radius sweep.now.points.xy.now sweep.now.order.now from_x from_y radius)
        (position + 1)
        ≡ how_many (in_radius sweep.now.points.xy.now sweep.now.order.now from_x from_y radius)
        sweep.now.points.n }
{
    let xy = sweep.points.xy;
    let mut count = 0;
    for &i in &sweep.order[position + 1..sweep.points.n] {
        let j = i as usize;
        let d = xy[2 * j] - from_x;
        if radius < d {
            return count;
        }
        if is_near(d, xy[2 * j + 1] - from_y, radius) {
            count += 1;
        }
    }
    count
}

// How many points before it are.
#[tactic(auto, using(crate::proofs::neighbours::Places::left_laws))]
fn count_left(sweep: &Sweep<'_>, position: usize, from_x: f64, from_y: f64, radius: f64) -> usize
    requires in_points { position < sweep.now.points.n }
    requires finite_x { is_finite from_x ≡ true }
    requires positive { lt f0 radius ≡ true }
    ensures { result
        ≡ how_many (in_radius sweep.now.points.xy.now sweep.now.order.now from_x from_y radius)
        position }
{
    let xy = sweep.points.xy;
    let mut count = 0;
    for &i in sweep.order[..position].iter().rev() {
        let j = i as usize;
        let d = xy[2 * j] - from_x;
        if radius < -d {
            return count;
        }
        if is_near(d, xy[2 * j + 1] - from_y, radius) {
            count += 1;
        }
    }
    count
}

// How many others are at most radius away from the point at a position of the order, none where the
// radius is not above 0.
#[tactic(auto, using(crate::proofs::neighbours::Sweeps::count_laws))]
fn count_at(sweep: &Sweep<'_>, radius: f64, position: usize) -> usize
    requires { position < sweep.now.points.n }
    ensures { result ≡ neighbours sweep.now.points.xy.now sweep.now.points.n radius
        (get_or sweep.now.order.now position 0) }
{
    if 0.0 < radius {
        let i = sweep.order[position] as usize;
        let x = sweep.points.xy[2 * i];
        let y = sweep.points.xy[2 * i + 1];
        let right = count_right(sweep, position, x, y, radius);
        let left = count_left(sweep, position, x, y, radius);
        return right + left;
    }
    0
}

// These counts of the points at the front of counts, each at its point's number.
#[tactic(auto, using(crate::proofs::neighbours::Places::place_below))]
pub(crate) fn counts_in_order(sweep: &Sweep<'_>, radius: f64, counts: &mut [u32])
    requires fits_u32 { sweep.now.points.n < 2 ^ 32 }
    requires room { sweep.now.points.n ≤ length counts.old }
    ensures { counts.new
        ≡ table (neighbours sweep.now.points.xy.now sweep.now.points.n radius) sweep.now.points.n
        ++ drop sweep.now.points.n counts.old }
{
    for c in 0..sweep.points.n {
        let i = sweep.order[c] as usize;
        counts[i] = count_at(sweep, radius, c) as u32;
    }
}
