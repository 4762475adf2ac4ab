// Where crossings are, and the places that they wish for, between the points before and behind them
// (docs/RULES.md, 'Wishes').
pub(crate) mod fixed;

ghost use Rattle.std.specs.Prelude.{◌≡◌, ◌+◌, ◌-◌, ◌*◌, ◌^◌, ◌≤◌, ◌<◌};
ghost use Rattle.routing.specs.Stages.RoundLists.{half_edge_in, low_in, high_in, between};
ghost use Rattle.routing.specs.Stages.RoundLists.{before_in, behind_in, wish_in};
ghost use Rattle.routing.specs.Stages.Lent.{fixed_lists, crossing_point};

use crate::crossings::crossings::{high_at, low_at};
use crate::wishes::fixed::{Crossed, Fixed};
use numbers::order::at;
use plane::crossing::{Param, line_param};
use plane::geometry::{Point, number_at, point_at};
use runs::run::{first_exit, second_exit};

/// A half-edge of a channel.
#[tactic(auto, unfolding(crate::specs::Stages::RoundLists::half_edge_in))]
pub(crate) fn edge_of(branch_count: usize, ends: &[u32], channel: usize) -> u32
    requires few_branches { branch_count ≤ 2 ^ 32 }
    requires few_channels { channel < 2 ^ 32 }
    ensures { result ≡ half_edge_in branch_count ends.now channel }
{
    at(ends, 4 * (branch_count + channel) + 2)
}

// The place of the lower vertex of a half-edge.
#[tactic(auto, unfolding(crate::specs::Stages::RoundLists::low_in))]
fn low_of(corners: &[u32], centres: &[f64], half_edge: u32) -> Point
    ensures { result ≡ low_in corners.now centres.now half_edge }
{
    point_at(centres, low_at(corners, half_edge) as usize)
}

// The place of the higher vertex of a half-edge.
#[tactic(auto, unfolding(crate::specs::Stages::RoundLists::high_in))]
fn high_of(corners: &[u32], centres: &[f64], half_edge: u32) -> Point
    ensures { result ≡ high_in corners.now centres.now half_edge }
{
    point_at(centres, high_at(corners, half_edge) as usize)
}

// The point `part` of the way from one point to another.
#[tactic(auto, unfolding(crate::specs::Stages::RoundLists::between))]
fn between(start: Point, end: Point, part: f64) -> Point
    ensures { result ≡ between start end part }
{
    Point {
        x: start.x + part * (end.x - start.x),
        y: start.y + part * (end.y - start.y),
    }
}

/// Where a crossing is now.
#[tactic(auto, unfolding(crate::specs::Stages::RoundLists::point_in))]
pub(crate) fn point_of(crossed: &Crossed<'_>, along: &[f64], crossing: usize) -> Point
    requires few_crossings { crossing ≤ 2 ^ 32 }
    ensures { result ≡ crossing_point crossed.now along.now crossing }
{
    let h = edge_of(
        crossed.m,
        crossed.ends,
        at(crossed.numbers, 3 * crossing) as usize,
    );
    between(
        low_of(crossed.corners, crossed.centres, h),
        high_of(crossed.corners, crossed.centres, h),
        number_at(along, crossing),
    )
}

// The point before a crossing of a branch whose path begins with crossing `first`.
#[tactic(auto, unfolding(crate::specs::Stages::RoundLists::before_in))]
fn before_of(fixed: &Fixed<'_>, along: &[f64], branch: u32, first: usize, crossing: u32) -> Point
    ensures { result ≡ before_in (fixed_lists fixed.now) along.now branch first crossing }
{
    if crossing as usize <= first {
        return first_exit(fixed.base, fixed.places, branch as usize);
    }
    point_of(&fixed.crossed, along, crossing as usize - 1)
}

// The point behind a crossing of a branch whose path ends before crossing `past`.
#[tactic(auto, unfolding(crate::specs::Stages::RoundLists::behind_in))]
fn behind_of(fixed: &Fixed<'_>, along: &[f64], branch: u32, past: usize, crossing: u32) -> Point
    ensures { result ≡ behind_in (fixed_lists fixed.now) along.now branch past crossing }
{
    if past <= crossing as usize + 1 {
        return second_exit(fixed.base, fixed.places, branch as usize);
    }
    point_of(&fixed.crossed, along, crossing as usize + 1)
}

/// Where a crossing wishes to be on its channel: where the line through the points before and
/// behind it crosses that; a cleared walk's crossing, and one whose line is parallel to its
/// channel, wishes for its fraction (docs/RULES.md, 'Wishes').
#[tactic(auto, unfolding(crate::specs::Stages::RoundLists::wish_in, plane::specs::Cross::fraction_or))]
pub(crate) fn wish_of(fixed: &Fixed<'_>, along: &[f64], crossing: u32) -> f64
    ensures { result ≡ wish_in (fixed_lists fixed.now) along.now crossing }
{
    let crossed = &fixed.crossed;
    let e = at(crossed.numbers, 3 * crossing as usize + 1);
    let first = at(crossed.ends, 4 * e as usize + 2) as usize;
    let past = first + at(crossed.ends, 4 * e as usize + 3) as usize;
    let t = number_at(along, crossing as usize);
    if past <= crossing as usize {
        return t;
    }
    let h = edge_of(
        crossed.m,
        crossed.ends,
        at(crossed.numbers, 3 * crossing as usize) as usize,
    );
    let p = before_of(fixed, along, e, first, crossing);
    let q = behind_of(fixed, along, e, past, crossing);
    let u = low_of(crossed.corners, crossed.centres, h);
    let w = high_of(crossed.corners, crossed.centres, h);
    match line_param(p, q, u, w) {
        Param::At(wish) => wish,
        Param::Parallel => t,
    }
}
