//! Refusal 8: whether the greatest side of the occupied stations' boxes is 0, or an edge of one of
//! them is above 2^40 times that side in magnitude (docs/RULES.md, 'Refusals').
ghost use Rattle.std.specs.Prelude.{◌≡◌, ◌+◌, ◌*◌, ◌≤◌, ◌<◌, ltb, length};
ghost use Rattle.numbers.specs.Ops.{f0};
ghost use Rattle.network.specs.Words.{occupied};
ghost use Rattle.network.specs.Views.{counts_in};
ghost use Rattle.network.specs.Lent.{placed_counts, placed_boxes};
ghost use Rattle.placement.specs.Sized.{larger_side, largest, sized, sized_box, all_sized};
ghost use Rattle.placement.specs.Sized.{ill_sized};

use network::lists::Placed;
use numbers::float::small::{abs, max};
use plane::geometry::{Box, box_at};

// The largest of a side and a box's two sides.
fn larger_side(side: f64, outer: Box) -> f64
    ensures { result ≡ larger_side side outer }
{
    max(
        max(side, outer.right - outer.left),
        outer.bottom - outer.top,
    )
}

/// The largest side of the occupied stations' boxes, 0 without such stations.
#[tactic(auto, using(crate::proofs::sized::Sizing::onward_laws), unfolding(crate::specs::Sized::largest))]
pub fn largest(placed: &Placed<'_>) -> f64
    ensures { result
        ≡ largest (placed_boxes placed.now) f0 (occupied (placed_counts placed.now)) }
{
    let mut l = 0.0;
    for s in 0..placed.k {
        if placed.is_occupied(s) {
            l = larger_side(l, box_at(placed.frames, s));
        }
    }
    l
}

/// Whether a corner's coordinate divided by the largest side is at most 2^40 in size.
#[tactic(auto, unfolding(crate::specs::Sized::sized))]
pub fn sized(side: f64, coordinate: f64) -> bool
    ensures { result ≡ sized side coordinate }
{
    abs(coordinate / side) <= 1099511627776.0
}

// Whether each coordinate of a box's corners, divided by the largest side, is at most 2^40 in size.
#[tactic(auto, unfolding(crate::specs::Sized::sized_box))]
fn sized_box(side: f64, outer: Box) -> bool
    ensures { result ≡ sized_box side outer }
{
    sized(side, outer.left)
        && sized(side, outer.top)
        && sized(side, outer.right)
        && sized(side, outer.bottom)
}

// Whether that holds of all occupied stations' boxes.
#[tactic(auto, using(crate::proofs::sized::Sizing::onward_laws), unfolding(crate::specs::Sized::all_sized))]
fn all_sized(placed: &Placed<'_>, side: f64) -> bool
    ensures { result
        ≡ all_sized (placed_boxes placed.now) side (occupied (placed_counts placed.now)) }
{
    for s in 0..placed.k {
        if placed.is_occupied(s) {
            if !sized_box(side, box_at(placed.frames, s)) {
                return false;
            }
        }
    }
    true
}

/// Whether any station has buses, by two numbers of each, of which the first is how many.
#[tactic(auto, using(crate::proofs::sized::Sizing::onward_laws))]
pub fn any_occupied(station_total: usize, stations: &[u32]) -> bool
    requires { 2 * station_total ≤ length stations.now }
    ensures { result ≡ ltb 0 (length (occupied (counts_in station_total stations.now))) }
{
    for s in 0..station_total {
        if 0 < stations[2 * s] {
            return true;
        }
    }
    false
}

/// Refusal 8, by the stations' bus counts and boxes; it doesn't stand where no station has buses.
#[tactic(auto, using(crate::proofs::sized::Sizing::ill_laws))]
pub fn ill_sized(placed: &Placed<'_>) -> bool
    ensures { result ≡ ill_sized (placed_boxes placed.now) (occupied (placed_counts placed.now)) }
{
    if any_occupied(placed.k, placed.stations) {
        let l = largest(placed);
        if l == 0.0 {
            return true;
        }
        return !all_sized(placed, l);
    }
    false
}
