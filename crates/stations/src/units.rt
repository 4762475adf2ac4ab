//! Spacing, the typical side and the unit (docs/RULES.md, 'Spacing and unit').
ghost use Rattle.std.specs.Prelude.{◌≡◌, ◌*◌, ◌≤◌, ◌^◌, length, take, unwrap_or};
ghost use Rattle.numbers.specs.Ops.{f1};
ghost use Rattle.numbers.specs.Median.{median_of};
ghost use Rattle.network.specs.Words.{occupied};
ghost use Rattle.network.specs.Views.{points_in};
ghost use Rattle.network.specs.Lent.{station_counts};
ghost use Rattle.stations.specs.Unit.{coordinates, spacing_of, typical, unit_for};
ghost use Rattle.stations.specs.Stages.Measured.{measured_sizes, measured_counts};

use crate::sizes::Measured;
use network::lists::Stations;
use numbers::float::small::max;
use plane::neighbours::nearest_neighbour_distances;
use plane::neighbours::points::Points;

/// The points of the occupied stations at the front of `path`, two numbers of each, and how many
/// they are. `places` has those of all stations.
pub fn coordinates(stations: &Stations<'_>, places: &[f64], path: &mut [f64]) -> usize
    requires places_room { 2 * stations.now.k ≤ length places.now }
    requires path_room { 2 * stations.now.k ≤ length path.old }
    ensures coordinates_written { take (2 * result) path.new
        ≡ coordinates (points_in stations.now.k places.now)
        (occupied (station_counts stations.now)) }
    ensures occupied_count { result ≡ length (occupied (station_counts stations.now)) }
    ensures upper_bound { result ≤ stations.now.k }
{
    let mut r = 0;
    for s in 0..stations.k {
        if stations.is_occupied(s) {
            path[2 * r] = places[2 * s];
            path[2 * r + 1] = places[2 * s + 1];
            r += 1;
        }
    }
    r
}

// The spacing of points: the median of each one's least positive distance to another, 1 where
// there is none. The other lists are work lists.
pub(crate) fn spacing(
    points: &Points<'_>,
    frames: &mut [f64],
    keys: &mut [u64],
    sorted: &mut [u32],
    spare: &mut [u32],
) -> f64
    requires few_points { points.now.n ≤ 2 ^ 32 }
    requires frames_room { points.now.n ≤ length frames.old }
    requires keys_room { points.now.n ≤ length keys.old }
    requires sorted_room { points.now.n ≤ length sorted.old }
    requires spare_room { points.now.n ≤ length spare.old }
    ensures { result ≡ spacing_of points.now.xy.now points.now.n }
{
    nearest_neighbour_distances(points, frames, keys, sorted, spare);
    numbers::order::median(&frames[..points.n], keys, sorted, spare).unwrap_or(1.0)
}

// The typical side, in blocks: the median larger side of the occupied stations, at least 1. The
// other lists are work lists.
pub(crate) fn typical(
    measured: &Measured<'_>,
    frames: &mut [f64],
    keys: &mut [u64],
    sorted: &mut [u32],
    spare: &mut [u32],
) -> f64
    requires few_stations { measured.now.k ≤ 2 ^ 32 }
    requires frames_room { measured.now.k ≤ length frames.old }
    requires keys_room { measured.now.k ≤ length keys.old }
    requires sorted_room { measured.now.k ≤ length sorted.old }
    requires spare_room { measured.now.k ≤ length spare.old }
    ensures { result ≡ typical (measured_sizes measured.now) (measured_counts measured.now) }
{
    let r = crate::sizes::sides(measured, frames);
    let median = numbers::order::median(&frames[..r], keys, sorted, spare);
    max(median.unwrap_or(1.0), 1.0)
}

// The unit by a fill, the spacing and the typical side.
pub(crate) fn unit_for(fill: f64, spacing: f64, side: f64) -> f64
    ensures { result ≡ unit_for fill spacing side }
{
    fill * spacing / side
}
