//! The scale of each station by the number of its neighbours (docs/RULES.md, 'Scales').
ghost use Rattle.std.specs.Prelude.{◌≡◌, ◌*◌, ◌^◌, ◌<◌, ◌≤◌, length};
ghost use Rattle.network.specs.Words.{occupied};
ghost use Rattle.network.specs.Lent.{station_counts};
ghost use Rattle.stations.specs.Scale.{tier, scales_of};
ghost use Rattle.stations.specs.Stages.Views.{sizes_in, scales_in};

use network::lists::Stations;
use network::options::Options;
use plane::neighbours::neighbour_counts;
use plane::neighbours::points::Points;

// The scale of a station with so many neighbours. The second tier is tested first.
fn tier(options: Options, count: usize) -> f64
    ensures { result ≡ tier options count }
{
    if options.tier_count_2 as usize <= count {
        return options.tier_scale_2;
    }
    if options.tier_count_1 as usize <= count {
        return options.tier_scale_1;
    }
    1.0
}

// The scales of the stations, the third of three numbers of each in `blocks`: by the spacing and
// the points of the occupied ones. The scale of a station without buses is 1. `keys`, `sorted`
// and `spare` are work lists.
pub(crate) fn scales(
    options: Options,
    stations: &Stations<'_>,
    points: &Points<'_>,
    spacing: f64,
    blocks: &mut [f64],
    keys: &mut [u64],
    sorted: &mut [u32],
    spare: &mut [u32],
)
    requires points_occupied { points.now.n ≡ length (occupied (station_counts stations.now)) }
    requires few_points { points.now.n < 2 ^ 32 }
    requires blocks_room { 3 * stations.now.k ≤ length blocks.old }
    requires keys_room { points.now.n ≤ length keys.old }
    requires sorted_room { points.now.n ≤ length sorted.old }
    requires spare_room { points.now.n ≤ length spare.old }
    ensures scales_written { scales_in stations.now.k blocks.new
        ≡ scales_of options points.now.xy.now points.now.n spacing (station_counts stations.now) }
    ensures sizes_kept { sizes_in stations.now.k blocks.new ≡ sizes_in stations.now.k blocks.old }
{
    neighbour_counts(points, options.tier_radius * spacing, spare, keys, sorted);
    let mut j = 0;
    for s in 0..stations.k {
        if stations.is_occupied(s) {
            blocks[3 * s + 2] = tier(options, spare[j] as usize);
            j += 1;
        } else {
            blocks[3 * s + 2] = 1.0;
        }
    }
}
