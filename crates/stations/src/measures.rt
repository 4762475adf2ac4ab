//! Sizes, spacing, the unit and scales, joined.
ghost use Rattle.std.specs.Prelude.{◌≡◌, ◌*◌, ◌≤◌, length};
ghost use Rattle.network.specs.Views.{points_in};
ghost use Rattle.network.specs.Lent.{station_counts};
ghost use Rattle.stations.specs.Unit as Unit;
ghost use Rattle.stations.specs.Scale as Scale;
ghost use Rattle.stations.specs.Stages.Views.{sizes_in, scales_in};
ghost use Rattle.stations.specs.Stages.Lent.{station_sizes, station_spacing};

use crate::sizes::Measured;
use network::lists::Stations;
use network::options::{BlockOptions, Options};
use plane::neighbours::points::Points;

/// What interiors are measured by.
#[derive(Clone, Copy)]
pub struct Measures {
    /// The length of a block of scale 1.
    pub unit: f64,
    /// The block options, in blocks.
    pub block_options: BlockOptions,
}

/// What the unit at any fill follows from.
#[derive(Clone, Copy)]
pub struct Typical {
    /// The median distance between neighbouring stations' seeds.
    pub spacing: f64,
    /// The median larger side of a station, in blocks.
    pub side: f64,
}

impl Typical {
    /// The unit at a fill (docs/RULES.md, 'Spacing and unit').
    pub fn unit(self, fill: f64) -> f64
        ensures { result ≡ Unit.unit_for fill self.spacing self.side }
    {
        crate::units::unit_for(fill, self.spacing, self.side)
    }
}

/// The spacing of the stations and their typical side; and their sizes in blocks and their scales,
/// in `blocks`, three numbers of each. `stations` has the bus count and the row count of each,
/// `places` their seeds. The other lists are work lists (docs/RULES.md, 'Sizes', 'Spacing and unit'
/// and 'Scales').
pub fn sizes_and_scales(
    options: Options,
    stations: &Stations<'_>,
    places: &[f64],
    blocks: &mut [f64],
    frames: &mut [f64],
    path: &mut [f64],
    keys: &mut [u64],
    sorted: &mut [u32],
    spare: &mut [u32],
) -> Typical
    requires few_stations { stations.now.k ≤ 4096 }
    requires places_room { 2 * stations.now.k ≤ length places.now }
    requires blocks_room { 3 * stations.now.k ≤ length blocks.old }
    requires frames_room { stations.now.k ≤ length frames.old }
    requires path_room { 2 * stations.now.k ≤ length path.old }
    requires keys_room { stations.now.k ≤ length keys.old }
    requires sorted_room { stations.now.k ≤ length sorted.old }
    requires spare_room { stations.now.k ≤ length spare.old }
    ensures spacing_is { result.spacing ≡ station_spacing stations.now places.now }
    ensures side_is { result.side
        ≡ Unit.typical (station_sizes options.block_options stations.now) (station_counts
        stations.now) }
    ensures sizes_written { sizes_in stations.now.k blocks.new
        ≡ station_sizes options.block_options stations.now }
    ensures scales_written { scales_in stations.now.k blocks.new
        ≡ Scale.scales options (points_in stations.now.k places.now) (station_counts stations.now)
        (station_spacing stations.now places.now) }
{
    crate::sizes::sizes(options.block_options, stations, blocks);
    let n = crate::units::coordinates(stations, places, path);
    let points = Points { n, xy: path };
    let spacing = crate::units::spacing(&points, frames, keys, sorted, spare);
    let measured = Measured {
        k: stations.k,
        counts: stations.counts,
        blocks,
    };
    let side = crate::units::typical(&measured, frames, keys, sorted, spare);
    crate::scales::scales(
        options, stations, &points, spacing, blocks, keys, sorted, spare,
    );
    Typical { spacing, side }
}
