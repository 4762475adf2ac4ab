//! The width and height of each station, in blocks (docs/RULES.md, 'Sizes').
ghost use Rattle.std.specs.Prelude.{◌≡◌, ◌*◌, ◌≤◌, ◌<◌, ltb, length, get_or, take};
ghost use Rattle.network.specs.Words.{occupied};
ghost use Rattle.network.specs.Views.{counts_in};
ghost use Rattle.stations.specs.Size.{width_for, height_for, sides};
ghost use Rattle.stations.specs.Stages.Views.{sizes_in};
ghost use Rattle.stations.specs.Stages.Lent.{station_sizes};

use network::lists::Stations;
use network::options::BlockOptions;
use numbers::float::small::max;

/// k stations with their sizes in blocks.
#[derive(Clone, Copy)]
pub struct Measured<'a> {
    /// How many stations.
    pub k: usize,
    /// Two numbers of each station, of which the first is how many buses it has.
    pub counts: &'a [u32],
    /// Three numbers of each station: its width and height in blocks, and its scale.
    pub blocks: &'a [f64],
    pub ghost counted: { 2 * k ≤ length counts.now },
    pub ghost measured: { 3 * k ≤ length blocks.now },
}

impl Measured<'_> {
    /// Whether a station has buses.
    pub fn is_occupied(&self, station: usize) -> bool
        requires { station < self.now.k }
        ensures { result ≡ ltb 0 (get_or self.now.counts.now (2 * station) 0) }
    {
        0 < self.counts[2 * station]
    }
}

// The width of a station with so many buses: one bar gap for each beside the first.
fn width(block_options: BlockOptions, buses: u32) -> f64
    ensures { result ≡ width_for block_options buses }
{
    block_options.bar_gap * (buses.saturating_sub(1) as f64) + 2.0 * block_options.pad
}

// The height of a station with so many rows.
fn height(block_options: BlockOptions, rows: u32) -> f64
    ensures { result ≡ height_for block_options rows }
{
    max(rows as f64, block_options.min_bar) + 2.0 * block_options.pad
}

/// The sizes of the stations in blocks, the first two of three numbers of each in `blocks`.
/// `stations` has the bus count and the row count of each.
pub fn sizes(block_options: BlockOptions, stations: &Stations<'_>, blocks: &mut [f64])
    requires { 3 * stations.now.k ≤ length blocks.old }
    ensures { sizes_in stations.now.k blocks.new ≡ station_sizes block_options stations.now }
{
    for s in 0..stations.k {
        blocks[3 * s] = width(block_options, stations.counts[2 * s]);
        blocks[3 * s + 1] = height(block_options, stations.counts[2 * s + 1]);
    }
}

// The larger side of each occupied station at the front of `frames`, and how many they are.
pub(crate) fn sides(measured: &Measured<'_>, frames: &mut [f64]) -> usize
    requires { measured.now.k ≤ length frames.old }
    ensures sides_written { take result frames.new
        ≡ sides (sizes_in measured.now.k measured.now.blocks.now)
        (occupied (counts_in measured.now.k measured.now.counts.now)) }
    ensures upper_bound { result ≤ measured.now.k }
{
    let blocks = measured.blocks;
    let mut r = 0;
    for s in 0..measured.k {
        if measured.is_occupied(s) {
            frames[r] = max(blocks[3 * s], blocks[3 * s + 1]);
            r += 1;
        }
    }
    r
}
