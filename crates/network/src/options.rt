//! The options of a drawing (docs/RULES.md, 'Options').
ghost use Rattle.std.specs.Prelude.{◌≡◌};
ghost use Rattle.network.specs.Options.{defaults, between, search_fits, block_option_fits};
ghost use Rattle.network.specs.Options.{block_options_fit};
ghost use Rattle.network.specs.Options.{in_range, search_of};
ghost use Rattle.network.specs.declared.options.TheConstants.BlockOptions.{BAR_GAP, PAD, MIN_BAR};
ghost use Rattle.network.specs.declared.options.TheConstants.BlockOptions.{BUFFER};

/// The interior grid, in blocks, and what is kept free around each box.
#[derive(Clone, Copy)]
pub struct BlockOptions {
    /// From one bar to the next.
    pub bar_gap: f64,
    /// Inside each side of a box.
    pub pad: f64,
    /// The shortest bar's length.
    pub min_bar: f64,
    /// Kept free around each box.
    pub buffer: f64,
}

/// The options of a drawing: those of the original's `TxLayoutOptions` that it reads, and the four
/// block options, which are constants in the original.
#[derive(Clone, Copy)]
pub struct Options {
    /// The typical box's larger side, as a share of the median distance between neighbouring
    /// stations.
    pub fill: f64,
    /// A station's neighbours are counted within so many spacings.
    pub tier_radius: f64,
    /// From so many neighbours on a station is drawn at `tier_scale_1`.
    pub tier_count_1: u32,
    /// From so many neighbours on a station is drawn at `tier_scale_2`; this is tested first.
    pub tier_count_2: u32,
    /// The scale of the first tier.
    pub tier_scale_1: f64,
    /// The scale of the second tier.
    pub tier_scale_2: f64,
    /// How many offsets are tried either side of the seed, in each direction.
    pub search: i32,
    /// Rounds of channel spacing; 0 draws lines straight.
    pub route_iterations: u32,
    /// Bar gap, padding, shortest bar and buffer.
    pub block_options: BlockOptions,
}

/// The default options.
impl Default for Options {
    ghost is_default = { λ o. (o ≡ defaults)
        × (o.block_options
        ≡ record { bar_gap = BAR_GAP; pad = PAD; min_bar = MIN_BAR; buffer = BUFFER }) };

    fn default() -> Options {
        Options {
            fill: 0.45,
            tier_radius: 3.0,
            tier_count_1: 12,
            tier_count_2: 30,
            tier_scale_1: 2.0 / 3.0,
            tier_scale_2: 4.0 / 9.0,
            search: 10,
            route_iterations: 10,
            block_options: BlockOptions {
                bar_gap: BlockOptions::BAR_GAP,
                pad: BlockOptions::PAD,
                min_bar: BlockOptions::MIN_BAR,
                buffer: BlockOptions::BUFFER,
            },
        }
    }
}

impl BlockOptions {
    /// The default bar gap.
    pub const BAR_GAP: f64 = 2.0;

    /// The default padding.
    pub const PAD: f64 = 1.0;

    /// The default shortest bar.
    pub const MIN_BAR: f64 = 2.0;

    /// The default buffer.
    pub const BUFFER: f64 = 1.0;
}

impl Options {
    /// The greatest fill; it is above 0.
    pub const FILL_MOST: f64 = 16.0;

    /// The greatest tier radius; the least is 0.
    pub const RADIUS_MOST: f64 = 1000.0;

    /// The least tier scale, 1/64.
    pub const SCALE_LEAST: f64 = 0.015625;

    /// The greatest tier scale.
    pub const SCALE_MOST: f64 = 1.0;

    /// The greatest search; the least is 0.
    pub const SEARCH_MOST: i32 = 20;

    /// The most route iterations; the least is 0.
    pub const ITERATIONS_MOST: u32 = 100;

    /// The least of each of the four block options, in blocks.
    pub const BLOCK_OPTION_LEAST: f64 = 0.5;

    /// The greatest of each of the four block options, in blocks.
    pub const BLOCK_OPTION_MOST: f64 = 8.0;

    /// Whether every option is in its range: else refusal 5 stands.
    #[tactic(auto, unfolding(crate::specs::Options::in_range))]
    pub fn in_range(self) -> bool
        ensures { result ≡ in_range self }
    {
        0.0 < self.fill
            && self.fill <= Options::FILL_MOST
            && between(0.0, self.tier_radius, Options::RADIUS_MOST)
            && between(Options::SCALE_LEAST, self.tier_scale_1, Options::SCALE_MOST)
            && between(Options::SCALE_LEAST, self.tier_scale_2, Options::SCALE_MOST)
            && search_fits(self.search)
            && block_options_fit(self.block_options)
            && self.route_iterations <= Options::ITERATIONS_MOST
    }
}

// Whether least <= number <= most.
#[tactic(auto, unfolding(crate::specs::Options::between))]
fn between(least: f64, number: f64, most: f64) -> bool
    ensures { result ≡ between least number most }
{
    least <= number && number <= most
}

// Whether a search is in its range.
#[tactic(auto, unfolding(crate::specs::Options::search_fits))]
fn search_fits(search: i32) -> bool
    ensures { result ≡ search_fits search }
{
    0 <= search && search <= Options::SEARCH_MOST
}

// Whether a block option is in its range.
#[tactic(auto, unfolding(crate::specs::Options::block_option_fits))]
fn block_option_fits(option: f64) -> bool
    ensures { result ≡ block_option_fits option }
{
    between(
        Options::BLOCK_OPTION_LEAST,
        option,
        Options::BLOCK_OPTION_MOST,
    )
}

// Whether each of the four block options is in its range.
#[tactic(auto, unfolding(crate::specs::Options::block_options_fit))]
fn block_options_fit(block_options: BlockOptions) -> bool
    ensures { result ≡ block_options_fit block_options }
{
    block_option_fits(block_options.bar_gap)
        && block_option_fits(block_options.pad)
        && block_option_fits(block_options.min_bar)
        && block_option_fits(block_options.buffer)
}

/// A search as a number of offsets, 0 where it is below 0.
#[tactic(auto, unfolding(crate::specs::Options::search_of))]
pub fn search_of(search: i32) -> usize
    ensures { result ≡ search_of search }
{
    search.max(0) as usize
}
