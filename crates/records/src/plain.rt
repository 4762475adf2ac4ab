// Options and answers as structs of plain numbers, laid out as in C.
ghost use Rattle.std.specs.Prelude.{◌≡◌};
ghost use Rattle.records.specs.Plain.{options_of, plotted, filled, audited};

use audit::findings::answer::Figures;
use drawing::answer::Plot;
use fill::answer::Largest;
use network::options::{BlockOptions, Options};
use network::refusals::Refusal;

/// The options of a drawing (docs/RULES.md, 'Options'), `tansygate_settings` of the header.
#[repr(C)]
#[derive(Clone, Copy)]
pub struct Settings {
    /// Typical box size, in median spacings: above 0, at most 16.
    pub fill: f64,
    /// Neighbours are counted within so many spacings: 0 to 1,000.
    pub tier_radius: f64,
    /// From so many neighbours a station is drawn at `tier_scale_1`.
    pub tier_count_1: u32,
    /// From so many at `tier_scale_2`.
    pub tier_count_2: u32,
    /// 1/64 to 1.
    pub tier_scale_1: f64,
    /// 1/64 to 1.
    pub tier_scale_2: f64,
    /// Offsets on either side of a seed: 0 to 20.
    pub search: i32,
    /// Rounds of channel spacing: 0 to 100; 0 draws lines straight.
    pub route_iterations: u32,
    /// From one bar to the next, in blocks: 0.5 to 8, as the three below.
    pub bar_gap: f64,
    /// From each side of a box to its bars and rows.
    pub pad: f64,
    /// The shortest bar.
    pub min_bar: f64,
    /// Kept free around each box.
    pub buffer: f64,
}

/// A drawing's answer: number 0 with the unit, the bounds and the count of pieces, or a refusal's
/// number and zeros.
#[repr(C)]
#[derive(Clone, Copy)]
pub struct Plotted {
    /// 0, or a refusal's number (docs/RULES.md, 'Refusals').
    pub number: u32,
    /// So many pieces stand in the lent piece lists.
    pub pieces: usize,
    /// Drawing units a block.
    pub unit: f64,
    /// The bounds, as the three below.
    pub left: f64,
    pub top: f64,
    pub right: f64,
    pub bottom: f64,
}

/// The answer of the largest fill: number 0 with the fill, and the unit, the bounds and the count of
/// pieces of its drawing, or a refusal's number and zeros.
#[repr(C)]
#[derive(Clone, Copy)]
pub struct Filled {
    /// 0, or a refusal's number (docs/RULES.md, 'Refusals').
    pub number: u32,
    /// The fill, in sixty-fourths.
    pub sixty_fourths: u32,
    /// So many pieces stand in the lent piece lists.
    pub pieces: usize,
    /// Drawing units a block.
    pub unit: f64,
    /// The bounds, as the three below.
    pub left: f64,
    pub top: f64,
    pub right: f64,
    pub bottom: f64,
}

/// An audit's answer: number 0 with the four counts, or a refusal's number and zeros.
#[repr(C)]
#[derive(Clone, Copy)]
pub struct Audited {
    /// 0, or a refusal's number (docs/RULES.md, 'Refusals').
    pub number: u32,
    /// Occupied stations: so many figures stand in displacement and spacing.
    pub stations: usize,
    /// Pairs of their boxes that overlap.
    pub overlaps: usize,
    /// Pieces of lines that run through a box of another station.
    pub through: usize,
    /// Relative lengths.
    pub relative: usize,
}

// Settings as options.
impl From<Settings> for Options {
    ghost from_gives = { λ s o. o ≡ options_of s };

    #[tactic(auto, unfolding(crate::specs::Plain::options_of))]
    fn from(settings: Settings) -> Options {
        Options {
            fill: settings.fill,
            tier_radius: settings.tier_radius,
            tier_count_1: settings.tier_count_1,
            tier_count_2: settings.tier_count_2,
            tier_scale_1: settings.tier_scale_1,
            tier_scale_2: settings.tier_scale_2,
            search: settings.search,
            route_iterations: settings.route_iterations,
            block_options: BlockOptions {
                bar_gap: settings.bar_gap,
                pad: settings.pad,
                min_bar: settings.min_bar,
                buffer: settings.buffer,
            },
        }
    }
}

// A drawing's answer as numbers.
impl From<Result<Plot, Refusal>> for Plotted {
    ghost from_gives = { λ a p. p ≡ plotted a };

    #[tactic(auto, unfolding(crate::specs::Plain::plotted))]
    fn from(answer: Result<Plot, Refusal>) -> Plotted {
        match answer {
            Ok(p) => Plotted {
                number: 0,
                pieces: p.pieces,
                unit: p.unit,
                left: p.bounds.left,
                top: p.bounds.top,
                right: p.bounds.right,
                bottom: p.bounds.bottom,
            },
            Err(r) => Plotted {
                number: r.number(),
                pieces: 0,
                unit: 0.0,
                left: 0.0,
                top: 0.0,
                right: 0.0,
                bottom: 0.0,
            },
        }
    }
}

// The answer of the largest fill as numbers.
impl From<Result<Largest, Refusal>> for Filled {
    ghost from_gives = { λ a p. p ≡ filled a };

    #[tactic(auto, unfolding(crate::specs::Plain::filled))]
    fn from(answer: Result<Largest, Refusal>) -> Filled {
        match answer {
            Ok(l) => Filled {
                number: 0,
                sixty_fourths: l.sixty_fourths,
                pieces: l.plot.pieces,
                unit: l.plot.unit,
                left: l.plot.bounds.left,
                top: l.plot.bounds.top,
                right: l.plot.bounds.right,
                bottom: l.plot.bounds.bottom,
            },
            Err(r) => Filled {
                number: r.number(),
                sixty_fourths: 0,
                pieces: 0,
                unit: 0.0,
                left: 0.0,
                top: 0.0,
                right: 0.0,
                bottom: 0.0,
            },
        }
    }
}

// An audit's answer as numbers.
impl From<Result<Figures, Refusal>> for Audited {
    ghost from_gives = { λ a q. q ≡ audited a };

    #[tactic(auto, unfolding(crate::specs::Plain::audited))]
    fn from(answer: Result<Figures, Refusal>) -> Audited {
        match answer {
            Ok(f) => Audited {
                number: 0,
                stations: f.stations,
                overlaps: f.overlaps,
                through: f.through,
                relative: f.relative,
            },
            Err(r) => Audited {
                number: r.number(),
                stations: 0,
                overlaps: 0,
                through: 0,
                relative: 0,
            },
        }
    }
}
