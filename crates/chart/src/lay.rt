//! A drawing laid out in the work lists.
ghost use Rattle.std.specs.Prelude.{◌≡◌, ◌≤◌, false, not, ◌&&◌, length};
ghost use Rattle.network.specs.Options.{search_of};
ghost use Rattle.network.specs.Words.{station_count, bus_counts};
ghost use Rattle.network.specs.Views.{counts_in};
ghost use Rattle.drawing.specs.Network.{network_of};
ghost use Rattle.drawing.specs.Drawing.{all_free};
ghost use Rattle.lent.specs.Held.{held_work, SameWork, LongWork};
ghost use Rattle.chart.specs.Stages.Lengths.{StationRoom, SortRoom};
ghost use Rattle.chart.specs.Stages.LaidOut.{PreparedIn, SeededIn, LaidIn};
ghost use Rattle.chart.specs.Stages.LaidOut.{PreparedKept};

use lent::Work;
use network::lists::{Bounded, Buses, Stations};
use network::options::{Options, search_of};
use network::seeds::seeds;
use placement::plan::{measure_stations, place_stations};
use routing::exits::write_exits;
use stations::measures::{Measures, Typical};
use stations::spans::spans;

// The search of these options, 0 where it is below 0.
#[tactic(auto, using(crate::proofs::Laying::search_laws))]
fn search_in(options: Options) -> usize
    ensures { result ≡ search_of options.search }
{
    search_of(options.search)
}

/// What is the same at every fill: rows, columns, spans, sizes and scales; the stations stand on
/// their seeds. Answers what the unit follows from.
///
/// `stations` is the stations' number, which the caller has counted. The fill and the iterations
/// aren't read. Of what `sorted`, `spare`, `keys`, `frames` and `path` hold afterwards nothing is
/// said: they are room for sorts and points, and what follows writes before it reads.
pub fn prepare(work: &mut Work<'_>, options: Options, net: &Bounded<'_>, stations: usize) -> Typical
    requires counted { stations ≡ station_count net.now.lists.sub.now }
    requires few_stations { stations ≤ length net.now.lists.sub.now }
    requires each_voltage { length net.now.lists.kv.now ≡ length net.now.lists.sub.now }
    requires station_room { StationRoom (network_of net.now.lists) (held_work work.old) }
    requires sort_room { SortRoom (network_of net.now.lists) (held_work work.old) }
    ensures same { SameWork work.new work.old }
    ensures long { LongWork work.new work.old }
    ensures prepared { PreparedIn options (network_of net.now.lists) stations result
        (held_work work.new) }
    ensures seeded { SeededIn (network_of net.now.lists) stations (held_work work.new) }
{
    let typical = measure_stations(
        options,
        net,
        stations,
        work.stations,
        work.buses,
        work.ends,
        work.sorted,
        work.spare,
        work.keys,
        work.places,
        work.blocks,
        work.frames,
        work.path,
    );
    let ends = &mut *work.ends;
    spans(net, ends, work.buses);
    typical
}

/// The stations back on their seeds. What is the same at every fill is kept; of the other lists
/// nothing is said, since what follows writes before it reads.
pub fn seed_again(work: &mut Work<'_>, net: &Bounded<'_>, stations: usize)
    requires counted { stations ≡ station_count net.now.lists.sub.now }
    requires few_stations { stations ≤ length net.now.lists.sub.now }
    requires bus_counts { counts_in stations work.old.stations.now
        ≡ bus_counts net.now.lists.sub.now }
    requires station_room { StationRoom (network_of net.now.lists) (held_work work.old) }
    ensures same { SameWork work.new work.old }
    ensures long { LongWork work.new work.old }
    ensures kept { PreparedKept (network_of net.now.lists) stations (held_work work.new)
        (held_work work.old) }
    ensures seeded { SeededIn (network_of net.now.lists) stations (held_work work.new) }
{
    let counts = &mut *work.stations;
    seeds(
        net.lists.sub,
        net.lists.xy,
        &Stations {
            k: stations,
            counts,
        },
        work.places,
    );
}

/// How a drawing was laid out.
#[derive(Clone, Copy)]
pub struct Laying {
    /// The unit.
    pub unit: f64,
    /// Whether each station found a free place.
    pub all_free: bool,
}

/// Lays a drawing out that is prepared: places and boxes of its stations, and the exits of its
/// lines.
///
/// With `only_free` it gives up at the first station that finds no free place; the lists then hold
/// no drawing, but what is the same at every fill. Of what `sorted`, `spare`, `keys` and `path` hold
/// afterwards nothing is said: they are room for sorts and for the kept boxes.
#[tactic(auto, using(crate::proofs::Laying::station_few))]
pub fn lay_out(
    work: &mut Work<'_>,
    options: Options,
    net: &Bounded<'_>,
    stations: usize,
    typical: Typical,
    only_free: bool,
) -> Laying
    requires counted { stations ≡ station_count net.now.lists.sub.now }
    requires few_stations { stations ≤ length net.now.lists.sub.now }
    requires each_voltage { length net.now.lists.kv.now ≡ length net.now.lists.sub.now }
    requires short_search { search_of options.search ≤ 20 }
    requires station_room { StationRoom (network_of net.now.lists) (held_work work.old) }
    requires sort_room { SortRoom (network_of net.now.lists) (held_work work.old) }
    requires prepared { PreparedIn options (network_of net.now.lists) stations typical
        (held_work work.old) }
    requires seeded { SeededIn (network_of net.now.lists) stations (held_work work.old) }
    ensures same { SameWork work.new work.old }
    ensures long { LongWork work.new work.old }
    ensures prepared { PreparedIn options (network_of net.now.lists) stations typical
        (held_work work.new) }
    ensures free { result.all_free ≡ all_free options (network_of net.now.lists) }
    ensures laid { only_free && not result.all_free ≡ false
        → LaidIn options (network_of net.now.lists) stations result.unit (held_work work.new) }
{
    let unit = typical.unit(options.fill);
    let search = search_in(options);
    let block_options = options.block_options;
    let measures = Measures {
        unit,
        block_options,
    };
    let blocks = &mut *work.blocks;
    let all_free = place_stations(
        &Buses {
            sub: net.lists.sub,
            kv: net.lists.kv,
        },
        stations,
        measures,
        search,
        only_free,
        work.stations,
        work.sorted,
        work.spare,
        work.keys,
        blocks,
        work.places,
        work.frames,
    );
    let ends = &mut *work.ends;
    let frames = &mut *work.frames;
    write_exits(net, measures, ends, blocks, frames, work.places);
    Laying { unit, all_free }
}
