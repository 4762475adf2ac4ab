//! The stages of a drawing, joined: interiors, then places.
ghost use Rattle.std.specs.Prelude.{◌≡◌, ◌+◌, ◌*◌, ◌≤◌, false, not, ◌&&◌, length};
ghost use Rattle.network.specs.Words.{station_count, bus_counts};
ghost use Rattle.network.specs.Views.{counts_in, points_in};
ghost use Rattle.network.specs.Seed as Seed;
ghost use Rattle.network.specs.Lent.{bus_total, branch_total};
ghost use Rattle.offsets.specs.Offset.{offsets};
ghost use Rattle.placement.specs.Turns.{placement_order};
ghost use Rattle.placement.specs.Place.{all_find_free};
ghost use Rattle.placement.specs.Stages.Views.{half_sides_listed};
ghost use Rattle.placement.specs.Stages.Plan.{InteriorsOf, Settled};

use crate::search::{place_by_table, station_boxes};
use crate::turns::placement_order;
use network::lists::{Bounded, Buses, Stations};
use network::options::Options;
use network::seeds::seeds;
use network::words::bus_counts;
use stations::columns::columns;
use stations::measures::{Measures, Typical, sizes_and_scales};
use stations::rows::rows;
use stations::sizes::Measured;

/// The bus counts of the stations, their seeds, the buses' columns, the branches' rows, and the
/// stations' sizes and scales: all that is the same at every fill. Answers what the unit follows
/// from. The caller has counted the stations. `sorted`, `spare`, `keys`, `frames` and `path` are
/// work lists.
pub fn measure_stations(
    options: Options,
    net: &Bounded<'_>,
    station_total: usize,
    stations: &mut [u32],
    buses: &mut [u32],
    ends: &mut [u32],
    sorted: &mut [u32],
    spare: &mut [u32],
    keys: &mut [u64],
    places: &mut [f64],
    blocks: &mut [f64],
    frames: &mut [f64],
    path: &mut [f64],
) -> Typical
    requires counted { station_total ≡ station_count net.now.lists.sub.now }
    requires kv_length { length net.now.lists.kv.now ≡ bus_total net.now.lists }
    requires at_most_buses { station_total ≤ bus_total net.now.lists }
    requires stations_room { 2 * station_total ≤ length stations.old }
    requires buses_room { 3 * bus_total net.now.lists ≤ length buses.old }
    requires ends_room { 4 * branch_total net.now.lists ≤ length ends.old }
    requires sorted_room { bus_total net.now.lists + 2 * branch_total net.now.lists
        ≤ length sorted.old }
    requires spare_room { bus_total net.now.lists + 2 * branch_total net.now.lists
        ≤ length spare.old }
    requires keys_room { bus_total net.now.lists + 2 * branch_total net.now.lists
        ≤ length keys.old }
    requires places_room { 2 * station_total ≤ length places.old }
    requires blocks_room { 3 * station_total ≤ length blocks.old }
    requires frames_room { 4 * station_total ≤ length frames.old }
    requires path_room { 2 * station_total ≤ length path.old }
    ensures measured { InteriorsOf options net.now.lists station_total result stations.new
        buses.new ends.new blocks.new }
    ensures seeded { points_in station_total places.new
        ≡ Seed.seeds net.now.lists.sub.now net.now.lists.xy.now }
{
    bus_counts(net.lists.sub, station_total, stations);
    seeds(
        net.lists.sub,
        net.lists.xy,
        &Stations {
            k: station_total,
            counts: stations,
        },
        places,
    );
    columns(
        &Buses {
            sub: net.lists.sub,
            kv: net.lists.kv,
        },
        station_total,
        stations,
        buses,
        keys,
        sorted,
        spare,
    );
    rows(
        &net.lists,
        places,
        station_total,
        stations,
        ends,
        keys,
        sorted,
        spare,
    );
    sizes_and_scales(
        options,
        &Stations {
            k: station_total,
            counts: stations,
        },
        places,
        blocks,
        frames,
        path,
        keys,
        sorted,
        spare,
    )
}

/// The places of the stations, from their seeds in `places`, and their boxes, in `frames`; the
/// order of placement is left in every second number of `stations`, beside the bus counts.
/// Answers whether each station found a free place. With `only_free` it gives up at the first that
/// finds none; `places` and `frames` then hold no drawing. `blocks` has sizes and scales, three
/// numbers of each station. `sorted`, `spare` and `keys` are work lists.
pub fn place_stations(
    lent: &Buses<'_>,
    station_total: usize,
    measures: Measures,
    search: usize,
    only_free: bool,
    stations: &mut [u32],
    sorted: &mut [u32],
    spare: &mut [u32],
    keys: &mut [u64],
    blocks: &[f64],
    places: &mut [f64],
    frames: &mut [f64],
) -> bool
    requires search_fits { search ≤ 20 }
    requires few_stations { station_total ≤ 4096 }
    requires bus_counts { counts_in station_total stations.old ≡ bus_counts lent.now.sub.now }
    requires stations_room { 2 * station_total ≤ length stations.old }
    requires sorted_room { station_total ≤ length sorted.old }
    requires spare_room { station_total ≤ length spare.old }
    requires keys_room { station_total ≤ length keys.old }
    requires blocks_room { 3 * station_total ≤ length blocks.now }
    requires places_room { 2 * station_total ≤ length places.old }
    requires frames_room { 4 * station_total ≤ length frames.old }
    ensures counts { counts_in station_total stations.new ≡ bus_counts lent.now.sub.now }
    ensures free { result
        ≡ all_find_free (half_sides_listed measures station_total blocks.now) (offsets search)
        (points_in station_total places.old)
        (placement_order lent.now.sub.now lent.now.kv.now (bus_counts lent.now.sub.now)) }
    ensures settled { only_free && not result ≡ false
        → Settled lent.now.sub.now lent.now.kv.now station_total measures search blocks.now
        (points_in station_total places.old) stations.new places.new frames.new }
{
    let r = placement_order(lent, station_total, stations, keys, sorted, spare);
    let measured = Measured {
        k: station_total,
        counts: stations,
        blocks,
    };
    let all_free = place_by_table(
        &measured, r, measures, search, only_free, places, frames, keys, sorted,
    );
    station_boxes(&measured, measures, places, frames);
    all_free
}
