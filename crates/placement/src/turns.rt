//! The order of placement: occupied stations by top voltage falling, bus count falling, number
//! (docs/RULES.md, 'Order of placement').
ghost use Rattle.std.specs.Prelude.{◌≡◌, ℕ, ◌*◌, ◌^◌, ◌≤◌, ◌<◌, length, take, get_or};
ghost use Rattle.network.specs.Words.{bus_counts, occupied};
ghost use Rattle.network.specs.Views.{counts_in, order_in};
ghost use Rattle.network.specs.Lent.{station_counts};
ghost use Rattle.stations.specs.Column.{falling};
ghost use Rattle.placement.specs.Turns.{top_to, placement_order};
ghost use Rattle.placement.specs.Stages.Listed.{Listed, Turns};

use network::lists::{Buses, Stations};
use numbers::float::key::key_of_bits;
use numbers::order::sort_part;

// A number that falls where this one rises.
fn falling(number: u64) -> u64
    ensures { result ≡ falling number }
{
    !number
}

// Lists the occupied stations by number at the front of `sorted`, and gives each station its bus
// count's key; how many are occupied.
fn list_occupied(stations: &Stations<'_>, keys: &mut [u64], sorted: &mut [u32]) -> usize
    requires small_numbers { stations.now.k ≤ 2 ^ 32 }
    requires keys_room { stations.now.k ≤ length keys.old }
    requires sorted_room { stations.now.k ≤ length sorted.old }
    ensures { Listed (station_counts stations.now) stations.now.k keys.new sorted.new result }
{
    let mut r = 0;
    for s in 0..stations.k {
        let count = stations.counts[2 * s];
        keys[s] = falling(count as u64);
        if 0 < count {
            sorted[r] = s as u32;
            r += 1;
        }
    }
    r
}

// Sets the key of each station to the highest.
#[tactic(auto, unfolding(stations::specs::Column::falling))]
fn fill_keys(station_total: usize, keys: &mut [u64])
    requires { station_total ≤ length keys.old }
    ensures { (s : ℕ) → s < station_total → get_or keys.new s 0 ≡ falling 0 }
{
    keys[..station_total].fill(u64::MAX);
}

// Lowers each station's key to that of its top voltage.
fn top_keys(lent: &Buses<'_>, station_total: usize, keys: &mut [u64])
    requires keys_room { station_total ≤ length keys.old }
    requires stations_below { (i : ℕ) → i < length lent.now.sub.now
        → get_or lent.now.sub.now i 0 < station_total }
    requires keys_highest { (s : ℕ) → s < station_total → get_or keys.old s 0 ≡ falling 0 }
    ensures { (s : ℕ) → s < station_total → get_or keys.new s 0
        ≡ falling (top_to lent.now.sub.now lent.now.kv.now s (length lent.now.sub.now)) }
{
    let kv = lent.kv;
    for (i, &station) in lent.sub.iter().enumerate() {
        let s = station as usize;
        let v = falling(key_of_bits(kv[i]));
        if v < keys[s] {
            keys[s] = v;
        }
    }
}

// Copies the sorted stations to every second number, beside the bus counts, which stay.
fn put_order(sorted: &[u32], stations: &mut [u32])
    requires { 2 * length sorted.now ≤ length stations.old }
    ensures order_written { order_in (length sorted.now) stations.new ≡ sorted.now }
    ensures bus_counts_kept { (k : ℕ) → counts_in k stations.new ≡ counts_in k stations.old }
{
    for (p, &s) in sorted.iter().enumerate() {
        stations[2 * p + 1] = s;
    }
}

// The order of placement, in every second number of `stations`, beside the bus counts; and how
// many stations are placed. `keys`, `sorted` and `spare` are work lists.
pub(crate) fn placement_order(
    lent: &Buses<'_>,
    station_total: usize,
    stations: &mut [u32],
    keys: &mut [u64],
    sorted: &mut [u32],
    spare: &mut [u32],
) -> usize
    requires small_numbers { station_total ≤ 2 ^ 32 }
    requires stations_room { 2 * station_total ≤ length stations.old }
    requires keys_room { station_total ≤ length keys.old }
    requires sorted_room { station_total ≤ length sorted.old }
    requires spare_room { station_total ≤ length spare.old }
    requires bus_counts { counts_in station_total stations.old ≡ bus_counts lent.now.sub.now }
    ensures occupied_count { result ≡ length (occupied (bus_counts lent.now.sub.now)) }
    ensures upper_bound { result ≤ station_total }
    ensures order_written { order_in result stations.new
        ≡ placement_order lent.now.sub.now lent.now.kv.now (bus_counts lent.now.sub.now) }
    ensures turns { Turns station_total (order_in result stations.new) }
    ensures bus_counts_kept { counts_in station_total stations.new ≡ bus_counts lent.now.sub.now }
{
    let r = list_occupied(
        &Stations {
            k: station_total,
            counts: stations,
        },
        keys,
        sorted,
    );
    sort_part(keys, sorted, spare, 0, r);
    fill_keys(station_total, keys);
    top_keys(lent, station_total, keys);
    sort_part(keys, sorted, spare, 0, r);
    put_order(&sorted[..r], stations);
    r
}
