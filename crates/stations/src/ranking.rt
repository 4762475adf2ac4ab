//! The place of each number in its station by a key, in one sort for all stations: of buses for
//! columns, of branch ends for rows.
ghost use Rattle.std.specs.Prelude.{◌≡◌, ℕ, ◌+◌, ◌*◌, ◌^◌, ◌≤◌, ◌<◌, eqb, length, take, get_or};
ghost use Rattle.numbers.specs.Order.{key_at, sort_by, up_from, count};
ghost use Rattle.numbers.specs.Table.{table};
ghost use Rattle.network.specs.Views.{counts_in};
ghost use Rattle.stations.specs.Stages.Ranking.{in_station, rank_in};
ghost use Rattle.stations.specs.Stages.Views.{row_counts_in};

use numbers::order::{number, sort_part};

// The numbers from 0 to before `total` by rising key, numbers of one key by number, at the front
// of `sorted`.
fn sort_numbers(keys: &[u64], total: usize, sorted: &mut [u32], spare: &mut [u32])
    requires small_numbers { total ≤ 2 ^ 32 }
    requires sorted_room { total ≤ length sorted.old }
    requires spare_room { total ≤ length spare.old }
    ensures { take total sorted.new ≡ sort_by (key_at keys.now) (up_from 0 total) }
{
    number(&mut sorted[..total]);
    sort_part(keys, sorted, spare, 0, total);
}

// Sets the counters of the stations to 0, every second number from the second on; the numbers
// between stay.
fn clear_counters(stations: &mut [u32], station_total: usize)
    requires { 2 * station_total ≤ length stations.old }
    ensures counters_zero { (s : ℕ) → s < station_total → get_or stations.new (2 * s + 1) 0 ≡ 0 }
    ensures bus_counts_kept { counts_in station_total stations.new
        ≡ counts_in station_total stations.old }
{
    for s in 0..station_total {
        stations[2 * s + 1] = 0;
    }
}

// A walk over the first `total` of a sorted list counts the numbers of each station that it has
// passed: that is the place of the next one. `of` has each number's station.
fn walk(
    of: &[u32],
    total: usize,
    station_total: usize,
    sorted: &[u32],
    stations: &mut [u32],
    places: &mut [u32],
)
    requires small_numbers { total < 2 ^ 32 }
    requires of_room { total ≤ length of.now }
    requires sorted_room { total ≤ length sorted.now }
    requires places_room { total ≤ length places.old }
    requires stations_room { 2 * station_total ≤ length stations.old }
    requires sorted_below { (p : ℕ) → p < total → get_or sorted.now p 0 < total }
    requires counters_zero { (s : ℕ) → s < station_total → get_or stations.old (2 * s + 1) 0 ≡ 0 }
    ensures places_written { (key : ℕ → ℕ) → take total sorted.now ≡ sort_by key (up_from 0 total)
        → take total places.new ≡ table (rank_in (key_at of.now) key station_total total) total }
    ensures counters_written { row_counts_in station_total stations.new
        ≡ table (λ s. count (λ j. eqb (get_or of.now j 0) s) (take total sorted.now))
        station_total }
    ensures bus_counts_kept { counts_in station_total stations.new
        ≡ counts_in station_total stations.old }
{
    for &n in &sorted[..total] {
        let x = n as usize;
        let s = of[x] as usize;
        if s < station_total {
            let r = stations[2 * s + 1];
            places[x] = r;
            stations[2 * s + 1] = r + 1;
        } else {
            places[x] = 0;
        }
    }
}

/// The place in its station of each number from 0 to before `total`, by rising key and then
/// number, in `places`; `of` has each number's station, and one from `station_total` on is none.
/// How many each station has is left in its counter, the second of its two numbers in `stations`.
pub(crate) fn rank_in_stations(
    of: &[u32],
    total: usize,
    station_total: usize,
    keys: &[u64],
    stations: &mut [u32],
    sorted: &mut [u32],
    places: &mut [u32],
)
    requires small_numbers { total < 2 ^ 32 }
    requires of_room { total ≤ length of.now }
    requires sorted_room { total ≤ length sorted.old }
    requires places_room { total ≤ length places.old }
    requires stations_room { 2 * station_total ≤ length stations.old }
    ensures places_written { take total places.new
        ≡ table (rank_in (key_at of.now) (key_at keys.now) station_total total) total }
    ensures counters_written { row_counts_in station_total stations.new
        ≡ table (in_station (key_at of.now) total) station_total }
    ensures bus_counts_kept { counts_in station_total stations.new
        ≡ counts_in station_total stations.old }
{
    sort_numbers(keys, total, sorted, places);
    clear_counters(stations, station_total);
    walk(of, total, station_total, sorted, stations, places);
}
