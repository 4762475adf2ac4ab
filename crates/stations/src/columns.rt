//! Columns: the place of each bus in its station by `kv` falling, then bus number (docs/RULES.md,
//! 'Columns').
ghost use Rattle.std.specs.Prelude.{◌≡◌, ◌*◌, ◌≤◌, length, take};
ghost use Rattle.numbers.specs.Table.{table};
ghost use Rattle.network.specs.Words.{station_count};
ghost use Rattle.network.specs.Views.{counts_in, columns_in};
ghost use Rattle.stations.specs.Column.{voltage, falling, columns};

use crate::ranking::rank_in_stations;
use network::lists::Buses;
use numbers::float::key::key_of_bits;

// A key for each bus that falls where its voltage rises.
fn falling_keys(kv: &[u64], keys: &mut [u64])
    requires { length kv.now ≤ length keys.old }
    ensures { take (length kv.now) keys.new
        ≡ table (λ i. falling (voltage kv.now i)) (length kv.now) }
{
    for (i, &v) in kv.iter().enumerate() {
        keys[i] = !key_of_bits(v);
    }
}

// Puts each bus's column beside its bus.
fn put_columns(places: &[u32], buses: &mut [u32])
    requires { 3 * length places.now ≤ length buses.old }
    ensures { columns_in (length places.now) buses.new ≡ places.now }
{
    for (i, &place) in places.iter().enumerate() {
        buses[3 * i] = place;
    }
}

/// Each bus's column, the first of its three numbers in `buses`. The second number of each
/// station in `stations` is used as a counter; their first ones, the bus counts, stay. `keys`,
/// `sorted` and `spare` are work lists.
pub fn columns(
    lent: &Buses<'_>,
    station_total: usize,
    stations: &mut [u32],
    buses: &mut [u32],
    keys: &mut [u64],
    sorted: &mut [u32],
    spare: &mut [u32],
)
    requires few_buses { length lent.now.sub.now ≤ 4096 }
    requires counted { station_total ≡ station_count lent.now.sub.now }
    requires stations_room { 2 * station_total ≤ length stations.old }
    requires buses_room { 3 * length lent.now.sub.now ≤ length buses.old }
    requires keys_room { length lent.now.sub.now ≤ length keys.old }
    requires sorted_room { length lent.now.sub.now ≤ length sorted.old }
    requires spare_room { length lent.now.sub.now ≤ length spare.old }
    ensures columns_written { columns_in (length lent.now.sub.now) buses.new
        ≡ columns lent.now.sub.now lent.now.kv.now }
    ensures bus_counts_kept { counts_in station_total stations.new
        ≡ counts_in station_total stations.old }
{
    let sub = lent.sub;
    falling_keys(lent.kv, keys);
    rank_in_stations(sub, sub.len(), station_total, keys, stations, sorted, spare);
    put_columns(&spare[..sub.len()], buses);
}
