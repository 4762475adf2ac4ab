//! Rows: the live branches inside a station first, by branch number; then the live line ends, by
//! the other station's seed y, then branch number (docs/RULES.md, 'Rows').
//!
//! A branch's ends are entries: 2 e is branch e's from end, 2 e + 1 its to end.
ghost use Rattle.std.specs.Prelude.{◌≡◌, suc, ◌+◌, ◌*◌, ◌/◌, ◌≤◌, ◌<◌, length, take, get_or};
ghost use Rattle.std.specs.Float.{nan};
ghost use Rattle.numbers.specs.Ops.{order_key};
ghost use Rattle.numbers.specs.Table.{table};
ghost use Rattle.network.specs.Words.{station_count};
ghost use Rattle.network.specs.Views.{counts_in, points_in, from_rows_in, to_rows_in};
ghost use Rattle.network.specs.Lent.{branch_total, kind_in, kinds_in};
ghost use Rattle.stations.specs.Row.{rows_in, from_rows, to_rows};
ghost use Rattle.stations.specs.Stages.Entry.{from_end, end_station, end_key, to_entry};
ghost use Rattle.stations.specs.Stages.Entry.{entry_station, entry_key};
ghost use Rattle.stations.specs.Stages.Views.{row_counts_in};

use crate::ranking::rank_in_stations;
use network::lists::Network;
use network::words::{Kind, kind_of, station_of};
use numbers::float::key::order_key_total;
use numbers::order::at;

// The key of line ends that lead to a station: above that of every internal branch, rising with
// its seed's y.
fn seed_key(places: &[f64], station: usize) -> u64
    requires { 2 * station + 1 < length places.now }
    ensures { result ≡ suc (order_key (get_or places.now (2 * station + 1) nan)) }
{
    order_key_total(places[2 * station + 1]) + 1
}

// The key of an entry, 0 where it is no line's end. `places` has the seeds.
fn entry_key(net: &Network<'_>, places: &[f64], entry: usize) -> u64
    requires { 2 * station_count net.now.sub.now ≤ length places.now }
    ensures { result
        ≡ end_key net.now.sub.now (points_in (station_count net.now.sub.now) places.now)
        (from_end entry) (kind_in net.now (entry / 2)) }
{
    match kind_of(net, entry / 2) {
        Kind::Undrawn => {
            return 0;
        },
        Kind::Open(_, _) => {
            return 0;
        },
        Kind::Internal(_, _) => {
            return 0;
        },
        Kind::Line(a, b) => {
            if entry % 2 == 0 {
                return seed_key(places, station_of(net.sub, b));
            }
            return seed_key(places, station_of(net.sub, a));
        },
    }
}

// The station in which an entry has a row, or a number past every station's.
fn entry_station(net: &Network<'_>, entry: usize) -> u32
    ensures { result
        ≡ end_station net.now.sub.now (from_end entry) (kind_in net.now (entry / 2)) }
{
    match kind_of(net, entry / 2) {
        Kind::Undrawn => {
            return u32::MAX;
        },
        Kind::Open(_, _) => {
            return u32::MAX; // An open branch has no row.
        },
        Kind::Internal(a, _) => {
            if entry % 2 == 0 {
                return station_of(net.sub, a) as u32;
            }
            return u32::MAX;
        },
        Kind::Line(a, b) => {
            if entry % 2 == 0 {
                return station_of(net.sub, a) as u32;
            }
            return station_of(net.sub, b) as u32;
        },
    }
}

// The entry that holds the row of a branch's to end: an internal branch has one row for both ends.
fn to_entry(net: &Network<'_>, branch: usize) -> usize
    requires { branch ≤ 8192 }
    ensures { result ≡ to_entry (kind_in net.now branch) branch }
{
    match kind_of(net, branch) {
        Kind::Undrawn => {
            return 2 * branch + 1;
        },
        Kind::Open(_, _) => {
            return 2 * branch + 1;
        },
        Kind::Internal(_, _) => {
            return 2 * branch;
        },
        Kind::Line(_, _) => {
            return 2 * branch + 1;
        },
    }
}

// The key and the station of every entry, from the front of each list.
fn fill_entries(net: &Network<'_>, places: &[f64], keys: &mut [u64], own: &mut [u32])
    requires few_branches { branch_total net.now ≤ 8192 }
    requires places_room { 2 * station_count net.now.sub.now ≤ length places.now }
    requires keys_room { 2 * branch_total net.now ≤ length keys.old }
    requires own_room { 2 * branch_total net.now ≤ length own.old }
    ensures keys_written { take (2 * branch_total net.now) keys.new
        ≡ table (entry_key net.now.sub.now
        (points_in (station_count net.now.sub.now) places.now) (kinds_in net.now))
        (2 * branch_total net.now) }
    ensures own_written { take (2 * branch_total net.now) own.new
        ≡ table (entry_station net.now.sub.now (kinds_in net.now)) (2 * branch_total net.now) }
{
    let c = 2 * net.from.len();
    for x in 0..c {
        keys[x] = entry_key(net, places, x);
        own[x] = entry_station(net, x);
    }
}

// Each branch's rows by those of its entries.
fn put_rows(net: &Network<'_>, rows: &[u32], ends: &mut [u32])
    requires few_branches { branch_total net.now ≤ 8192 }
    requires rows_room { 2 * branch_total net.now ≤ length rows.now }
    requires ends_room { 4 * branch_total net.now ≤ length ends.old }
    ensures from_rows_written { from_rows_in (branch_total net.now) ends.new
        ≡ table (λ e. get_or rows.now (2 * e) 0) (branch_total net.now) }
    ensures to_rows_written { to_rows_in (branch_total net.now) ends.new
        ≡ table (λ e. get_or rows.now (to_entry (kind_in net.now e) e) 0) (branch_total net.now) }
{
    let m = net.from.len();
    for e in 0..m {
        ends[4 * e] = at(rows, 2 * e);
        ends[4 * e + 1] = at(rows, to_entry(net, e));
    }
}

/// The rows of each branch's two ends, the first two of its four numbers in `ends`, 0 where it
/// has none; `places` has the seeds. How many rows each station has is left in the second of its
/// two numbers in `stations`; the first one, its bus count, stays. `keys`, `sorted` and `spare`
/// are work lists.
pub fn rows(
    net: &Network<'_>,
    places: &[f64],
    station_total: usize,
    stations: &mut [u32],
    ends: &mut [u32],
    keys: &mut [u64],
    sorted: &mut [u32],
    spare: &mut [u32],
)
    requires counted { station_total ≡ station_count net.now.sub.now }
    requires few_stations { station_total ≤ 4096 }
    requires few_branches { branch_total net.now ≤ 8192 }
    requires places_room { 2 * station_total ≤ length places.now }
    requires stations_room { 2 * station_total ≤ length stations.old }
    requires ends_room { 4 * branch_total net.now ≤ length ends.old }
    requires keys_room { 2 * branch_total net.now ≤ length keys.old }
    requires sorted_room { 2 * branch_total net.now ≤ length sorted.old }
    requires spare_room { 2 * branch_total net.now ≤ length spare.old }
    ensures from_rows_written { from_rows_in (branch_total net.now) ends.new
        ≡ from_rows net.now.sub.now (points_in station_total places.now) (kinds_in net.now) }
    ensures to_rows_written { to_rows_in (branch_total net.now) ends.new
        ≡ to_rows net.now.sub.now (points_in station_total places.now) (kinds_in net.now) }
    ensures row_counts_written { row_counts_in station_total stations.new
        ≡ table (rows_in net.now.sub.now (kinds_in net.now)) station_total }
    ensures bus_counts_kept { counts_in station_total stations.new
        ≡ counts_in station_total stations.old }
{
    fill_entries(net, places, keys, ends);
    rank_in_stations(
        ends,
        2 * net.from.len(),
        station_total,
        keys,
        stations,
        sorted,
        spare,
    );
    put_rows(net, spare, ends);
}
