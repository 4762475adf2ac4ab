//! The words for the parts of a network (docs/RULES.md, 'Words' and 'Branches and stations').
ghost use Rattle.std.specs.Prelude.{◌≡◌, ◌+◌, ◌*◌, ◌≤◌, ◌<◌, ◌^◌, eqb, negsuc, length, get_or};
ghost use Rattle.numbers.specs.Table.{table};
ghost use Rattle.network.specs.Words.{station_count, station_of, bus_counts, known, live};
ghost use Rattle.network.specs.Words.{kind_by, Safe};
ghost use Rattle.network.specs.Views.{counts_in};
ghost use Rattle.network.specs.Lent.{kind_in};

use crate::lists::Network;

/// What a branch is, with the buses at its from end and its to end.
#[derive(Clone, Copy)]
pub enum Kind {
    /// An end is unknown, or both ends are one bus: it is not drawn.
    Undrawn,
    /// Its service flag is 0.
    Open(usize, usize),
    /// Live, with both ends in one station.
    Internal(usize, usize),
    /// Live, from one station to another.
    Line(usize, usize),
}

/// How many stations: one more than the highest number, 0 without buses.
#[tactic(auto, using(crate::proofs::Stations::past_none, crate::proofs::Stations::past_next), unfolding(crate::specs::Words::station_count))]
pub fn station_count(sub: &[u32]) -> usize
    ensures is_count { result ≡ station_count sub.now }
    ensures upper_bound { result ≤ 2 ^ 32 }
{
    let mut count: usize = 0;
    for &s in sub {
        count = count.max(s as usize + 1);
    }
    count
}

/// The station of a bus, 0 past the list's end.
pub fn station_of(sub: &[u32], bus: usize) -> usize
    ensures is_station { result ≡ station_of sub.now bus }
    ensures upper_bound { result < 2 ^ 32 }
{
    numbers::order::at(sub, bus) as usize
}

// The bus that a number names, of so many: one below 0 or from their number on names none.
pub(crate) fn known_bus(buses: usize, number: i64) -> Option<usize>
    ensures { result ≡ known buses number }
{
    let i = usize::try_from(number).ok()?;
    (i < buses).then_some(i)
}

// Whether a branch is live: its service flag is absent or not 0.
#[tactic(auto, unfolding(crate::specs::Words::live))]
pub(crate) fn live(service: &[u8], branch: usize) -> bool
    ensures { result ≡ live service.now branch }
{
    service.get(branch).copied().unwrap_or(1) != 0
}

/// The bus at a branch's end, of so many buses, where `ends` has an end of each branch; none where
/// the end is unknown or past the list's end.
#[tactic(auto, unfolding(crate::specs::Words::known))]
pub fn end_of(buses: usize, ends: &[i64], branch: usize) -> Option<usize>
    ensures { result ≡ known buses (get_or ends.now branch (negsuc 0)) }
{
    known_bus(buses, *ends.get(branch)?)
}

// What a branch between two known buses is.
#[tactic(auto, unfolding(crate::specs::Words::kind_by))]
fn kind_between(sub: &[u32], alive: bool, from: usize, to: usize) -> Kind
    ensures { result
        ≡ kind_by (eqb from to) alive (eqb (station_of sub.now from) (station_of sub.now to))
        from to }
{
    if from == to {
        return Kind::Undrawn;
    }
    if !alive {
        return Kind::Open(from, to);
    }
    if station_of(sub, from) == station_of(sub, to) {
        return Kind::Internal(from, to);
    }
    Kind::Line(from, to)
}

/// What a branch is. Its buses are below the number of buses, and an internal branch's are in one
/// station, a line's in two.
pub fn kind_of(net: &Network<'_>, branch: usize) -> Kind
    ensures is_kind { result ≡ kind_in net.now branch }
    ensures safe { Safe net.now.sub.now result }
{
    let Some(a) = end_of(net.sub.len(), net.from, branch) else {
        return Kind::Undrawn;
    };
    let Some(b) = end_of(net.sub.len(), net.to, branch) else {
        return Kind::Undrawn;
    };
    kind_between(net.sub, live(net.service, branch), a, b)
}

// Sets the bus count of each station to 0. The number beside it stays.
#[tactic(auto, using(crate::proofs::Counts::cleared_none, crate::proofs::Counts::cleared_more))]
fn clear_counts(station_total: usize, stations: &mut [u32])
    requires { 2 * station_total ≤ length stations.old }
    ensures { counts_in station_total stations.new ≡ table (λ s. 0) station_total }
{
    for s in 0..station_total {
        stations[2 * s] = 0;
    }
}

// Counts each bus in its station.
#[tactic(auto, using(crate::proofs::Stations::station_below, crate::proofs::Counts::counting))]
fn count_buses(sub: &[u32], station_total: usize, stations: &mut [u32])
    requires counted { station_total ≡ station_count sub.now }
    requires few_buses { length sub.now ≤ 4096 }
    requires stations_room { 2 * station_total ≤ length stations.old }
    requires all_zero { counts_in station_total stations.old ≡ table (λ s. 0) station_total }
    ensures { counts_in station_total stations.new ≡ bus_counts sub.now }
{
    for &s in sub {
        stations[2 * s as usize] += 1;
    }
}

/// How many buses each station has, in every second number of `stations`, from the first on.
pub fn bus_counts(sub: &[u32], station_total: usize, stations: &mut [u32])
    requires counted { station_total ≡ station_count sub.now }
    requires few_buses { length sub.now ≤ 4096 }
    requires stations_room { 2 * station_total ≤ length stations.old }
    ensures { counts_in station_total stations.new ≡ bus_counts sub.now }
{
    clear_counts(station_total, stations);
    count_buses(sub, station_total, stations);
}
