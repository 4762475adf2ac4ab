//! The lists of a call that are read together: a network, and its stations with their boxes.
ghost use Rattle.std.specs.Prelude.{◌≡◌, ◌*◌, ◌≤◌, ◌<◌, ltb, length, get_or};

use crate::mesh::Mesh;

/// A network and its mesh, as a call is lent them (docs/RULES.md, 'Lists'): n buses, m branches.
#[derive(Clone, Copy)]
pub struct Network<'a> {
    /// The station number of each bus; its length is n.
    pub sub: &'a [u32],
    /// The voltage of each bus, as the bits of a binary64 number.
    pub kv: &'a [u64],
    /// The bus at the from end of each branch; its length is m. A number below 0 or from n on is
    /// unknown.
    pub from: &'a [i64],
    /// The bus at the to end of each branch.
    pub to: &'a [i64],
    /// The service flag of each branch: 0 is open. A flag past the end is absent, and means live.
    pub service: &'a [u8],
    /// Two numbers of each bus, its point. One past the end is absent.
    pub xy: &'a [f64],
    /// Triangles between the occupied stations.
    pub mesh: Mesh<'a>,
}

/// The buses alone.
#[derive(Clone, Copy)]
pub struct Buses<'a> {
    /// The station number of each bus.
    pub sub: &'a [u32],
    /// The voltage of each bus, as the bits of a binary64 number.
    pub kv: &'a [u64],
    pub ghost even: { length kv.now ≡ length sub.now },
}

/// k stations with two numbers each, of which the first is how many buses it has.
#[derive(Clone, Copy)]
pub struct Stations<'a> {
    /// How many stations.
    pub k: usize,
    /// Two numbers of each station.
    pub counts: &'a [u32],
    pub ghost counted: { 2 * k ≤ length counts.now },
}

impl Stations<'_> {
    /// Whether a station has buses.
    pub fn is_occupied(&self, station: usize) -> bool
        requires { station < self.now.k }
        ensures { result ≡ ltb 0 (get_or self.now.counts.now (2 * station) 0) }
    {
        0 < self.counts[2 * station]
    }
}

/// k stations with two numbers each, of which the first is how many buses it has, and their boxes.
#[derive(Clone, Copy)]
pub struct Placed<'a> {
    /// How many stations.
    pub k: usize,
    /// Two numbers of each station.
    pub stations: &'a [u32],
    /// Four numbers of each station, its box: left, top, right, bottom.
    pub frames: &'a [f64],
    pub ghost counted: { 2 * k ≤ length stations.now },
    pub ghost framed: { 4 * k ≤ length frames.now },
}

impl Placed<'_> {
    /// Whether a station has buses.
    pub fn is_occupied(&self, station: usize) -> bool
        requires { station < self.now.k }
        ensures { result ≡ ltb 0 (get_or self.now.stations.now (2 * station) 0) }
    {
        0 < self.stations[2 * station]
    }
}

/// At most 4,096 stations with their boxes.
#[derive(Clone, Copy)]
pub struct FewPlaced<'a> {
    pub placed: Placed<'a>,
    pub ghost few: { placed.k ≤ 4096 },
}

/// A network of at most 4,096 buses and 8,192 branches: past these refusal 1 stands.
#[derive(Clone, Copy)]
pub struct Bounded<'a> {
    pub lists: Network<'a>,
    pub ghost few_buses: { length lists.sub.now ≤ 4096 },
    pub ghost few_branches: { length lists.from.now ≤ 8192 },
}
