// The network that a text stands for (docs/RULES.md, 'Text of drawlist').
ghost use Rattle.std.specs.Prelude.{◌≡◌, ◌+◌, ◌*◌, ◌<◌, ◌≤◌, length, drop, set};
ghost use Rattle.std.specs.Float.Ieee.{of_bits};
ghost use Rattle.std.specs.Float.{binary64};
ghost use Rattle.text.specs.Input.{bus_lines, branch_lines, parsed, read as read_of, counted};
ghost use Rattle.numbers.specs.Over.{over};
ghost use Rattle.text.specs.Line.{begins as begins_with, branch_names};
ghost use Rattle.text.specs.LinePlaces.{answer};
ghost use Rattle.text.specs.Stages.Places.{field_of};

use crate::fields::field::Parsed;
use crate::listing::line::{Branch, Bus, begins, branch_line, bus_line};
use numbers::float::bits::of_bits;

// The most buses and branches that a text may have.
const BUSES: usize = 64;

const BRANCHES: usize = 64;

/// How many buses and branches a text has.
#[derive(Clone, Copy)]
pub struct InputCounts {
    /// Buses, at most 64.
    pub buses: usize,
    /// Branches, at most 64.
    pub branches: usize,
}

// Whether the line at a place is the one between buses and branches.
#[tactic(auto, unfolding(crate::specs::Line::branch_names))]
fn at_names(text: &[u8], at: usize) -> bool
    ensures { result ≡ begins_with branch_names (drop at text.now) }
{
    begins(text, at, b"from to live\n")
}

// Writes the bus of a place.
fn put_bus(place: usize, bus: Bus, sub: &mut [u32], kv: &mut [u64], xy: &mut [f64])
    requires sub_room { place < length sub.old }
    requires kv_room { place < length kv.old }
    requires xy_room { 2 * place + 1 < length xy.old }
    ensures sub_after { sub.new ≡ set sub.old place bus.sub }
    ensures kv_after { kv.new ≡ set kv.old place bus.kv }
    ensures xy_after { xy.new ≡ set (set xy.old (2 * place) (of_bits binary64 bus.x))
        (2 * place + 1) (of_bits binary64 bus.y) }
{
    sub[place] = bus.sub;
    kv[place] = bus.kv;
    xy[2 * place] = of_bits(bus.x);
    xy[2 * place + 1] = of_bits(bus.y);
}

// Writes the branch of a place.
fn put_branch(place: usize, branch: Branch, from: &mut [i64], to: &mut [i64], live: &mut [u8])
    requires from_room { place < length from.old }
    requires to_room { place < length to.old }
    requires live_room { place < length live.old }
    ensures from_after { from.new ≡ set from.old place branch.from }
    ensures to_after { to.new ≡ set to.old place branch.to }
    ensures live_after { live.new ≡ set live.old place branch.live }
{
    from[place] = branch.from;
    to[place] = branch.to;
    live[place] = branch.live;
}

// The bus lines from `at` on: how many there are, and the place after the line that ends them.
#[tactic(auto, using(crate::proofs::listing::Reading::bus_laws), unfolding(crate::specs::Stages::Places::field_of, crate::specs::Input::read, crate::specs::Input::counted))]
fn bus_lines(
    text: &[u8],
    at: usize,
    sub: &mut [u32],
    kv: &mut [u64],
    xy: &mut [f64],
) -> Option<Parsed<usize>>
    requires sub_room { 64 ≤ length sub.old }
    requires kv_room { 64 ≤ length kv.old }
    requires xy_room { 128 ≤ length xy.old }
    ensures counts { counted (λ b. b.sub) (bus_lines (drop at text.now))
        ≡ field_of text.now result }
    ensures sub_after { sub.new ≡ over (read_of (bus_lines (drop at text.now))).sub sub.old }
    ensures kv_after { kv.new ≡ over (read_of (bus_lines (drop at text.now))).kv kv.old }
    ensures xy_after { xy.new ≡ over (read_of (bus_lines (drop at text.now))).xy xy.old }
{
    let mut i = at;
    for n in 0..BUSES {
        if at_names(text, i) {
            return Some(Parsed {
                value: n,
                next: i + 13,
            });
        }
        let bus = bus_line(text, i)?;
        put_bus(n, bus.value, sub, kv, xy);
        i = bus.next;
    }
    at_names(text, i).then(|| Parsed {
        value: BUSES,
        next: i + 13,
    })
}

// The branch lines from `at` on, to the end of the text: how many there are, and that end.
#[tactic(auto, using(crate::proofs::listing::Reading::branch_laws), unfolding(crate::specs::Stages::Places::field_of, crate::specs::Input::read, crate::specs::Input::counted))]
fn branch_lines(
    text: &[u8],
    at: usize,
    from: &mut [i64],
    to: &mut [i64],
    live: &mut [u8],
) -> Option<Parsed<usize>>
    requires from_room { 64 ≤ length from.old }
    requires to_room { 64 ≤ length to.old }
    requires live_room { 64 ≤ length live.old }
    ensures counts { counted (λ b. b.live) (branch_lines (drop at text.now))
        ≡ field_of text.now result }
    ensures from_after { from.new ≡ over (read_of (branch_lines (drop at text.now))).from from.old }
    ensures to_after { to.new ≡ over (read_of (branch_lines (drop at text.now))).to to.old }
    ensures live_after { live.new ≡ over (read_of (branch_lines (drop at text.now))).live live.old }
{
    let mut i = at;
    for n in 0..BRANCHES {
        if text.len() <= i {
            return Some(Parsed { value: n, next: i });
        }
        let branch = branch_line(text, i)?;
        put_branch(n, branch.value, from, to, live);
        i = branch.next;
    }
    (text.len() <= i).then_some(Parsed {
        value: BRANCHES,
        next: i,
    })
}

/// Reads a network from a text: the line `sub kv x y`, at most 64 buses, the line `from to live`,
/// at most 64 branches (docs/RULES.md, 'Text of drawlist').
///
/// Each bus is its station, its voltage and its map point, each branch its two buses and whether
/// it is live; voltages and coordinates stand as the bits of a float. They are written over the
/// front of the lists. `None`: the text is malformed, which is refusal 14; what stands before its
/// first malformed line is written.
#[tactic(auto, using(crate::proofs::listing::Parsing::parse_laws), unfolding(crate::specs::Stages::Places::field_of, crate::specs::Line::bus_names, crate::specs::LinePlaces::answer, crate::specs::Input::no_buses, crate::specs::Input::no_branches, numbers::specs::Over::over))]
pub fn parse(
    text: &[u8],
    sub: &mut [u32],
    kv: &mut [u64],
    xy: &mut [f64],
    from: &mut [i64],
    to: &mut [i64],
    live: &mut [u8],
) -> Option<InputCounts>
    requires sub_room { 64 ≤ length sub.old }
    requires kv_room { 64 ≤ length kv.old }
    requires xy_room { 128 ≤ length xy.old }
    requires from_room { 64 ≤ length from.old }
    requires to_room { 64 ≤ length to.old }
    requires live_room { 64 ≤ length live.old }
    ensures counts { result ≡ answer (parsed text.now) }
    ensures sub_after { sub.new ≡ over (parsed text.now).buses.sub sub.old }
    ensures kv_after { kv.new ≡ over (parsed text.now).buses.kv kv.old }
    ensures xy_after { xy.new ≡ over (parsed text.now).buses.xy xy.old }
    ensures from_after { from.new ≡ over (parsed text.now).branches.from from.old }
    ensures to_after { to.new ≡ over (parsed text.now).branches.to to.old }
    ensures live_after { live.new ≡ over (parsed text.now).branches.live live.old }
{
    if !begins(text, 0, b"sub kv x y\n") {
        return None;
    }
    let buses = bus_lines(text, 11, sub, kv, xy)?;
    let branches = branch_lines(text, buses.next, from, to, live)?;
    Some(InputCounts {
        buses: buses.value,
        branches: branches.value,
    })
}
