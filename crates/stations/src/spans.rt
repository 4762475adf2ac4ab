//! The first and the last row of each bus, by one pass over the branches (docs/RULES.md, 'Bars
//! and row ends').
//!
//! In the list of buses the second of a bus's three numbers is its first row, and the third is
//! one more than its last row, 0 where it has none.
ghost use Rattle.std.specs.Prelude.{◌≡◌, ◌≢◌, ℕ, ◌+◌, ◌*◌, ◌-◌, ◌^◌, ◌≤◌, ◌<◌, max, get_or, set};
ghost use Rattle.std.specs.Prelude.{length};
ghost use Rattle.numbers.specs.Table.{table};
ghost use Rattle.network.specs.Views.{columns_in};
ghost use Rattle.network.specs.Lent.{bus_total, branch_total, kind_in};
ghost use Rattle.stations.specs.Bar.{bare, include_end, include_branch};
ghost use Rattle.stations.specs.Stages.Span.{spans_in, first_with, with_row, Included};
ghost use Rattle.stations.specs.Stages.Span.{RowsFit, spans_of};

use network::lists::{Bounded, Network};
use network::words::{Kind, kind_of};
use numbers::order::at;

// The first row of a bus with this row, where the bus has rows up to before `past`; it has none
// where that is 0.
#[tactic(auto, unfolding(crate::specs::Stages::Span::first_with))]
fn first_with(first: u32, past: u32, row: u32) -> u32
    ensures { result ≡ first_with first past row }
{
    if past == 0 {
        return row;
    }
    first.min(row)
}

// One more than its last row with this row.
fn past_with(past: u32, row: u32) -> u32
    requires { row < 2 ^ 32 - 1 }
    ensures { result ≡ max past (row + 1) }
{
    past.max(row + 1)
}

// The rows of a bus with this row.
fn include(buses: &mut [u32], bus: usize, row: u32)
    requires bus_inside { 3 * bus + 2 < length buses.old }
    requires row_fits { row < 2 ^ 32 - 1 }
    ensures { buses.new ≡ with_row buses.old bus row }
{
    let first = first_with(buses[3 * bus + 1], buses[3 * bus + 2], row);
    let past = past_with(buses[3 * bus + 2], row);
    buses[3 * bus + 1] = first;
    buses[3 * bus + 2] = past;
}

// The rows of the two buses of a branch with the rows of its ends.
fn include_ends(buses: &mut [u32], from: usize, to: usize, from_row: u32, to_row: u32)
    requires from_inside { 3 * from + 2 < length buses.old }
    requires to_inside { 3 * to + 2 < length buses.old }
    requires from_row_fits { from_row < 2 ^ 32 - 1 }
    requires to_row_fits { to_row < 2 ^ 32 - 1 }
    requires two_buses { from ≢ to }
    ensures { Included (λ i. include_end i from to from_row to_row) buses.old buses.new }
{
    include(buses, from, from_row);
    include(buses, to, to_row);
}

// The rows of all buses with those of one branch.
fn include_branch(net: &Network<'_>, ends: &[u32], branch: usize, buses: &mut [u32])
    requires branch_fits { branch < 2 ^ 32 }
    requires buses_room { 3 * bus_total net.now ≤ length buses.old }
    requires from_row_fits { get_or ends.now (4 * branch) 0 < 2 ^ 32 - 1 }
    requires to_row_fits { get_or ends.now (4 * branch + 1) 0 < 2 ^ 32 - 1 }
    ensures { Included (λ i. include_branch i (get_or ends.now (4 * branch) 0)
        (get_or ends.now (4 * branch + 1) 0) (kind_in net.now branch)) buses.old buses.new }
{
    let ra = at(ends, 4 * branch);
    let rb = at(ends, 4 * branch + 1);
    match kind_of(net, branch) {
        Kind::Undrawn => {},
        Kind::Open(_, _) => {},
        Kind::Internal(a, b) => include_ends(buses, a, b, ra, rb),
        Kind::Line(a, b) => include_ends(buses, a, b, ra, rb),
    }
}

// No rows for so many buses.
fn clear_rows(bus_count: usize, buses: &mut [u32])
    requires { 3 * bus_count ≤ length buses.old }
    ensures no_rows { spans_in bus_count buses.new ≡ table (λ i. bare) bus_count }
    ensures columns_kept { columns_in bus_count buses.new ≡ columns_in bus_count buses.old }
{
    for i in 0..bus_count {
        buses[3 * i + 2] = 0;
    }
}

// The rows of all buses, which had none, with those of every branch.
fn include_all(net: &Bounded<'_>, ends: &[u32], buses: &mut [u32])
    requires buses_room { 3 * bus_total net.now.lists ≤ length buses.old }
    requires rows_fit { RowsFit (branch_total net.now.lists) ends.now }
    requires no_rows { spans_in (bus_total net.now.lists) buses.old
        ≡ table (λ i. bare) (bus_total net.now.lists) }
    ensures spans_written { spans_in (bus_total net.now.lists) buses.new
        ≡ spans_of net.now.lists ends.now }
    ensures columns_kept { columns_in (bus_total net.now.lists) buses.new
        ≡ columns_in (bus_total net.now.lists) buses.old }
{
    for e in 0..net.lists.from.len() {
        include_branch(&net.lists, ends, e, buses);
    }
}

/// The rows of each bus, in the second and the third of its three numbers in `buses`: its first
/// row, and one more than its last, 0 where it has none. `ends` has the rows of each branch's two
/// ends, the first two of its four numbers.
pub fn spans(net: &Bounded<'_>, ends: &[u32], buses: &mut [u32])
    requires buses_room { 3 * bus_total net.now.lists ≤ length buses.old }
    requires rows_fit { RowsFit (branch_total net.now.lists) ends.now }
    ensures spans_written { spans_in (bus_total net.now.lists) buses.new
        ≡ spans_of net.now.lists ends.now }
    ensures columns_kept { columns_in (bus_total net.now.lists) buses.new
        ≡ columns_in (bus_total net.now.lists) buses.old }
{
    clear_rows(net.lists.sub.len(), buses);
    include_all(net, ends, buses);
}
