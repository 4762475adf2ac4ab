// The crossings of one walk, stored one after another (docs/RULES.md, 'Crossings').
ghost use Rattle.std.specs.Prelude.{◌≡◌, ℕ, ◌+◌, ◌*◌, ◌≤◌, ◌<◌, length, get_or, set};
ghost use Rattle.network.specs.Mesh.{low_at, high_at};
ghost use Rattle.routing.specs.Route.{cross, cross_all};
ghost use Rattle.routing.specs.Stages.Store.{fraction_on, stock, Grown};

use crate::crossings::half_edge_channels::{channel_for, count_with};
use channels::walk::trace::WalkedLine;
use network::mesh::end_at;
use numbers::order::at;
use plane::crossing::{Param, line_param};
use plane::geometry::point_at;

/// The lower vertex of a half-edge.
#[tactic(auto, unfolding(network::specs::Mesh::low_at))]
pub(crate) fn low_at(corners: &[u32], half_edge: u32) -> u32
    ensures { result ≡ low_at corners.now half_edge }
{
    at(corners, half_edge as usize).min(end_at(corners, half_edge as usize))
}

/// The higher vertex of a half-edge.
#[tactic(auto, unfolding(network::specs::Mesh::high_at))]
pub(crate) fn high_at(corners: &[u32], half_edge: u32) -> u32
    ensures { result ≡ high_at corners.now half_edge }
{
    at(corners, half_edge as usize).max(end_at(corners, half_edge as usize))
}

// Where the line crosses a half-edge, from 0 at its lower vertex to 1; 1/2 where they are parallel.
#[tactic(auto, unfolding(crate::specs::Stages::Store::fraction_on, plane::specs::Cross::fraction_or))]
fn fraction_on(line: &WalkedLine<'_>, half_edge: u32) -> f64
    ensures { result
        ≡ fraction_on line.now.by_vertex.mesh.corners.now line.now.points.now line.now.start
        line.now.end
        half_edge }
{
    let a = low_at(line.by_vertex.mesh.corners, half_edge) as usize;
    let b = high_at(line.by_vertex.mesh.corners, half_edge) as usize;
    match line_param(
        point_at(line.points, line.start as usize),
        point_at(line.points, line.end as usize),
        point_at(line.points, a),
        point_at(line.points, b),
    ) {
        Param::At(t) => t,
        Param::Parallel => 0.5,
    }
}

// Writes a crossing: its channel, its branch and its fraction.
fn put_crossing(
    number: usize,
    channel: u32,
    branch: u32,
    fraction: f64,
    numbers: &mut [u32],
    places: &mut [f64],
)
    requires numbers_fit { 3 * number + 1 < length numbers.old }
    requires places_fit { number < length places.old }
    ensures numbers_after { numbers.new
        ≡ set (set numbers.old (3 * number) channel) (3 * number + 1) branch }
    ensures places_after { places.new ≡ set places.old number fraction }
{
    numbers[3 * number] = channel;
    numbers[3 * number + 1] = branch;
    places[number] = fraction;
}

// Stores the crossing of a branch's line with a half-edge, and answers how many channels there are
// then, `channels` before.
fn store_crossing(
    line: &WalkedLine<'_>,
    branch_count: u32,
    branch: u32,
    half_edge: u32,
    number: usize,
    channels: usize,
    ends: &mut [u32],
    numbers: &mut [u32],
    places: &mut [f64],
) -> usize
    requires few_channels { channels < 0xffff_ffff }
    requires half_edge_in_bounds { half_edge < length line.now.by_vertex.mesh.corners.now }
    requires ends_fit { 4 * (branch_count + length line.now.by_vertex.mesh.corners.now) + 4
        ≤ length ends.old }
    requires numbers_fit { 3 * number + 1 < length numbers.old }
    requires places_fit { number < length places.old }
    ensures grown { (j : ℕ)
        → Grown branch_count line.now.by_vertex.mesh.corners.now line.now.points.now
        (λ S s. cross S line.now.start line.now.end branch j half_edge s)
        (stock channels number ends.old numbers.old places.old)
        (stock result (number + 1) ends.new numbers.new places.new) }
    ensures at_most_one_more { result ≤ channels + 1 }
{
    let t = fraction_on(line, half_edge);
    let c = channel_for(&line.by_vertex, branch_count, half_edge, channels, ends);
    put_crossing(number, c as u32, branch, t, numbers, places);
    count_with(channels, c)
}

/// Stores the crossings of a branch's line with the half-edges of a walk, from crossing number
/// `first` on, and answers how many channels there are then, `channels` before.
#[tactic(auto, using(crate::proofs::crossings::Growing::walk_written))]
pub(crate) fn store_walked(
    line: &WalkedLine<'_>,
    branch_count: u32,
    branch: u32,
    walked: &[u32],
    first: usize,
    channels: usize,
    ends: &mut [u32],
    numbers: &mut [u32],
    places: &mut [f64],
) -> usize
    requires known_crossed { channels ≤ first }
    requires few_crossings { first + length walked.now < 0xffff_ffff }
    requires ends_fit { 4 * (branch_count + length line.now.by_vertex.mesh.corners.now) + 4
        ≤ length ends.old }
    requires numbers_fit { 3 * (first + length walked.now) ≤ length numbers.old }
    requires places_fit { first + length walked.now ≤ length places.old }
    requires half_edges_in_bounds { (i : ℕ) → i < length walked.now
        → get_or walked.now i 0 < length line.now.by_vertex.mesh.corners.now }
    ensures grown { Grown branch_count line.now.by_vertex.mesh.corners.now line.now.points.now
        (λ S s. cross_all S line.now.start line.now.end branch 0 walked.now s)
        (stock channels first ends.old numbers.old places.old)
        (stock result (first + length walked.now) ends.new numbers.new places.new) }
    ensures known_crossed { result ≤ first + length walked.now }
{
    let mut known = channels;
    for (i, &h) in walked.iter().enumerate() {
        known = store_crossing(
            line,
            branch_count,
            branch,
            h,
            first + i,
            known,
            ends,
            numbers,
            places,
        );
    }
    known
}
