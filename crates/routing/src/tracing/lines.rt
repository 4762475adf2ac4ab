// The walks of all lines (docs/RULES.md, 'Walk'): how many crossings they have, and the crossings,
// channels and kept crossings stored. A branch has four numbers in `ends`; the last two are its
// vertices, and after it is stored its path, the first of its crossings and their count.
ghost use Rattle.std.specs.Prelude.{◌≡◌, ℕ, ◌+◌, ◌*◌, ◌≤◌, ◌<◌, length, get_or, take, set};
ghost use Rattle.numbers.specs.Order.{pick};
ghost use Rattle.plane.specs.Plane.{point_at};
ghost use Rattle.routing.specs.Stages.Store.{walk_of, walk_at, crossings_to, stock};
ghost use Rattle.routing.specs.Stages.Store.{Branched, Filled, Unmarked};
ghost use Rattle.routing.specs.Stages.Store.{MeshPasses};

use crate::crossings::crossings::store_walked;
use channels::half_edges::MeshByVertex;
use channels::walk::trace::{WalkedLine, trace};
use numbers::order::at;

/// How many crossings and how many channels there are.
#[derive(Clone, Copy)]
pub(crate) struct TraceCounts {
    pub crossings: usize,
    pub channels: usize,
}

// The crossings of a branch with these vertices.
fn count_line(
    by_vertex: &MeshByVertex<'_>,
    points: &[f64],
    start: u32,
    end: u32,
    walked: &mut [u32],
) -> usize
    requires { length by_vertex.now.mesh.corners.now ≤ length walked.old }
    ensures counted { result
        ≡ length (walk_of by_vertex.now.mesh.corners.now by_vertex.now.mesh.twins.now
        (point_at points.now) start end).half_edges }
    ensures few_crossings { result ≤ 24576 }
{
    if start == 0 {
        return 0;
    }
    let line = WalkedLine {
        by_vertex: *by_vertex,
        points,
        start: start - 1,
        end,
    };
    let t = trace(&line, walked);
    t.count
}

/// The crossings of all branches, by their ways.
#[tactic(auto, using(crate::proofs::tracing::Branching::crossing_laws))]
pub(crate) fn count_all(
    by_vertex: &MeshByVertex<'_>,
    points: &[f64],
    branch_count: u32,
    ends: &[u32],
    walked: &mut [u32],
) -> usize
    requires { length by_vertex.now.mesh.corners.now ≤ length walked.old }
    ensures counted { result
        ≡ crossings_to by_vertex.now.mesh.corners.now by_vertex.now.mesh.twins.now points.now
        ends.now
        branch_count }
    ensures few_crossings { result ≤ 24576 * branch_count }
{
    let mut total = 0;
    for e in 0..branch_count {
        let a = at(ends, 4 * e as usize + 2);
        let b = at(ends, 4 * e as usize + 3);
        total += count_line(by_vertex, points, a, b, walked);
    }
    total
}

// Writes a branch's path: its first crossing and their count.
fn put_path(branch: usize, first: u32, count: u32, ends: &mut [u32])
    requires { 4 * branch + 3 < length ends.old }
    ensures { ends.new ≡ set (set ends.old (4 * branch + 2) first) (4 * branch + 3) count }
{
    ends[4 * branch + 2] = first;
    ends[4 * branch + 3] = count;
}

// How many of so many crossings a path keeps: all or none.
fn kept_count(kept: bool, count: usize) -> usize
    ensures all_or_none { result ≡ pick kept count 0 }
    ensures at_most_all { result ≤ count }
{
    if kept { count } else { 0 }
}

// Stores the crossings and the path of a branch behind those that there were, and answers how many
// crossings and channels there are then.
fn store_branch(
    by_vertex: &MeshByVertex<'_>,
    points: &[f64],
    branch_count: u32,
    branch: u32,
    was: TraceCounts,
    walked: &mut [u32],
    ends: &mut [u32],
    numbers: &mut [u32],
    places: &mut [f64],
) -> TraceCounts
    requires branch_in_bounds { branch < branch_count }
    requires known_crossed { was.channels ≤ was.crossings }
    requires walked_fits { length by_vertex.now.mesh.corners.now ≤ length walked.old }
    requires ends_fit { 4 * (branch_count + length by_vertex.now.mesh.corners.now) + 4
        ≤ length ends.old }
    requires few_crossings { was.crossings
        + length (walk_at by_vertex.now.mesh.corners.now by_vertex.now.mesh.twins.now points.now
        ends.old
        branch).half_edges < 0xffff_ffff }
    requires numbers_fit { 3 * (was.crossings
        + length (walk_at by_vertex.now.mesh.corners.now by_vertex.now.mesh.twins.now points.now
        ends.old
        branch).half_edges) ≤ length numbers.old }
    requires places_fit { was.crossings
        + length (walk_at by_vertex.now.mesh.corners.now by_vertex.now.mesh.twins.now points.now
        ends.old
        branch).half_edges ≤ length places.old }
    requires mesh_passes { MeshPasses by_vertex.now.mesh.corners.now by_vertex.now.mesh.twins.now }
    ensures { Branched branch_count by_vertex.now.mesh.corners.now by_vertex.now.mesh.twins.now
        points.now
        branch (get_or ends.old (4 * branch + 2) 0) (get_or ends.old (4 * branch + 3) 0)
        (stock was.channels was.crossings ends.old numbers.old places.old)
        (stock result.channels result.crossings ends.new numbers.new places.new) }
{
    let a = at(ends, 4 * branch as usize + 2);
    if a == 0 {
        put_path(branch as usize, 0, 0, ends);
        return was;
    }
    let b = at(ends, 4 * branch as usize + 3);
    let line = WalkedLine {
        by_vertex: *by_vertex,
        points,
        start: a - 1,
        end: b,
    };
    let t = trace(&line, walked);
    let n = t.count;
    let used = kept_count(t.kept, n);
    let known = store_walked(
        &line,
        branch_count,
        branch,
        &walked[..n],
        was.crossings,
        was.channels,
        ends,
        numbers,
        places,
    );
    put_path(branch as usize, was.crossings as u32, used as u32, ends);
    TraceCounts {
        crossings: was.crossings + n,
        channels: known,
    }
}

/// Stores the crossings and paths of all branches, by their ways, and answers how many crossings
/// and channels there are.
pub(crate) fn store_all(
    by_vertex: &MeshByVertex<'_>,
    points: &[f64],
    branch_count: u32,
    walked: &mut [u32],
    ends: &mut [u32],
    numbers: &mut [u32],
    places: &mut [f64],
) -> TraceCounts
    requires few_branches { branch_count ≤ 8192 }
    requires walked_fits { length by_vertex.now.mesh.corners.now ≤ length walked.old }
    requires ends_fit { 4 * (branch_count + length by_vertex.now.mesh.corners.now) + 4
        ≤ length ends.old }
    requires numbers_fit { 3 * crossings_to by_vertex.now.mesh.corners.now
        by_vertex.now.mesh.twins.now
        points.now ends.old branch_count ≤ length numbers.old }
    requires places_fit { crossings_to by_vertex.now.mesh.corners.now by_vertex.now.mesh.twins.now
        points.now ends.old branch_count ≤ length places.old }
    requires mesh_passes { MeshPasses by_vertex.now.mesh.corners.now by_vertex.now.mesh.twins.now }
    requires unmarked { Unmarked branch_count by_vertex.now.mesh.corners.now ends.old }
    ensures { Filled branch_count by_vertex.now.mesh.corners.now by_vertex.now.mesh.twins.now
        points.now
        ends.old branch_count
        (stock result.channels result.crossings ends.new numbers.new places.new) }
{
    let mut counts = TraceCounts {
        crossings: 0,
        channels: 0,
    };
    for e in 0..branch_count {
        counts = store_branch(
            by_vertex,
            points,
            branch_count,
            e,
            counts,
            walked,
            ends,
            numbers,
            places,
        );
    }
    counts
}

/// Unmarks all half-edges.
pub(crate) fn clear_marks(branch_count: u32, edge_count: usize, ends: &mut [u32])
    requires { 4 * (branch_count + edge_count) + 4 ≤ length ends.old }
    ensures ends_unchanged { take (4 * branch_count) ends.new ≡ take (4 * branch_count) ends.old }
    ensures unmarked { (h : ℕ) → h < edge_count
        → get_or ends.new (4 * (branch_count + h) + 1) 0 ≡ 0 }
{
    for h in 0..edge_count {
        ends[4 * (branch_count as usize + h) + 1] = 0;
    }
}
