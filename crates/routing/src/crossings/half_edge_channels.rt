// The channels between vertices: which one a half-edge belongs to, and a new one. Behind the four
// numbers of each branch `ends` has four of each half-edge and of each channel: the second is a
// half-edge's mark, one more than its channel's number, and the third a channel's half-edge.
ghost use Rattle.std.specs.Prelude.{◌≡◌, ◌+◌, ◌*◌, ◌≤◌, ◌<◌, length, get_or, set};
ghost use Rattle.routing.specs.Stages.Store.{half_edges_from, stamp, with_marks, number_for};
ghost use Rattle.routing.specs.Stages.Store.{marks_for, count_with};

use channels::half_edges::{MeshByVertex, first_at};
use network::mesh::end_at;
use numbers::order::at;

// Stores a number in a list, nothing past its end.
fn put(list: &mut [u32], index: usize, value: u32)
    ensures { list.new ≡ set list.old index value }
{
    if index < list.len() {
        list[index] = value;
    }
}

// Marks the half-edges that run from one vertex to another, among those that start at the first.
#[tactic(auto, using(crate::proofs::crossings::Marking::marking))]
fn mark_from(
    by_vertex: &MeshByVertex<'_>,
    branch_count: u32,
    from_vertex: usize,
    to_vertex: usize,
    mark: u32,
    ends: &mut [u32],
)
    ensures { ends.new
        ≡ stamp branch_count mark (half_edges_from by_vertex.now.mesh.corners.now from_vertex
        to_vertex)
        ends.old }
{
    let corners = by_vertex.mesh.corners;
    for p in first_at(corners, by_vertex.around, from_vertex)..corners.len() {
        let h = at(by_vertex.around, p) as usize;
        if at(corners, h) as usize != from_vertex {
            return;
        }
        if end_at(corners, h) as usize == to_vertex {
            put(ends, 4 * (branch_count as usize + h) + 1, mark);
        }
    }
}

// Makes a half-edge's channel: the half-edge is noted for it, and every half-edge between the two
// vertices, either way, is marked.
#[tactic(auto, unfolding(crate::specs::Stages::Store::with_marks))]
fn make_channel(
    by_vertex: &MeshByVertex<'_>,
    branch_count: u32,
    half_edge: u32,
    channel: usize,
    ends: &mut [u32],
)
    requires few_channels { channel < 0xffff_ffff }
    ensures { ends.new
        ≡ with_marks by_vertex.now.mesh.corners.now branch_count half_edge channel ends.old }
{
    let v = at(by_vertex.mesh.corners, half_edge as usize) as usize;
    let w = end_at(by_vertex.mesh.corners, half_edge as usize) as usize;
    let mark = channel as u32 + 1;
    put(ends, 4 * (branch_count as usize + channel) + 2, half_edge);
    mark_from(by_vertex, branch_count, v, w, mark, ends);
    mark_from(by_vertex, branch_count, w, v, mark, ends);
}

/// The number of a half-edge's channel, of so many channels; where it has none yet, one is made
/// with the next number.
pub(crate) fn channel_for(
    by_vertex: &MeshByVertex<'_>,
    branch_count: u32,
    half_edge: u32,
    channels: usize,
    ends: &mut [u32],
) -> usize
    requires few_channels { channels < 0xffff_ffff }
    ensures is_number { result
        ≡ number_for channels (get_or ends.old (4 * (branch_count + half_edge) + 1) 0) }
    ensures ends_after { ends.new
        ≡ marks_for by_vertex.now.mesh.corners.now branch_count half_edge channels
        (get_or ends.old (4 * (branch_count + half_edge) + 1) 0) ends.old }
    ensures number_fits { result < 0xffff_ffff }
{
    let mark = at(ends, 4 * (branch_count as usize + half_edge as usize) + 1) as usize;
    if mark == 0 {
        make_channel(by_vertex, branch_count, half_edge, channels, ends);
        return channels;
    }
    mark - 1
}

/// How many channels there are when `channel` has been crossed, `channels` before: one more where
/// it is the new one.
#[tactic(auto, unfolding(crate::specs::Stages::Store::count_with))]
pub(crate) fn count_with(channels: usize, channel: usize) -> usize
    requires few_channels { channels < 0xffff_ffff }
    ensures counted { result ≡ count_with channels channel }
    ensures at_most_one_more { result ≤ channels + 1 }
{
    if channel == channels {
        channels + 1
    } else {
        channels
    }
}
