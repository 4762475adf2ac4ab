// Lines cross mesh edges as they walk over the mesh (docs/RULES.md, 'Walk'). Every line traced, or
// refusal 10.
ghost use Rattle.std.specs.Prelude.{◌≡◌, true, ◌+◌, ◌*◌, ◌≤◌, length};
ghost use Rattle.network.specs.Mesh.{mesh_ok};
ghost use Rattle.routing.specs.Stages.Store.{Unmarked, MeshPasses};
ghost use Rattle.routing.specs.Stages.Traced.{Settled, Traced, Pathless};
ghost use Rattle.routing.specs.Stages.Lent.{scene_over};

use crate::crossings::line_vertices::write_vertices;
use crate::crossings::vertices::Vertices;
use crate::tracing::lines::{TraceCounts, clear_marks, count_all, store_all};
use channels::half_edges::{MeshByVertex, go_round};
use network::lists::Network;

/// Sets the paths of all branches to none.
pub(crate) fn clear_walks(branch_count: usize, ends: &mut [u32])
    requires { 4 * branch_count ≤ length ends.old }
    ensures { Pathless branch_count ends.old ends.new }
{
    for e in 0..branch_count {
        ends[4 * e + 2] = 0;
        ends[4 * e + 3] = 0;
    }
}

// Counts the crossings of all branches by their vertices, and stores them where there is room; else
// answers how many there are.
fn store_routes(
    by_vertex: &MeshByVertex<'_>,
    points: &[f64],
    branch_count: u32,
    room: usize,
    walked: &mut [u32],
    ends: &mut [u32],
    numbers: &mut [u32],
    places: &mut [f64],
) -> Result<TraceCounts, usize>
    requires few_branches { branch_count ≤ 8192 }
    requires walked_fits { length by_vertex.now.mesh.corners.now ≤ length walked.old }
    requires ends_fit { 4 * (branch_count + length by_vertex.now.mesh.corners.now) + 4
        ≤ length ends.old }
    requires numbers_fit { 3 * room ≤ length numbers.old }
    requires places_fit { room ≤ length places.old }
    requires mesh_passes { MeshPasses by_vertex.now.mesh.corners.now by_vertex.now.mesh.twins.now }
    requires unmarked { Unmarked branch_count by_vertex.now.mesh.corners.now ends.old }
    ensures { Settled branch_count by_vertex.now.mesh.corners.now by_vertex.now.mesh.twins.now
        points.now
        room ends.old result ends.new numbers.new places.new }
{
    let x = count_all(by_vertex, points, branch_count, ends, walked);
    if x > room {
        return Err(x);
    }
    Ok(store_all(
        by_vertex,
        points,
        branch_count,
        walked,
        ends,
        numbers,
        places,
    ))
}

/// Traces every line between the occupied stations, whose places are at the front of `path`, and
/// stores its crossings and its path. The crossing lists hold `room` crossings; where there are
/// more, none is stored, and their number is the error. `keys`, `sorted` and `spare` are work
/// lists.
pub(crate) fn trace_all(
    network: &Network<'_>,
    vertices: &Vertices<'_>,
    path: &[f64],
    room: usize,
    keys: &mut [u64],
    sorted: &mut [u32],
    spare: &mut [u32],
    ends: &mut [u32],
    numbers: &mut [u32],
    places: &mut [f64],
) -> Result<TraceCounts, usize>
    requires few_branches { length network.now.from.now ≤ 8192 }
    requires path_given { 2 * vertices.now.c ≤ length path.now }
    requires keys_fit { length network.now.mesh.corners.now ≤ length keys.old }
    requires sorted_fits { length network.now.mesh.corners.now ≤ length sorted.old }
    requires spare_fits { length network.now.mesh.corners.now ≤ length spare.old }
    requires ends_fit { 4 * (length network.now.from.now + length network.now.mesh.corners.now) + 4
        ≤ length ends.old }
    requires numbers_fit { 3 * room ≤ length numbers.old }
    requires places_fit { room ≤ length places.old }
    requires mesh_passes { mesh_ok network.now.mesh.corners.now network.now.mesh.twins.now
        vertices.now.c ≡ true }
    ensures { Traced (λ k G. scene_over network.now vertices.now path.now k G)
        (length network.now.from.now) network.now.mesh.corners.now room ends.old result
        ends.new numbers.new places.new }
{
    let m = network.from.len() as u32;
    let n = network.mesh.corners.len();
    write_vertices(network, vertices, ends);
    clear_marks(m, n, ends);
    go_round(network.mesh.corners, keys, sorted, spare);
    let by_vertex = MeshByVertex {
        mesh: network.mesh,
        around: sorted,
    };
    let last = 2 * vertices.c;
    store_routes(
        &by_vertex,
        &path[..last],
        m,
        room,
        spare,
        ends,
        numbers,
        places,
    )
}
