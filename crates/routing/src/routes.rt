// Lines routed through the mesh: refusals 9 and 10, crossings, rounds, waypoints.
ghost use Rattle.std.specs.Prelude.{◌≡◌, ℕ, ◌+◌, ◌*◌, ◌≤◌, ◌<◌, length};
ghost use Rattle.std.specs.Result.{result_err};
ghost use Rattle.network.specs.Mesh.{mesh_ok};
ghost use Rattle.routing.specs.Stages.RoundLists.{station_in};
ghost use Rattle.routing.specs.Stages.Exits.{Exited};
ghost use Rattle.routing.specs.Routes.{mesh_used};
ghost use Rattle.routing.specs.Stages.Routed.{Routes};
ghost use Rattle.routing.specs.Stages.Led.{Led};
ghost use Rattle.routing.specs.Stages.Lent.{grid_among, scene_among, half_edges};
ghost use Rattle.routing.specs.Stages.Lent.{HoldsCrossings, HoldsHalfEdges};

use crate::crossings::vertices::{Vertices, occupied_vertices};
use crate::rounds::space_all_rounds;
use crate::surroundings::Surroundings;
use crate::tracing::routes::{clear_walks, trace_all};
use network::lists::Bounded;
use network::mesh::mesh_ok;
use network::refusals::Refusal;

// Whether the mesh is looked at.
#[tactic(auto, unfolding(crate::specs::Routes::mesh_used))]
fn mesh_used(stations: usize, iterations: u32) -> bool
    ensures { result ≡ mesh_used stations iterations }
{
    3 <= stations && 0 < iterations
}

// Routes the lines through the mesh over the occupied stations, whose places are at the front of
// `path`; the channels are written behind them.
#[tactic(auto, using(crate::proofs::routes::Leading::mesh_room))]
fn route_used(
    room: usize,
    network: &Bounded<'_>,
    surroundings: &Surroundings<'_>,
    vertices: &Vertices<'_>,
    ends: &mut [u32],
    sorted: &mut [u32],
    spare: &mut [u32],
    keys: &mut [u64],
    path: &mut [f64],
    numbers: &mut [u32],
    along: &mut [f64],
    ways: &mut [f64],
) -> Result<(), Refusal>
    requires frames_given { 4 * surroundings.now.station_count
        ≤ length surroundings.now.frames.now }
    requires path_fits { 2 * vertices.now.c + 3 * half_edges network.now.lists
        ≤ length path.old }
    requires exits_given { Exited (grid_among network.now.lists surroundings.now ends.old) }
    requires holds_crossings { HoldsCrossings room
        numbers.old along.old ways.old sorted.old spare.old keys.old }
    requires holds_half_edges { HoldsHalfEdges network.now.lists
        ends.old sorted.old spare.old keys.old }
    requires corners_in_bounds { (v : ℕ) → v < vertices.now.c
        → station_in vertices.now.stations.now v < surroundings.now.station_count }
    ensures { Led
        (scene_among network.now.lists surroundings.now vertices.now.c vertices.now.stations.now
        ends.old path.old)
        (length network.now.lists.from.now)
        network.now.lists.mesh.corners.now ends.old
        (mesh_ok network.now.lists.mesh.corners.now
        network.now.lists.mesh.twins.now vertices.now.c)
        surroundings.now.iterations room (result_err result) ends.new ways.new }
{
    if !mesh_ok(&network.lists.mesh, vertices.c) {
        return Err(Refusal::Mesh);
    }
    let traced = trace_all(
        &network.lists,
        vertices,
        path,
        room,
        keys,
        sorted,
        spare,
        ends,
        numbers,
        along,
    );
    let Ok(t) = traced else {
        return Err(Refusal::Crossings);
    };
    space_all_rounds(
        network,
        surroundings,
        vertices,
        ends,
        path,
        t,
        numbers,
        along,
        ways,
        sorted,
        spare,
        keys,
    );
    Ok(())
}

/// Routes the lines of the network through the mesh (docs/RULES.md, 'Rounds and waypoints'), where
/// three stations or more are occupied and there are iterations; else no line has a waypoint. The
/// lines' exits stand behind the stations' places, as `write_exits` puts them. The occupied
/// stations become the second of two numbers each of `stations`; a branch's last two numbers of
/// `ends` become its first waypoint in `ways` and how many it has. `numbers` and `along` hold
/// `room` crossings; `sorted`, `spare`, `keys` and `path` are work lists. Of what these six hold
/// afterwards nothing is said: the steps that follow read the waypoints in `ways`, and the call
/// clears the six when it ends.
///
/// Refusal 9 where the mesh doesn't pass its test, refusal 10 where there are more crossings than
/// `room`.
#[tactic(auto, using(crate::proofs::routes::Scenes::order_rises))]
pub fn route_lines(
    room: usize,
    network: &Bounded<'_>,
    surroundings: &Surroundings<'_>,
    stations: &mut [u32],
    ends: &mut [u32],
    sorted: &mut [u32],
    spare: &mut [u32],
    keys: &mut [u64],
    path: &mut [f64],
    numbers: &mut [u32],
    along: &mut [f64],
    ways: &mut [f64],
) -> Result<(), Refusal>
    requires few_stations { surroundings.now.station_count ≤ 4096 }
    requires stations_fit { 2 * surroundings.now.station_count ≤ length stations.old }
    requires places_given { 2 * surroundings.now.station_count
        ≤ length surroundings.now.places.now }
    requires frames_given { 4 * surroundings.now.station_count
        ≤ length surroundings.now.frames.now }
    requires path_fits { 2 * surroundings.now.station_count
        + 3 * half_edges network.now.lists ≤ length path.old }
    requires exits_given { Exited (grid_among network.now.lists surroundings.now ends.old) }
    requires holds_crossings { HoldsCrossings room
        numbers.old along.old ways.old sorted.old spare.old keys.old }
    requires holds_half_edges { HoldsHalfEdges network.now.lists
        ends.old sorted.old spare.old keys.old }
    ensures { Routes (grid_among network.now.lists surroundings.now ends.old)
        surroundings.now.station_count
        stations.old network.now.lists.mesh.corners.now
        network.now.lists.mesh.twins.now
        surroundings.now.iterations room (result_err result) stations.new ends.new ways.new }
{
    let c = occupied_vertices(
        surroundings.station_count,
        stations,
        surroundings.places,
        path,
    );
    if !mesh_used(c, surroundings.iterations) {
        clear_walks(network.lists.from.len(), ends);
        return Ok(());
    }
    let vertices = Vertices { c, stations };
    route_used(
        room,
        network,
        surroundings,
        &vertices,
        ends,
        sorted,
        spare,
        keys,
        path,
        numbers,
        along,
        ways,
    )
}
