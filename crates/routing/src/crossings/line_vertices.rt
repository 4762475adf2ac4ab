// Of each branch the vertices that a line runs between.
ghost use Rattle.std.specs.Prelude.{◌≡◌, ◌+◌, ◌*◌, ◌≤◌, length};
ghost use Rattle.network.specs.declared.words.Kind.TheVariants.{Line};
ghost use Rattle.network.specs.Views.{order_in};
ghost use Rattle.routing.specs.Stages.Store.{vertices_for, HoldVertices};
ghost use Rattle.routing.specs.Stages.Lent.{line_vertices_over};

use crate::crossings::vertices::{Vertices, vertex_of};
use network::lists::Network;
use network::words::{Kind, kind_of, station_of};

/// The vertices of a branch: of a line one more than its first vertex, and its second vertex; 0 and
/// 0 of any other branch.
#[derive(Clone, Copy)]
pub(crate) struct LineVertices {
    pub start: u32,
    pub end: u32,
}

// The vertices of a line between two buses.
#[tactic(auto, unfolding(crate::specs::Stages::Store::vertices_for))]
fn vertices_between(
    sub: &[u32],
    vertices: &Vertices<'_>,
    from_bus: usize,
    to_bus: usize,
) -> LineVertices
    ensures { result
        ≡ vertices_for sub.now (order_in vertices.now.c vertices.now.stations.now)
        (Line from_bus to_bus) }
{
    let va = vertex_of(vertices, station_of(sub, from_bus));
    let vb = vertex_of(vertices, station_of(sub, to_bus));
    LineVertices {
        start: va as u32 + 1,
        end: vb as u32,
    }
}

// The vertices of a branch.
fn line_vertices(network: &Network<'_>, vertices: &Vertices<'_>, branch: usize) -> LineVertices
    ensures { result ≡ line_vertices_over network.now vertices.now branch }
{
    match kind_of(network, branch) {
        Kind::Line(a, b) => vertices_between(network.sub, vertices, a, b),
        _ => LineVertices { start: 0, end: 0 },
    }
}

/// Writes each branch's vertices as the last two of its four numbers.
pub(crate) fn write_vertices(network: &Network<'_>, vertices: &Vertices<'_>, ends: &mut [u32])
    requires { 4 * length network.now.from.now ≤ length ends.old }
    ensures { HoldVertices (line_vertices_over network.now vertices.now) (length
        network.now.from.now)
        (length network.now.from.now) ends.old ends.new }
{
    for e in 0..network.from.len() {
        let w = line_vertices(network, vertices, e);
        ends[4 * e + 2] = w.start;
        ends[4 * e + 3] = w.end;
    }
}
