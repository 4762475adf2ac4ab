//! The mesh of triangles between occupied stations, and the test that refusal 9 asks
//! (docs/RULES.md, 'Mesh').
ghost use Rattle.std.specs.Prelude.{◌≡◌, ◌+◌, ◌≤◌, ◌<◌, length};
ghost use Rattle.network.specs.Mesh.{next, end_at, corner_ok, reversed, pairs, twin_ok};
ghost use Rattle.network.specs.Mesh.{half_edge_ok, half_edges_ok, mesh_ok};

use numbers::order::at;

/// A mesh as a call is lent it: two numbers of each half-edge. Three half-edges in a row are a
/// triangle.
#[derive(Clone, Copy)]
pub struct Mesh<'a> {
    /// The vertex at which a half-edge starts: the number of an occupied station among them.
    pub corners: &'a [u32],
    /// The half-edge that runs the other way, `u32::MAX` where there is none.
    pub twins: &'a [u32],
}

/// The half-edge after this one in its triangle.
#[tactic(auto, unfolding(crate::specs::Mesh::next))]
pub fn next(half_edge: usize) -> usize
    requires { half_edge < 0x1_0000_0002 }
    ensures is_next { result ≡ next half_edge }
    ensures at_most_one_more { result ≤ half_edge + 1 }
{
    if half_edge % 3 == 2 {
        half_edge - 2
    } else {
        half_edge + 1
    }
}

/// The vertex to which a half-edge runs.
#[tactic(auto, unfolding(crate::specs::Mesh::end_at))]
pub fn end_at(corners: &[u32], half_edge: usize) -> u32
    requires { half_edge < 0x1_0000_0002 }
    ensures { result ≡ end_at corners.now half_edge }
{
    at(corners, next(half_edge))
}

// Whether a half-edge starts at a vertex below the number of occupied stations, and ends at
// another one.
#[tactic(auto, unfolding(crate::specs::Mesh::corner_ok))]
fn corner_ok(corners: &[u32], occupied: usize, half_edge: u32) -> bool
    ensures { result ≡ corner_ok corners.now occupied half_edge }
{
    let vertex = at(corners, half_edge as usize);
    if (vertex as usize) < occupied {
        return vertex != end_at(corners, half_edge as usize);
    }
    false
}

// Whether the other half-edge starts where this one ends, and ends where this one starts.
#[tactic(auto, unfolding(crate::specs::Mesh::reversed))]
fn reversed(corners: &[u32], half_edge: u32, other: u32) -> bool
    ensures { result ≡ reversed corners.now half_edge other }
{
    if at(corners, other as usize) == end_at(corners, half_edge as usize) {
        return end_at(corners, other as usize) == at(corners, half_edge as usize);
    }
    false
}

// Whether the other number is that of a half-edge whose twin is this one and whose ends are
// those of this one, reversed.
#[tactic(auto, unfolding(crate::specs::Mesh::pairs))]
fn pairs(mesh: &Mesh<'_>, half_edge: u32, other: u32) -> bool
    ensures { result ≡ pairs mesh.now.corners.now mesh.now.twins.now half_edge other }
{
    if (other as usize) < mesh.corners.len() {
        if at(mesh.twins, other as usize) == half_edge {
            return reversed(mesh.corners, half_edge, other);
        }
    }
    false
}

// Whether a half-edge has no twin or one that points back, with the ends reversed.
#[tactic(auto, unfolding(crate::specs::Mesh::twin_ok))]
fn twin_ok(mesh: &Mesh<'_>, half_edge: u32) -> bool
    ensures { result ≡ twin_ok mesh.now.corners.now mesh.now.twins.now half_edge }
{
    let twin = at(mesh.twins, half_edge as usize);
    if twin == u32::MAX {
        return true;
    }
    pairs(mesh, half_edge, twin)
}

// Whether a half-edge's vertex and twin are in order.
fn half_edge_ok(mesh: &Mesh<'_>, occupied: usize, half_edge: u32) -> bool
    ensures { result ≡ half_edge_ok mesh.now.corners.now mesh.now.twins.now occupied half_edge }
{
    corner_ok(mesh.corners, occupied, half_edge) && twin_ok(mesh, half_edge)
}

// Whether every half-edge's vertex and twin are in order.
fn half_edges_ok(mesh: &Mesh<'_>, occupied: usize) -> bool
    requires { length mesh.now.corners.now ≤ 24576 }
    ensures { result ≡ half_edges_ok mesh.now.corners.now mesh.now.twins.now occupied }
{
    (0..mesh.corners.len() as u32).all(|half_edge| half_edge_ok(mesh, occupied, half_edge))
}

/// Whether the two lists are a mesh over so many occupied stations: else refusal 9 stands.
#[tactic(auto, unfolding(crate::specs::Mesh::mesh_ok))]
pub fn mesh_ok(mesh: &Mesh<'_>, occupied: usize) -> bool
    ensures { result ≡ mesh_ok mesh.now.corners.now mesh.now.twins.now occupied }
{
    if mesh.twins.len() != mesh.corners.len() {
        return false;
    }
    if mesh.corners.len() % 3 != 0 {
        return false;
    }
    if mesh.corners.len() > 24576 {
        return false;
    }
    half_edges_ok(mesh, occupied)
}
