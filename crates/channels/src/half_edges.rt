//! The half-edges of a mesh by the vertex that they start at, and where in that order a vertex's
//! own begin.
ghost use Rattle.std.specs.Prelude.{◌≡◌, ◌++◌, ◌+◌, ◌^◌, ◌≤◌, ◌<◌, length, take, drop};
ghost use Rattle.std.specs.Prelude.{replicate, get_or};
ghost use Rattle.channels.specs.Round.{round_of, first_at};

use network::mesh::Mesh;
use numbers::order::{at, number, sort_by_key};

/// A mesh of no more half-edges than a mesh may have, and its half-edges by the vertex that they
/// start at.
#[derive(Clone, Copy)]
pub struct MeshByVertex<'a> {
    /// The mesh.
    pub mesh: Mesh<'a>,
    /// At its front the mesh's half-edges, as `go_round` orders them.
    pub around: &'a [u32],
    pub ghost few: { length mesh.corners.now ≤ 24576 },
    pub ghost by_vertex: { take (length mesh.corners.now) around.now ≡ round_of mesh.corners.now },
}

// Copies the vertices to a list of keys.
fn widen(corners: &[u32], keys: &mut [u64])
    requires { length keys.old ≡ length corners.now }
    ensures { keys.new ≡ corners.now }
{
    for (i, &c) in corners.iter().enumerate() {
        keys[i] = c as u64;
    }
}

// The half-edges by the vertex that they start at; the other lists are as long.
fn round_all(corners: &[u32], keys: &mut [u64], around: &mut [u32], spare: &mut [u32])
    requires fits_u32 { length corners.now ≤ 2 ^ 32 }
    requires keys_length { length keys.old ≡ length corners.now }
    requires around_length { length around.old ≡ length corners.now }
    requires spare_length { length spare.old ≡ length corners.now }
    ensures keys_after { keys.new ≡ corners.now }
    ensures around_after { around.new ≡ round_of corners.now }
    ensures spare_after { spare.new ≡ replicate (length corners.now) 0 }
{
    widen(corners, keys);
    number(around);
    sort_by_key(keys, around, spare);
}

/// The half-edges by the vertex that they start at, those of one vertex by number, at the front of
/// `around`. `keys` and `spare` are work lists; of all three the rest stays.
pub fn go_round(corners: &[u32], keys: &mut [u64], around: &mut [u32], spare: &mut [u32])
    requires fits_u32 { length corners.now ≤ 2 ^ 32 }
    requires keys_room { length corners.now ≤ length keys.old }
    requires around_room { length corners.now ≤ length around.old }
    requires spare_room { length corners.now ≤ length spare.old }
    ensures keys_after { keys.new ≡ corners.now ++ drop (length corners.now) keys.old }
    ensures around_after { around.new
        ≡ round_of corners.now ++ drop (length corners.now) around.old }
    ensures spare_after { spare.new
        ≡ replicate (length corners.now) 0 ++ drop (length corners.now) spare.old }
{
    let n = corners.len();
    round_all(corners, &mut keys[..n], &mut around[..n], &mut spare[..n]);
}

/// The index in `around` at which the half-edges that start at a vertex begin, by halving.
pub fn first_at(corners: &[u32], around: &[u32], vertex: usize) -> usize
    requires { take (length corners.now) around.now ≡ round_of corners.now }
    ensures { result ≡ first_at corners.now vertex }
{
    around[..corners.len()].partition_point(|&h| (at(corners, h as usize) as usize) < vertex)
}
