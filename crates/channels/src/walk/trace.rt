//! The walk of one line from vertex to vertex, by the half-edges that it crosses (docs/RULES.md,
//! 'Walk').
ghost use Rattle.std.specs.Prelude.{◌≡◌, ◌+◌, ◌≤◌, ◌<◌, length};
ghost use Rattle.plane.specs.Plane.{point_at};
ghost use Rattle.channels.specs.Trace.{crosses_half_edge, leave, started, out_by, pass_on, after};
ghost use Rattle.channels.specs.Trace.{traced, home_of, WalkWritten};

use crate::half_edges::{MeshByVertex, first_at};
use crate::walk::Step;
use network::mesh::{end_at, next};
use numbers::order::at;
use plane::crossing::segments_cross;
use plane::geometry::point_at;

/// A line over a mesh.
#[derive(Clone, Copy)]
pub struct WalkedLine<'a> {
    /// The mesh.
    pub by_vertex: MeshByVertex<'a>,
    /// The places of the vertices, two numbers each.
    pub points: &'a [f64],
    /// The vertex that the line runs from.
    pub start: u32,
    /// The vertex that it runs to, another one.
    pub end: u32,
}

/// A walk's crossings. Those of a cleared walk stay in their channels, so they are counted too.
#[derive(Clone, Copy)]
pub struct Walked {
    /// How many half-edges the walk crosses.
    pub count: usize,
    /// Whether the line's path keeps them; else the walk is cleared.
    pub kept: bool,
}

// Whether the line crosses a half-edge. Below 2^32 - 1 the half-edges after it fit 32 bits too.
#[tactic(auto, unfolding(crate::specs::Trace::crosses_half_edge))]
fn crosses_half_edge(line: &WalkedLine<'_>, half_edge: usize) -> bool
    requires { half_edge < 0xffff_ffff }
    ensures { result
        ≡ crosses_half_edge line.now.by_vertex.mesh.corners.now (point_at line.now.points.now)
        line.now.start line.now.end half_edge }
{
    let a = at(line.by_vertex.mesh.corners, half_edge) as usize;
    let b = end_at(line.by_vertex.mesh.corners, half_edge) as usize;
    segments_cross(
        point_at(line.points, line.start as usize),
        point_at(line.points, line.end as usize),
        point_at(line.points, a),
        point_at(line.points, b),
    )
}

// How the line leaves its first vertex in the triangle of a half-edge that starts there.
#[tactic(auto, using(crate::proofs::walk::Steps::in_u32), unfolding(crate::specs::Trace::leave))]
fn leave(line: &WalkedLine<'_>, half_edge: usize) -> Step
    requires { half_edge < 0xffff_ffff }
    ensures { result ≡ leave line.now.by_vertex.mesh.corners.now (point_at line.now.points.now)
        line.now.start line.now.end half_edge }
{
    let e = next(half_edge);
    let f = next(e);
    if at(line.by_vertex.mesh.corners, e) == line.end
        || at(line.by_vertex.mesh.corners, f) == line.end
    {
        return Step::Home;
    }
    if crosses_half_edge(line, e) {
        return Step::Out(e as u32);
    }
    Step::Lost
}

// How the line leaves its first vertex: the triangles around it are tried by number.
#[tactic(auto, using(crate::proofs::walk::Seeking::seek_laws))]
fn start(line: &WalkedLine<'_>) -> Step
    ensures { result ≡ started line.now.by_vertex.mesh.corners.now (point_at line.now.points.now)
        line.now.start line.now.end }
{
    let corners = line.by_vertex.mesh.corners;
    for p in first_at(corners, line.by_vertex.around, line.start as usize)..corners.len() {
        let h = at(line.by_vertex.around, p) as usize;
        if at(corners, h) != line.start {
            return Step::Lost;
        }
        match leave(line, h) {
            Step::Lost => {},
            x => return x,
        }
    }
    Step::Lost
}

// The first of two half-edges that the line crosses.
#[tactic(auto, unfolding(crate::specs::Trace::out_by))]
fn out_by(line: &WalkedLine<'_>, first: usize, second: usize) -> Step
    requires first_fits { first < 0xffff_ffff }
    requires second_fits { second < 0xffff_ffff }
    ensures { result ≡ out_by line.now.by_vertex.mesh.corners.now (point_at line.now.points.now)
        line.now.start line.now.end first second }
{
    if crosses_half_edge(line, first) {
        return Step::Out(first as u32);
    }
    if crosses_half_edge(line, second) {
        return Step::Out(second as u32);
    }
    Step::Lost
}

// How the line goes on in the triangle of the half-edge that it comes in through.
#[tactic(auto, using(crate::proofs::walk::Steps::in_u32), unfolding(crate::specs::Trace::pass_on))]
fn pass_on(line: &WalkedLine<'_>, entered: usize) -> Step
    requires { entered < 0xffff_ffff }
    ensures { result ≡ pass_on line.now.by_vertex.mesh.corners.now (point_at line.now.points.now)
        line.now.start line.now.end entered }
{
    let e = next(entered);
    let f = next(e);
    if at(line.by_vertex.mesh.corners, f) == line.end {
        return Step::Home;
    }
    out_by(line, e, f)
}

// What the walk does after it has crossed a half-edge.
#[tactic(auto, unfolding(crate::specs::Trace::after))]
fn after(line: &WalkedLine<'_>, crossed: u32) -> Step
    ensures { result ≡ after line.now.by_vertex.mesh.corners.now line.now.by_vertex.mesh.twins.now
        (point_at line.now.points.now) line.now.start line.now.end crossed }
{
    let g = at(line.by_vertex.mesh.twins, crossed as usize);
    if g == u32::MAX {
        return Step::Home;
    }
    pass_on(line, g as usize)
}

// Whether a walk that makes no more crossings keeps those it has made.
#[tactic(auto, unfolding(crate::specs::Trace::home_of))]
fn home(step: Step) -> bool
    ensures { result ≡ home_of step }
{
    matches!(step, Step::Home)
}

/// Walks one line: the half-edges that it crosses, in order, at the front of `walked`, whose rest
/// stays.
#[tactic(auto, using(crate::proofs::walk::Steps::begin, crate::proofs::walk::Steps::going))]
pub fn trace(line: &WalkedLine<'_>, walked: &mut [u32]) -> Walked
    requires { length line.now.by_vertex.mesh.corners.now ≤ length walked.old }
    ensures { WalkWritten
        (traced line.now.by_vertex.mesh.corners.now line.now.by_vertex.mesh.twins.now
        (point_at line.now.points.now) line.now.start line.now.end)
        walked.old walked.new result.count result.kept }
{
    let most = line.by_vertex.mesh.corners.len();
    let mut x = start(line);
    for n in 0..most {
        let Step::Out(h) = x else {
            return Walked {
                count: n,
                kept: home(x),
            };
        };
        walked[n] = h;
        x = after(line, h);
    }
    Walked {
        count: most,
        kept: home(x),
    }
}
