// Refusal 13: whether the audited drawing fits its network (docs/RULES.md, 'Fit').
ghost use Rattle.std.specs.Prelude.{◌≡◌, ◌*◌, ◌≤◌, eqb, length, get_or};
ghost use Rattle.audit.specs.Fit.{all_named, is_line, joins, all_join, moderate, all_moderate};
ghost use Rattle.audit.specs.Fit.{ordered, all_ordered, fits};

use crate::fit::drawn::{Drawn, FewBuses};
use network::words::{end_of, station_count, station_of};
use numbers::float::small::abs;
use plane::geometry::{Box, box_at};

// The branch that a piece names, 0 past the list's end.
pub(crate) fn branch_of(branches: &[u32], piece: usize) -> usize
    ensures { result ≡ get_or branches.now piece 0 }
{
    station_of(branches, piece)
}

// Whether every piece names one of `count` branches.
fn all_named(count: usize, branches: &[u32]) -> bool
    ensures { result ≡ all_named count branches.now }
{
    branches.iter().all(|&b| (b as usize) < count)
}

// Whether a branch has line role: 0.
#[tactic(auto, unfolding(crate::specs::Fit::is_line))]
pub(crate) fn is_line(roles: &[u8], branch: usize) -> bool
    ensures { result ≡ is_line roles.now branch }
{
    roles.get(branch) == Some(&0)
}

// Whether a branch has no line role or two known ends.
#[tactic(auto, unfolding(crate::specs::Fit::joins, crate::specs::Fit::end_at))]
fn joins(drawing: &Drawn<'_>, branch: usize) -> bool
    ensures { result ≡ joins (length drawing.now.sub.now) drawing.now.from.now drawing.now.to.now
        drawing.now.roles.now branch }
{
    let n = drawing.sub.len();
    !is_line(drawing.roles, branch)
        || end_of(n, drawing.from, branch).is_some() && end_of(n, drawing.to, branch).is_some()
}

// Whether no line-role branch has an unknown end.
fn all_join(drawing: &Drawn<'_>) -> bool
    ensures { result ≡ all_join (length drawing.now.sub.now) drawing.now.from.now drawing.now.to.now
        drawing.now.roles.now }
{
    (0..drawing.from.len()).all(|e| joins(drawing, e))
}

// Whether a number is at most 2^100 in size.
#[tactic(auto, unfolding(crate::specs::Fit::moderate))]
fn moderate(number: f64) -> bool
    ensures { result ≡ moderate number }
{
    abs(number) <= f64::from_bits(0x4630_0000_0000_0000)
}

// Whether all numbers of a list are at most 2^100 in size.
fn all_moderate(list: &[f64]) -> bool
    ensures { result ≡ all_moderate list.now }
{
    list.iter().all(|&x| moderate(x))
}

// Whether a box's left isn't above its right nor its top above its bottom.
#[tactic(auto, unfolding(crate::specs::Fit::ordered))]
fn ordered(outline: Box) -> bool
    ensures { result ≡ ordered outline }
{
    !(outline.right < outline.left) && !(outline.bottom < outline.top)
}

// Whether the boxes of all stations are ordered.
fn all_ordered(stations: usize, boxes: &[f64]) -> bool
    requires { 4 * stations ≤ length boxes.now }
    ensures { result ≡ all_ordered stations boxes.now }
{
    (0..stations).all(|s| ordered(box_at(boxes, s)))
}

// Whether the piece numbers are four for each branch number.
fn fours(pieces: &[f64], branches: &[u32]) -> bool
    ensures { result ≡ eqb (length pieces.now) (4 * length branches.now) }
{
    pieces.len() % 4 == 0 && pieces.len() / 4 == branches.len()
}

// Whether the drawing fits its network: refusal 13 where it doesn't.
#[tactic(auto, unfolding(crate::specs::Fit::fits))]
pub(crate) fn fits(drawing: &FewBuses<'_>) -> bool
    ensures { result ≡ fits drawing.now.lists.sub.now drawing.now.lists.from.now
        drawing.now.lists.to.now drawing.now.lists.boxes.now drawing.now.lists.roles.now
        drawing.now.lists.pieces.now drawing.now.lists.branches.now }
{
    let drawing = drawing.lists;
    let k = station_count(drawing.sub);
    drawing.boxes.len() == 4 * k
        && drawing.roles.len() == drawing.from.len()
        && fours(drawing.pieces, drawing.branches)
        && all_named(drawing.from.len(), drawing.branches)
        && all_join(&drawing)
        && all_moderate(drawing.boxes)
        && all_moderate(drawing.pieces)
        && all_ordered(k, drawing.boxes)
}
