//! One station's place: the first free one round its seed, else the seed (docs/RULES.md, 'Free
//! places').
ghost use Rattle.std.specs.Prelude.{◌≡◌, ◌+◌, ◌*◌, ◌≤◌, ◌<◌, nat_abs, length, take};
ghost use Rattle.numbers.specs.Lists.{All};
ghost use Rattle.placement.specs.Search as Place;
ghost use Rattle.placement.specs.Search.{free, box_on, buffered, first_free, found_place};
ghost use Rattle.placement.specs.Stages.Among.{half, half_sides_of, kept_boxes, boxes_among};
ghost use Rattle.placement.specs.Stages.Among.{column_of, Holds};
ghost use Rattle.offset_table.specs.Table.{skipped};
ghost use Rattle.placement.specs.Stages.OneProof.{holds_prop};

use numbers::float::small::max;
use offset_table::{is_inside, pair_at};
use offsets::offset::Offset;
use plane::box_order::{TestedPart, tested_part};
use plane::cells::shifted;
use plane::geometry::{Box, Point, box_at};
use plane::proximity::overlaps;

/// What a station's place is looked for with.
#[derive(Clone, Copy)]
pub struct Outline {
    /// Half the width of its box.
    pub w: f64,
    /// Half the height of its box.
    pub h: f64,
    /// Its block, unit × scale.
    pub block: f64,
    /// The buffer, in blocks.
    pub buffer: f64,
}

/// The boxes of earlier stations, kept by their left cells of side `unit` (docs/RULES.md, 'Boxes
/// in cell order').
#[derive(Clone, Copy)]
pub struct Earlier<'a> {
    /// The side of a cell.
    pub unit: f64,
    /// The boxes by station, four numbers of each.
    pub boxes: &'a [f64],
    /// The left cell of each kept station's box.
    pub keys: &'a [u64],
    /// The kept stations.
    pub sorted: &'a [u32],
    /// The most cells that one of the boxes spans.
    pub most: u64,
    pub ghost holds: { Holds unit boxes.now most keys.now sorted.now } by { holds_prop
        unit boxes.now most keys.now sorted.now },
}

// Whether a box strictly overlaps none of the boxes of a tested part of the kept stations.
fn is_free(wanted: Box, boxes: &[f64], sorted: &[u32], part: TestedPart) -> bool
    requires part_inside { part.end ≤ length sorted.now }
    requires boxes_inside { All (λ s. 4 * s + 3 < length boxes.now) (take part.end sorted.now) }
    ensures { result
        ≡ free wanted (boxes_among boxes.now part.first part.end sorted.now) }
{
    let end = part.end;
    for j in part.first..end {
        if overlaps(wanted, box_at(boxes, sorted[j] as usize)) {
            return false;
        }
    }
    true
}

// The box of these half sides at a place.
#[tactic(auto, unfolding(crate::specs::Search::box_on))]
pub(crate) fn box_on(centre: Point, half_width: f64, half_height: f64) -> Box
    ensures { result ≡ box_on centre (half half_width half_height) }
{
    Box {
        left: centre.x - half_width,
        top: centre.y - half_height,
        right: centre.x + half_width,
        bottom: centre.y + half_height,
    }
}

// That box with its buffer.
#[tactic(auto, unfolding(crate::specs::Search::buffered))]
fn buffered(centre: Point, outline: Outline) -> Box
    ensures { result ≡ buffered centre (half_sides_of outline) }
{
    let g = outline.block * outline.buffer;
    Box {
        left: centre.x - outline.w - g,
        top: centre.y - outline.h - g,
        right: centre.x + outline.w + g,
        bottom: centre.y + outline.h + g,
    }
}

// The place at an offset.
fn place(seed: Point, half_width: f64, half_height: f64, widening: f64, offset: Offset) -> Point
    ensures { result ≡ Place.place seed (half half_width half_height) widening offset }
{
    let step = max(half_width, half_height);
    Point {
        x: seed.x + offset.a as f64 * step * widening,
        y: seed.y + offset.b as f64 * step * widening,
    }
}

/// The offsets that a search tries, by a list of pairs, as the table has them: those outside the
/// search are skipped.
#[derive(Clone, Copy)]
pub struct Tried<'a> {
    /// The pairs.
    pub pairs: &'a [Offset],
    /// The search, at most 20.
    pub search: usize,
    pub ghost near: { search ≤ 20 },
}

// The number of an offset's column, from 0 for −20 on: all its places have the same left and right
// edges.
fn column(offset: Offset) -> usize
    requires { nat_abs offset.a ≤ 20 }
    ensures is_column { result ≡ column_of offset.a }
    ensures upper_bound { result < 41 }
{
    (shifted(offset.a as i64) - 4503599627370476) as usize
}

// The first free place at one widening.
fn first_free(
    seed: Point,
    outline: Outline,
    widening: f64,
    tried: &Tried<'_>,
    earlier: &Earlier<'_>,
) -> Option<Point>
    ensures { result
        ≡ first_free seed (half_sides_of outline)
        (kept_boxes earlier.now.boxes.now earlier.now.sorted.now) widening
        (skipped tried.now.search tried.now.pairs.now) }
{
    // the tested part of each column; its end is 0 where none is known yet
    let mut firsts = [0; 41];
    let mut ends = [0; 41];
    for j in 0..tried.pairs.len() {
        let o = pair_at(tried.pairs, j);
        if is_inside(o, tried.search) {
            let c = place(seed, outline.w, outline.h, widening, o);
            let p = buffered(c, outline);
            let i = column(o);
            let known = TestedPart {
                first: firsts[i],
                end: ends[i],
            };
            let t = tested_part(
                known,
                earlier.unit,
                p.left,
                p.right,
                earlier.keys,
                earlier.most,
            );
            firsts[i] = t.first;
            ends[i] = t.end;
            if is_free(p, earlier.boxes, earlier.sorted, t) {
                return Some(c);
            }
        }
    }
    None
}

/// The first free place at widening 1, 2, 4, none where none is free.
pub fn find_place(
    seed: Point,
    outline: Outline,
    tried: &Tried<'_>,
    earlier: &Earlier<'_>,
) -> Option<Point>
    ensures { result
        ≡ found_place seed (half_sides_of outline)
        (kept_boxes earlier.now.boxes.now earlier.now.sorted.now)
        (skipped tried.now.search tried.now.pairs.now) }
{
    if let Some(c) = first_free(seed, outline, 1.0, tried, earlier) {
        return Some(c);
    }
    if let Some(c) = first_free(seed, outline, 2.0, tried, earlier) {
        return Some(c);
    }
    first_free(seed, outline, 4.0, tried, earlier)
}
