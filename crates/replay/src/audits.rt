// A stored audit call, made again and compared (docs/RULES.md, 'Stored calls').
//
// Its words, by number:
//   0 lengths of sub, kv, from, to, xy, boxes, roles, pieces, branches
//   9 lent lengths of displacement, spacing, relative, stations
//   13 the answer's number
//   14 how many buses, branches, box numbers and pieces follow
//   18 its stations, overlaps, pieces through boxes, relative lengths
//   22 buses, branches, box numbers, pieces; displacement, spacing, relative
use crate::lists::{fill_branches, fill_buses, fill_floats, fill_pieces, floats_same};
use crate::words::{Words, lent};
use audit::findings::answer::Figures;
use audit::fit::drawn::Drawn;
use audit::lists::{FigureLists, Work};
use audit::quality::tx_layout_quality;
use text::stored::length_at;

// Whether the figures are those of words 18 to 21.
fn figures_same(figures: Figures, words: &[u64; 1024]) -> bool {
    words[13] == 0
        && figures.stations as u64 == words[18]
        && figures.overlaps as u64 == words[19]
        && figures.through as u64 == words[20]
        && figures.relative as u64 == words[21]
}

// Whether the result lists are those of the words that are left.
fn lists_same(
    words: &[u64],
    mut left: Words,
    displacement: &[f64; 32],
    spacing: &[f64; 32],
    relative: &[f64; 256],
) -> bool {
    let k = length_at(words, 18, 64);
    floats_same(displacement, k, &mut left)
        && floats_same(spacing, k, &mut left)
        && floats_same(relative, length_at(words, 21, 256), &mut left)
}

// Audits in the lengths of words 9 to 12; whether all is as stored, the lists in the words that are
// left.
fn audit_agrees(words: &[u64; 1024], left: Words, drawing: &Drawn<'_>) -> bool {
    let mut displacement = [0.0; 32];
    let mut spacing = [0.0; 32];
    let mut relative = [0.0; 256];
    let mut stations = [0; 32];
    let mut index = [0; 320];
    let mut spare = [0; 32];
    let mut keys = [0; 32];
    let mut points = [0.0; 32];
    let mut path = [0.0; 32];
    let mut lists = FigureLists {
        displacement: &mut displacement[..length_at(words, 9, 32)],
        spacing: &mut spacing[..length_at(words, 10, 32)],
        relative: &mut relative[..length_at(words, 11, 256)],
    };
    let mut work = Work {
        stations: &mut stations[..length_at(words, 12, 32)],
        index: &mut index,
        spare: &mut spare,
        keys: &mut keys,
        points: &mut points,
        path: &mut path,
    };
    match tx_layout_quality(&mut lists, &mut work, drawing) {
        Ok(f) => figures_same(f, words)
            && lists_same(words, left, &displacement, &spacing, &relative),
        Err(r) => u64::from(r.number()) == words[13],
    }
}

// Lends the lists in the lengths of words 0 to 8. They lie on the stack only while it runs.
#[inline(never)]
pub(crate) fn agrees(words: &[u64; 1024]) -> bool {
    let mut sub = [0; 4097];
    let mut kv = [0; 32];
    let mut from = [0; 8193];
    let mut to = [0; 32];
    let mut xy = [0.0; 64];
    let mut boxes = [0.0; 64];
    let mut roles = [0; 32];
    let mut pieces = [0.0; 1024];
    let mut branches = [0; 256];
    let mut left = Words(&words[22..]);
    fill_buses(
        &mut left,
        length_at(words, 14, 64),
        &mut sub,
        &mut kv,
        &mut xy,
    );
    fill_branches(
        &mut left,
        length_at(words, 15, 64),
        &mut from,
        &mut to,
        &mut roles,
    );
    fill_floats(&mut left, length_at(words, 16, 64), &mut boxes);
    fill_pieces(
        &mut left,
        length_at(words, 17, 256),
        &mut pieces,
        &mut branches,
    );
    let drawing = Drawn {
        sub: lent(&sub, words, 0),
        kv: lent(&kv, words, 1),
        from: lent(&from, words, 2),
        to: lent(&to, words, 3),
        xy: lent(&xy, words, 4),
        boxes: lent(&boxes, words, 5),
        roles: lent(&roles, words, 6),
        pieces: lent(&pieces, words, 7),
        branches: lent(&branches, words, 8),
    };
    audit_agrees(words, left, &drawing)
}
