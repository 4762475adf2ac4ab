// A stored call of layout or of the largest fill, made again and compared (docs/RULES.md, 'Stored
// calls').
//
// Its words, by number:
//   0 fill, radius, two tier counts, two tier scales, search, iterations; the block options are the
// default   8 lengths of sub, kv, from, to, service, xy, corners, twins
//   16 lent lengths of positions, bars, boxes, scales, roles, pieces, branches, the crossing list,
//      stations
//   25 the answer's number
//   26 how many buses, branches, half-edges, stations and pieces follow
//   31 unit, bounds
//   36 of the largest fill: the fill in sixty-fourths
//   36 (37) buses, branches, half-edges; positions, bars, boxes, scales, roles, pieces
use crate::fills::largest_small;
use crate::lists::{fill_branches, fill_buses, fill_mesh, floats_same, pieces_same, roles_same};
use crate::words::{Words, lent, same, search_at, u32_at};
use drawing::answer::Plot;
use fill::answer::Largest;
use lent::Lists;
use network::lists::Network;
use network::mesh::Mesh;
use network::options::Options;
use network::refusals::Refusal;
use small::draw::draw_small;
use text::stored::{float_at, length_at};

// Which call a line stores.
#[derive(Clone, Copy)]
pub(crate) enum Call {
    Layout,
    LargestFill,
}

// The options of words 0 to 7.
fn options(words: &[u64]) -> Options {
    Options {
        fill: float_at(words, 0),
        tier_radius: float_at(words, 1),
        tier_count_1: u32_at(words, 2),
        tier_count_2: u32_at(words, 3),
        tier_scale_1: float_at(words, 4),
        tier_scale_2: float_at(words, 5),
        search: search_at(words, 6),
        route_iterations: u32_at(words, 7),
        ..Options::default()
    }
}

// Whether the answer is that of words 25 and 30 to 35.
fn plot_same(plot: Plot, words: &[u64; 1024]) -> bool {
    words[25] == 0
        && plot.pieces as u64 == words[30]
        && same(plot.unit, words[31])
        && same(plot.bounds.left, words[32])
        && same(plot.bounds.top, words[33])
        && same(plot.bounds.right, words[34])
        && same(plot.bounds.bottom, words[35])
}

// Whether the result lists are those of the words that are left.
fn lists_same(
    words: &[u64],
    mut left: Words,
    positions: &[f64; 32],
    bars: &[f64; 64],
    boxes: &[f64; 64],
    scales: &[f64; 32],
    roles: &[u8; 64],
    pieces: &[f64; 1024],
    branches: &[u32; 256],
) -> bool {
    let n = length_at(words, 26, 64);
    let m = length_at(words, 27, 64);
    let k = length_at(words, 29, 64);
    floats_same(positions, 2 * n, &mut left)
        && floats_same(bars, 4 * n, &mut left)
        && floats_same(boxes, 4 * k, &mut left)
        && floats_same(scales, k, &mut left)
        && roles_same(&roles[..m], &mut left)
        && pieces_same(pieces, &branches[..length_at(words, 30, 256)], &mut left)
}

// The call made again; a layout call has no fill.
fn answer(
    call: Call,
    drawn: &mut Lists<'_>,
    words: &[u64; 1024],
    network: &Network<'_>,
) -> Result<Largest, Refusal> {
    let options = options(words);
    let stations = length_at(words, 24, 128);
    let crossings = length_at(words, 23, 128);
    match call {
        Call::Layout => {
            let plot = draw_small(drawn, options, stations, crossings, network)?;
            Ok(Largest {
                sixty_fourths: 0,
                plot,
            })
        }
        Call::LargestFill => largest_small(drawn, options, stations, crossings, network),
    }
}

// Whether the fill is that of word 36, where a line stores one.
fn fill_same(call: Call, sixty_fourths: u32, words: &[u64; 1024]) -> bool {
    match call {
        Call::Layout => true,
        Call::LargestFill => u64::from(sixty_fourths) == words[36],
    }
}

// Draws the network in the lengths of words 16 to 24; whether all is as stored, the lists in the
// words that are left.
fn drawn_agrees(call: Call, words: &[u64; 1024], left: Words, network: &Network<'_>) -> bool {
    let mut positions = [0.0; 32];
    let mut bars = [0.0; 64];
    let mut boxes = [0.0; 64];
    let mut scales = [0.0; 32];
    let mut roles = [0; 64];
    let mut pieces = [0.0; 1024];
    let mut branches = [0; 256];
    let mut drawn = Lists {
        positions: &mut positions[..length_at(words, 16, 32)],
        bars: &mut bars[..length_at(words, 17, 64)],
        boxes: &mut boxes[..length_at(words, 18, 64)],
        scales: &mut scales[..length_at(words, 19, 32)],
        roles: &mut roles[..length_at(words, 20, 64)],
        pieces: &mut pieces[..length_at(words, 21, 1024)],
        branches: &mut branches[..length_at(words, 22, 256)],
    };
    match answer(call, &mut drawn, words, network) {
        Ok(l) => plot_same(l.plot, words)
            && fill_same(call, l.sixty_fourths, words)
            && lists_same(
                words, left, &positions, &bars, &boxes, &scales, &roles, &pieces, &branches,
            ),
        Err(r) => u64::from(r.number()) == words[25],
    }
}

// Lends the lists in the lengths of words 8 to 15. They lie on the stack only while it runs.
#[inline(never)]
pub(crate) fn agrees(call: Call, words: &[u64; 1024]) -> bool {
    let mut sub = [0; 4097];
    let mut kv = [0; 32];
    let mut from = [0; 8193];
    let mut to = [0; 32];
    let mut service = [0; 32];
    let mut xy = [0.0; 64];
    let mut corners = [0; 64];
    let mut twins = [0; 64];
    let mut left = match call {
        Call::Layout => Words(&words[36..]),
        Call::LargestFill => Words(&words[37..]),
    };
    fill_buses(
        &mut left,
        length_at(words, 26, 64),
        &mut sub,
        &mut kv,
        &mut xy,
    );
    fill_branches(
        &mut left,
        length_at(words, 27, 64),
        &mut from,
        &mut to,
        &mut service,
    );
    fill_mesh(
        &mut left,
        length_at(words, 28, 64),
        &mut corners,
        &mut twins,
    );
    let mesh = Mesh {
        corners: lent(&corners, words, 14),
        twins: lent(&twins, words, 15),
    };
    let network = Network {
        sub: lent(&sub, words, 8),
        kv: lent(&kv, words, 9),
        from: lent(&from, words, 10),
        to: lent(&to, words, 11),
        service: lent(&service, words, 12),
        xy: lent(&xy, words, 13),
        mesh,
    };
    drawn_agrees(call, words, left, &network)
}
