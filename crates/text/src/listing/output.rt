// The text of a drawing, and of a refusal (docs/RULES.md, 'Text of drawlist').
ghost use Rattle.std.specs.Prelude.{◌≡◌, ◌+◌, ◌*◌, ◌^◌, ◌≤◌, ◌<◌, length};
ghost use Rattle.numbers.specs.Table.{joined};
ghost use Rattle.numbers.specs.Over.{over};
ghost use Rattle.text.specs.Output.{point_fields, piece_line, listing, refusal};
ghost use Rattle.text.specs.Spell.{put_at};

use crate::fields::spell::{float_field, number_field};
use plane::geometry::number_at;

/// Writes bytes from place `at` on; the place after them.
#[tactic(auto, using(crate::proofs::listing::Writing::word_laws), unfolding(crate::specs::Spell::put_at))]
pub fn word(bytes: &[u8], at: usize, out: &mut [u8]) -> usize
    requires { at + length bytes.now ≤ length out.old }
    ensures place_after { result ≡ at + length bytes.now }
    ensures out_after { out.new ≡ put_at out.old at bytes.now }
{
    let end = at + bytes.len();
    out[at..end].copy_from_slice(bytes);
    end
}

// The point at a place of the pieces' numbers; the place after it.
#[tactic(auto, using(crate::proofs::listing::Writing::point_laws))]
fn point_fields(pieces: &[f64], place: usize, stop: u8, at: usize, out: &mut [u8]) -> usize
    requires no_overflow { place + 1 < 2 ^ 64 }
    requires room { at + 34 ≤ length out.old }
    ensures place_after { result ≡ at + length (point_fields stop pieces.now place) }
    ensures out_after { out.new ≡ put_at out.old at (point_fields stop pieces.now place) }
{
    let p = float_field(number_at(pieces, place), b' ', at, out);
    float_field(number_at(pieces, place + 1), stop, p, out)
}

// The line of a piece; the place after it.
#[tactic(auto, using(crate::proofs::listing::Writing::piece_laws))]
fn piece_line(
    piece: usize,
    roles: &[u8],
    pieces: &[f64],
    branches: &[u32],
    at: usize,
    out: &mut [u8],
) -> usize
    requires no_overflow { 4 * piece + 3 < 2 ^ 64 }
    requires room { at + 83 ≤ length out.old }
    ensures few_bytes { result ≤ at + 83 }
    ensures place_after { result
        ≡ at + length (piece_line roles.now pieces.now branches.now piece) }
    ensures out_after { out.new
        ≡ put_at out.old at (piece_line roles.now pieces.now branches.now piece) }
{
    let b = numbers::order::at(branches, piece);
    let role = roles.get(b as usize).copied().unwrap_or(0);
    let p1 = number_field(b, b' ', at, out);
    let p2 = number_field(role as u32, b' ', p1, out);
    let p3 = point_fields(pieces, 4 * piece, b' ', p2, out);
    point_fields(pieces, 4 * piece + 2, b'\n', p3, out)
}

// The lines of the first `count` pieces; the place after them. A piece past the lists' ends is
// written too, as the definition says.
#[tactic(auto, using(crate::proofs::listing::Writing::lines_laws))]
fn piece_lines(
    count: usize,
    roles: &[u8],
    pieces: &[f64],
    branches: &[u32],
    at: usize,
    out: &mut [u8],
) -> usize
    requires { at + 83 * count ≤ length out.old }
    ensures few_bytes { result ≤ at + 83 * count }
    ensures place_after { result
        ≡ at + length (joined (piece_line roles.now pieces.now branches.now) count) }
    ensures out_after { out.new
        ≡ put_at out.old at (joined (piece_line roles.now pieces.now branches.now) count) }
{
    let mut p = at;
    for i in 0..count {
        p = piece_line(i, roles, pieces, branches, p, out);
    }
    p
}

/// Writes the list of a drawing of `count` pieces over the front of `out`, and returns its length:
/// the line `branch role x0 y0 x1 y1`, then a line of at most 83 bytes for each piece
/// (docs/RULES.md, 'Text of drawlist').
#[tactic(auto, using(crate::proofs::listing::Writing::text_laws), unfolding(crate::specs::Output::piece_names))]
pub fn print(count: usize, roles: &[u8], pieces: &[f64], branches: &[u32], out: &mut [u8]) -> usize
    requires { 24 + 83 * count ≤ length out.old }
    ensures byte_count { result ≡ length (listing roles.now pieces.now branches.now count) }
    ensures out_after { out.new ≡ over (listing roles.now pieces.now branches.now count) out.old }
{
    let at = word(b"branch role x0 y0 x1 y1\n", 0, out);
    piece_lines(count, roles, pieces, branches, at, out)
}

/// Writes `refused` and a refusal's number over the front of `out`, and returns its length.
#[tactic(auto, using(crate::proofs::listing::Writing::text_laws))]
pub fn print_refusal(number: u32, out: &mut [u8]) -> usize
    requires { 19 ≤ length out.old }
    ensures byte_count { result ≡ length (refusal number) }
    ensures out_after { out.new ≡ over (refusal number) out.old }
{
    let at = word(b"refused ", 0, out);
    number_field(number, b'\n', at, out)
}
