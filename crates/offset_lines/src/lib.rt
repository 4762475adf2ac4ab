//! The text of the offsets of a search: a header line, then one pair a line (docs/RULES.md, 'Text
//! of the table').
#![tactic(auto)]

ghost use Rattle.std.specs.Prelude.{◌≡◌, ◌+◌, ◌*◌, ◌≤◌, length};
ghost use Rattle.numbers.specs.Over.{over};
ghost use Rattle.offsets.specs.Offset.{offsets};
ghost use Rattle.offsets.specs.Stages.OffsetList.{offsets_in};
ghost use Rattle.text.specs.Spell.{put_at};
ghost use Rattle.offset_lines.specs.Stages.Text.{offset_line, offset_lines, offset_text};

use offsets::offset::{Offset, offset_at, offset_order};
use text::fields::spell::signed_field;
use text::listing::output::word;

// The line of an offset; the place after it.
#[tactic(auto, using(crate::proofs::Lines::line_laws))]
fn offset_line(offset: Offset, at: usize, out: &mut [u8]) -> usize
    requires { at + 24 ≤ length out.old }
    ensures few_bytes { result ≤ at + 24 }
    ensures place_after { result ≡ at + length (offset_line offset) }
    ensures out_after { out.new ≡ put_at out.old at (offset_line offset) }
{
    let p = signed_field(offset.a, b' ', at, out);
    signed_field(offset.b, b'\n', p, out)
}

// The lines of the first `count` offsets; the place after them.
#[tactic(auto, using(crate::proofs::Lines::lines_laws))]
fn offset_lines(count: usize, keys: &[u64], sorted: &[u32], at: usize, out: &mut [u8]) -> usize
    requires { at + 24 * count ≤ length out.old }
    ensures few_bytes { result ≤ at + 24 * count }
    ensures place_after { result
        ≡ at + length (offset_lines (offsets_in count keys.now sorted.now)) }
    ensures out_after { out.new
        ≡ put_at out.old at (offset_lines (offsets_in count keys.now sorted.now)) }
{
    let mut p = at;
    for i in 0..count {
        p = offset_line(offset_at(keys, sorted, i), p, out);
    }
    p
}

/// Writes the offsets of a search over the front of `out`, and returns the text's length: the line
/// `a b`, then one pair a line, in their order (docs/RULES.md, 'Text of the table').
///
/// `search` is the range of the offsets on either side. The other lists are work room: they may
/// hold anything before, and hold nothing of use after.
#[tactic(auto, using(crate::proofs::Lines::text_laws), unfolding(crate::specs::Stages::Text::offset_names))]
pub fn print(
    search: usize,
    keys: &mut [u64],
    sorted: &mut [u32],
    spare: &mut [u32],
    out: &mut [u8],
) -> usize
    requires small_search { search ≤ 20 }
    requires keys_room { 1681 ≤ length keys.old }
    requires sorted_room { 1681 ≤ length sorted.old }
    requires spare_room { 1681 ≤ length spare.old }
    requires text_room { 40348 ≤ length out.old }
    ensures byte_count { result ≡ length (offset_text (offsets search)) }
    ensures out_after { out.new ≡ over (offset_text (offsets search)) out.old }
{
    let count = offset_order(search, keys, sorted, spare);
    let at = word(b"a b\n", 0, out);
    offset_lines(count, keys, sorted, at, out)
}
