// Numbers as text, at a place of a lent list: each function answers the place behind what it
// wrote. (docs/RULES.md, 'Text of drawlist' and 'Text of the table')
ghost use Rattle.std.specs.Prelude.{◌≡◌, ◌+◌, ◌≤◌, ◌<◌, length};
ghost use Rattle.text.specs.Spell.{glyph as glyph_of, digits, places_in, number_field};
ghost use Rattle.text.specs.Spell.{signed_field, shown as shown_of, float_field, put_at};

// The byte of a digit.
#[tactic(auto, unfolding(crate::specs::Spell::glyph))]
fn glyph(digit: u64) -> u8
    requires { digit < 16 }
    ensures { result ≡ glyph_of digit }
{
    if digit < 10 {
        b'0' + digit as u8
    } else {
        b'A' + (digit - 10) as u8
    }
}

// The last digits of a number in a base, so many.
#[tactic(auto, using(crate::proofs::fields::Spelling::spell_laws))]
fn spell(number: u64, base: u64, count: usize, at: usize, out: &mut [u8])
    requires above_zero { 0 < base }
    requires has_glyphs { base ≤ 16 }
    requires room { at + count ≤ length out.old }
    ensures { out.new ≡ put_at out.old at (digits base count number) }
{
    let mut rest = number;
    for i in (0..count).rev() {
        out[at + i] = glyph(rest % base);
        rest /= base;
    }
}

// How many decimal digits a number has.
#[tactic(auto, using(crate::proofs::fields::Spelling::places_laws))]
fn places(number: u32) -> usize
    ensures { result ≡ places_in number number }
{
    number.checked_ilog10().unwrap_or(0) as usize + 1
}

// A number and the byte that closes it; the place after them.
#[tactic(auto, using(crate::proofs::fields::Spelling::number_laws))]
pub(crate) fn number_field(number: u32, stop: u8, at: usize, out: &mut [u8]) -> usize
    requires { at + 11 ≤ length out.old }
    ensures place_after { result ≡ at + length (number_field stop number) }
    ensures out_after { out.new ≡ put_at out.old at (number_field stop number) }
{
    let k = places(number);
    spell(number as u64, 10, k, at, out);
    out[at + k] = stop;
    at + k + 1
}

/// Writes a signed number in decimal, and the byte `stop` that closes it, from place `at` on;
/// the place after them.
#[tactic(auto, using(crate::proofs::fields::Spelling::signed_laws))]
pub fn signed_field(number: i32, stop: u8, at: usize, out: &mut [u8]) -> usize
    requires { at + 12 ≤ length out.old }
    ensures few_bytes { result ≤ at + 12 }
    ensures place_after { result ≡ at + length (signed_field stop number) }
    ensures out_after { out.new ≡ put_at out.old at (signed_field stop number) }
{
    if number < 0 {
        out[at] = b'-';
        return number_field(number.unsigned_abs(), stop, at + 1, out);
    }
    number_field(number.unsigned_abs(), stop, at, out)
}

// The bits of a float, 0 for every zero.
#[tactic(auto, using(crate::proofs::fields::Spelling::shown_laws))]
fn shown(value: f64) -> u64
    ensures { result ≡ shown_of value }
{
    if value == 0.0 {
        return 0;
    }
    if value.is_nan() {
        return 0x7FF8_0000_0000_0000;
    }
    value.to_bits()
}

// A float and the byte that closes it; the place after them.
#[tactic(auto, using(crate::proofs::fields::Spelling::float_laws))]
pub(crate) fn float_field(value: f64, stop: u8, at: usize, out: &mut [u8]) -> usize
    requires { at + 17 ≤ length out.old }
    ensures place_after { result ≡ at + length (float_field stop value) }
    ensures out_after { out.new ≡ put_at out.old at (float_field stop value) }
{
    spell(shown(value), 16, 16, at, out);
    out[at + 16] = stop;
    at + 17
}
