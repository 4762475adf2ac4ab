// Numbers of a test, compared with its words and taken from them.
use numbers::float::bits::of_bits;
use text::stored::{float_at, padded, word_at};

// How far one word of a line begins after another: sixteen digits and a space.
pub(crate) const WORD: usize = 17;

// Writes the words of a line's digits over the front of 32; a word that lacks digits is read as with
// zeros behind it.
pub(crate) fn words(digits: &[u8], words: &mut [u64; 32]) {
    for (word, field) in words.iter_mut().zip(digits.chunks(WORD)) {
        *word = padded(field);
    }
}

// Whether a float has the pattern `bits`, or both are NaNs.
pub(crate) fn same(value: f64, bits: u64) -> bool {
    if value.is_nan() {
        of_bits(bits).is_nan()
    } else {
        value.to_bits() == bits
    }
}

// The floats from word `from` on.
pub(crate) fn floats<const N: usize>(words: &[u64], from: usize) -> [f64; N] {
    std::array::from_fn(|i| float_at(words, from.wrapping_add(i)))
}

// Whether a list's floats have the patterns from word `from` on.
pub(crate) fn all_same(list: &[f64], words: &[u64], from: usize) -> bool {
    list.iter()
        .enumerate()
        .all(|(i, x)| same(*x, word_at(words, from.wrapping_add(i))))
}
