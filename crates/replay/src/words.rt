// Numbers of a stored call, taken from its words.
use numbers::float::bits::of_bits;
use text::stored::{length_at, word_at};

// A list in the length of a word, at most its own.
pub(crate) fn lent<'a, T>(list: &'a [T], words: &[u64], place: usize) -> &'a [T] {
    &list[..length_at(words, place, list.len())]
}

// A number, at most that of 32 bits.
fn u32_of(word: u64) -> u32 {
    u32::try_from(word).unwrap_or(u32::MAX)
}

// The word at a place, at most that of 32 bits.
pub(crate) fn u32_at(words: &[u64], place: usize) -> u32 {
    u32_of(word_at(words, place))
}

// A search range; from 128 on it is -1.
pub(crate) fn search_at(words: &[u64], place: usize) -> i32 {
    let x = word_at(words, place);
    if x < 128 { x as i32 } else { -1 }
}

// The words that are still to be read, 0 past the end.
#[derive(Drop)]
pub(crate) struct Words<'a>(pub(crate) &'a [u64]);

impl Words<'_> {
    pub(crate) fn word(&mut self) -> u64 {
        let Some((first, rest)) = self.0.split_first() else {
            return 0;
        };
        self.0 = rest;
        *first
    }

    pub(crate) fn float(&mut self) -> f64 {
        of_bits(self.word())
    }

    pub(crate) fn u32(&mut self) -> u32 {
        u32_of(self.word())
    }

    pub(crate) fn u8(&mut self) -> u8 {
        u8::try_from(self.word()).unwrap_or(u8::MAX)
    }

    // A bus number; from 2^32 on it is -1 or -2.
    pub(crate) fn i64(&mut self) -> i64 {
        match self.word() {
            x @ 0..=0xFFFF_FFFF => x as i64,
            0x1_0000_0000 => -1,
            _ => -2,
        }
    }
}

// Whether a float is the number with the pattern `bits`: +0 equals -0, a NaN only a NaN
// (docs/RULES.md, 'Equality of results').
pub(crate) fn same(value: f64, bits: u64) -> bool {
    let other = of_bits(bits);
    value == other || value.is_nan() && other.is_nan()
}
