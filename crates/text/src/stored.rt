// The words of a stored line, numbers in hexadecimal digits with a space between them, and numbers
// taken from words (docs/RULES.md, 'Stored calls').
ghost use Rattle.std.specs.Prelude.{◌≡◌, ◌++◌, ◌≤◌, min, length, take, drop, get_or, from_bits};
ghost use Rattle.std.specs.Float.{binary64};
ghost use Rattle.text.specs.Words.{digit as digit_of, number as number_of};
ghost use Rattle.text.specs.Words.{padded as padded_of, words as words_of};

// What a digit stands for, 0 for any other byte, which no stored line has.
fn digit(byte: u8) -> u64
    ensures { result ≡ digit_of byte }
{
    match byte {
        b'0'..=b'9' => u64::from(byte - b'0'),
        b'A'..=b'F' => u64::from(byte - b'A') + 10,
        _ => 0,
    }
}

// The number that digits stand for; of more than sixteen, the last sixteen.
fn number(digits: &[u8]) -> u64
    ensures { result ≡ number_of digits.now }
{
    digits
        .iter()
        .fold(0u64, |v, b| v.wrapping_mul(16).wrapping_add(digit(*b)))
}

/// The number of the first sixteen hexadecimal digits, with a 0 behind them for each that is
/// missing.
pub fn padded(digits: &[u8]) -> u64
    ensures { result ≡ padded_of digits.now }
{
    let mut all = [b'0'; 16];
    let n = digits.len().min(16);
    all[..n].copy_from_slice(&digits[..n]);
    number(&all)
}

/// Writes the words of a line over the front of a list, as many as it holds; how many.
pub fn words(text: &[u8], out: &mut [u64]) -> usize
    ensures count { result ≡ min (length (words_of text.now)) (length out.old) }
    ensures out_after { out.new ≡ take result (words_of text.now) ++ drop result out.old }
{
    let mut count = 0;
    for field in text.split(|b| *b == b' ').take(out.len()) {
        out[count] = number(field);
        count += 1;
    }
    count
}

/// The word at a place, 0 past the end.
pub fn word_at(words: &[u64], place: usize) -> u64
    ensures { result ≡ get_or words.now place 0 }
{
    words.get(place).copied().unwrap_or(0)
}

/// The word at a place as a length, at most `most`.
pub fn length_at(words: &[u64], place: usize, most: usize) -> usize
    ensures word { result ≡ min most (get_or words.now place 0) }
    ensures within { result ≤ most }
{
    most.min(word_at(words, place) as usize)
}

/// The float whose bits are the word at a place.
pub fn float_at(words: &[u64], place: usize) -> f64
    ensures { result ≡ from_bits binary64 (get_or words.now place 0) }
{
    numbers::float::bits::of_bits(word_at(words, place))
}
