// A field at a place of a text: its value, and the place after it. Each reader here and in
// `listing` takes the whole text and the place. (docs/RULES.md, 'Text of drawlist')
ghost use Rattle.std.specs.Prelude.{◌≡◌, ◌-◌, ◌^◌, ◌≤◌, drop};
ghost use Rattle.text.specs.Field.{digit as digit_of, closed as closed_by, digits_to, limited};
ghost use Rattle.text.specs.Field.{positive as positive_to, whole as whole_to};
ghost use Rattle.text.specs.Field.{pattern as pattern_to, bus_number};
ghost use Rattle.text.specs.Stages.Places.{field_of};

// A value that stands in a text, and the place after it and what closes it.
#[derive(Clone, Copy)]
pub(crate) struct Parsed<T> {
    pub value: T,
    pub next: usize,
}

// What a digit stands for, 16 for any other byte: one test, 9 < d or 15 < d, then refuses that
// byte and the digits of a larger base.
#[tactic(auto, unfolding(crate::specs::Field::digit))]
fn digit(byte: u8) -> u64
    ensures { result ≡ digit_of byte }
{
    match byte {
        b'0'..=b'9' => (byte - b'0') as u64,
        b'A'..=b'F' => (byte - b'A') as u64 + 10,
        _ => 16,
    }
}

// The value, if the byte at `at` is `stop`.
#[tactic(auto, using(crate::proofs::fields::Fields::test_laws), unfolding(crate::specs::Field::closed, crate::specs::Stages::Places::field_of))]
fn closed(text: &[u8], at: usize, stop: u8, value: u64) -> Option<Parsed<u64>>
    ensures { closed_by stop value (drop at text.now) ≡ field_of text.now result }
{
    match text.get(at) {
        Some(&c) if c == stop => Some(Parsed {
            value,
            next: at + 1,
        }),
        _ => None,
    }
}

// The number whose first digits stand for `first`, and whose others begin at `at`.
#[tactic(auto, using(crate::proofs::fields::Fields::test_laws, crate::proofs::fields::Fields::over_limit), unfolding(crate::specs::Stages::Places::field_of, crate::specs::Field::limited, crate::specs::Field::digits_to))]
fn digits_to(text: &[u8], at: usize, stop: u8, first: u64, most: u64) -> Option<Parsed<u64>>
    requires within { first ≤ most }
    requires no_overflow { most ≤ 2 ^ 63 }
    ensures { limited most (digits_to stop first (drop at text.now)) ≡ field_of text.now result }
{
    let mut v = first;
    for i in at..text.len() {
        let c = text[i];
        if c == stop {
            return Some(Parsed {
                value: v,
                next: i + 1,
            });
        }
        let d = digit(c);
        if 9 < d || most / 10 < v {
            return None;
        }
        v = v * 10 + d;
        if most < v {
            return None;
        }
    }
    None
}

// A number above 0.
#[tactic(auto, using(crate::proofs::fields::Fields::test_laws), unfolding(crate::specs::Stages::Places::field_of, crate::specs::Field::positive))]
fn positive(text: &[u8], at: usize, stop: u8, most: u64) -> Option<Parsed<u64>>
    requires any_digit { 9 ≤ most }
    requires no_overflow { most ≤ 2 ^ 63 }
    ensures { positive_to stop most (drop at text.now) ≡ field_of text.now result }
{
    match digit(*text.get(at)?) {
        d @ 1..=9 => digits_to(text, at + 1, stop, d, most),
        _ => None,
    }
}

// A whole number.
#[tactic(auto, using(crate::proofs::fields::Fields::test_laws), unfolding(crate::specs::Stages::Places::field_of, crate::specs::Field::whole))]
pub(crate) fn whole(text: &[u8], at: usize, stop: u8, most: u64) -> Option<Parsed<u64>>
    requires any_digit { 9 ≤ most }
    requires no_overflow { most ≤ 2 ^ 63 }
    ensures { whole_to stop most (drop at text.now) ≡ field_of text.now result }
{
    match text.get(at)? {
        b'0' => closed(text, at + 1, stop, 0),
        _ => positive(text, at, stop, most),
    }
}

// The bits of a float.
#[tactic(auto, using(crate::proofs::fields::Fields::pattern_laws), unfolding(crate::specs::Stages::Places::field_of, crate::specs::Field::pattern))]
pub(crate) fn pattern(text: &[u8], at: usize, stop: u8) -> Option<Parsed<u64>>
    ensures { pattern_to stop (drop at text.now) ≡ field_of text.now result }
{
    let digits = text.get(at..)?.get(..16)?;
    let mut v = 0;
    for &c in digits {
        let d = digit(c);
        if 15 < d {
            return None;
        }
        v = v * 16 + d;
    }
    closed(text, at + 16, stop, v)
}

// A bus number.
#[tactic(auto, using(crate::proofs::fields::Bounds::bus_number_laws), unfolding(crate::specs::Stages::Places::field_of, crate::specs::Field::minus, crate::specs::Field::plus))]
pub(crate) fn bus_number(text: &[u8], at: usize, stop: u8) -> Option<Parsed<i64>>
    ensures { bus_number stop (drop at text.now) ≡ field_of text.now result }
{
    match text.get(at)? {
        b'-' => {
            let f = positive(text, at + 1, stop, 0x8000_0000_0000_0000)?;
            Some(Parsed {
                value: -1 - (f.value - 1) as i64,
                next: f.next,
            })
        }
        _ => {
            let f = whole(text, at, stop, 0x7FFF_FFFF_FFFF_FFFF)?;
            Some(Parsed {
                value: f.value as i64,
                next: f.next,
            })
        }
    }
}
