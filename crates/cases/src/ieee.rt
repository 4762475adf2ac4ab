// IEEE 754 test values: the operations, comparisons, floor, hypot and total order.
use crate::words::same;
use numbers::float::bits::of_bits;
use numbers::float::floor::{floor, floor_to_i64};
use numbers::float::key::key_of_bits;

// 2^52: a float of this size or above is whole.
const WHOLE: f64 = 4503599627370496.0;

// 1 where the left is less, 2 where they are equal, 4 where it is greater, 0 where they are
// unordered.
fn compared<T: PartialOrd + Copy>(left: T, right: T) -> u64 {
    u64::from(left < right) + 2 * u64::from(left == right) + 4 * u64::from(left > right)
}

// Whether both floors of a float are the wanted one, given their patterns.
pub(crate) fn floors(pattern: u64, wanted: u64) -> bool {
    let x = of_bits(pattern);
    let ok = same(floor(x), wanted);
    if -WHOLE < x && x < WHOLE {
        ok && std::num::nearest_i64_to_f64(floor_to_i64(x)) == of_bits(wanted)
    } else {
        ok
    }
}

// Whether a test with two operands agrees, given the patterns of these and of the wanted result.
pub(crate) fn agrees(name: &[u8], left: u64, right: u64, wanted: u64) -> bool {
    let a = of_bits(left);
    let b = of_bits(right);
    match name {
        b"add" => same(a + b, wanted),
        b"sub" => same(a - b, wanted),
        b"mul" => same(a * b, wanted),
        b"div" => same(a / b, wanted),
        b"cmp" => compared(a, b) == wanted,
        b"hyp" => same(numbers::hypot::hypot(a, b), wanted),
        b"tot" => compared(key_of_bits(left), key_of_bits(right)) == wanted,
        _ => false,
    }
}
