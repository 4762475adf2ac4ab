//! Rounding toward minus infinity: docs/RULES.md, 'Floor'.
ghost use Rattle.std.specs.Prelude.{◌≡◌, ◌^◌, ◌≤◌, true, false, T, pos};
ghost use Rattle.std.specs.Float.Ieee as Ieee;
ghost use Rattle.std.specs.Float.{fin};
ghost use Rattle.numbers.specs.Floor.{size_down, size_up, floor_of, floor_int};

// The whole part of a number above 0 and below 2^52.
pub(crate) fn size_down(value: f64) -> u64
    requires above_zero { T (Ieee.lt (fin false 0 (pos 0)) value) }
    requires below_2_52 { T (Ieee.lt value (fin false 1 (pos 52))) }
    ensures whole_part { result ≡ size_down value }
    ensures at_most_2_52 { result ≤ 2 ^ 52 }
{
    std::num::truncating_f64_to_u64(value)
}

// The least whole number that is not below a number above 0 and below 2^52.
fn size_up(value: f64) -> u64
    requires above_zero { T (Ieee.lt (fin false 0 (pos 0)) value) }
    requires below_2_52 { T (Ieee.lt value (fin false 1 (pos 52))) }
    ensures rounded_up { result ≡ size_up value }
    ensures at_most_2_52 { result ≤ 2 ^ 52 }
{
    let n = size_down(value);
    if (n as f64) < value {
        return n + 1;
    }
    n
}

/// The largest whole number that is not above a float, as a float. From 2^52 on it is the float
/// itself, and so it is for a NaN, an infinity and a zero of either sign.
#[tactic(auto, using(crate::proofs::float::Floors::floor_nan))]
pub fn floor(value: f64) -> f64
    ensures { result ≡ floor_of value }
{
    if value.is_nan() {
        return value;
    }
    if 4503599627370496.0 <= value {
        return value;
    }
    if value <= -4503599627370496.0 {
        return value;
    }
    if 0.0 < value {
        return size_down(value) as f64;
    }
    if value < 0.0 {
        return -(size_up(-value) as f64);
    }
    value
}

/// The largest whole number that is not above a float, as a whole number, for one that lies
/// strictly between -2^52 and 2^52.
pub fn floor_to_i64(value: f64) -> i64
    requires above_minus_2_52 { T (Ieee.lt (fin true 1 (pos 52)) value) }
    requires below_2_52 { T (Ieee.lt value (fin false 1 (pos 52))) }
    ensures { result ≡ floor_int value }
{
    if 0.0 < value {
        return size_down(value) as i64;
    }
    if value < 0.0 {
        return 0 - (size_up(-value) as i64);
    }
    0
}
