//! Keys: unsigned numbers whose order is IEEE 754's totalOrder of the floats (docs/RULES.md, 'Total
//! order').
ghost use Rattle.std.specs.Prelude.{◌≡◌, ◌-◌, ◌^◌, ◌<◌, not, T, is_nan, to_bits};
ghost use Rattle.std.specs.Float.{binary64};
ghost use Rattle.numbers.specs.Key.{key_of};

/// The key of a binary64 pattern: turned round where its sign bit is set, else raised by 2^63.
#[tactic(auto, unfolding(crate::specs::Key::key_of))]
pub fn key_of_bits(pattern: u64) -> u64
    ensures { result ≡ key_of pattern }
{
    if 0x8000_0000_0000_0000 <= pattern {
        !pattern
    } else {
        pattern + 0x8000_0000_0000_0000
    }
}

/// The key of a float that is no NaN.
pub fn order_key(value: f64) -> u64
    requires { T (not (is_nan value)) }
    ensures { result ≡ key_of (to_bits binary64 value) }
{
    key_of_bits(f64::to_bits(value))
}

/// The key of any float; a NaN's is that of the one pattern that stands for it, above all numbers.
#[tactic(auto, using(crate::proofs::float::Patterns::key_nan))]
pub fn order_key_total(value: f64) -> u64
    ensures key { result ≡ key_of (to_bits binary64 value) }
    ensures below_highest { result < 2 ^ 64 - 1 }
{
    if value.is_nan() {
        return 0xfff8_0000_0000_0000;
    }
    order_key(value)
}
