//! The float that a bit pattern stands for, NaN patterns included.
ghost use Rattle.std.specs.Prelude.{◌≡◌, from_bits};
ghost use Rattle.std.specs.Float.{binary64};

/// The float whose binary64 pattern this is. Rattle has one NaN, which every NaN pattern stands
/// for.
pub fn of_bits(pattern: u64) -> f64
    ensures { result ≡ from_bits binary64 pattern }
{
    if 0x7FF0_0000_0000_0000 < pattern % 0x8000_0000_0000_0000 {
        return f64::NAN;
    }
    f64::from_bits(pattern)
}
