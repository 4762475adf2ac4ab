//! Maximum, minimum, magnitude, finiteness and clamp (docs/RULES.md, 'Maximum, minimum and clamp').
ghost use Rattle.std.specs.Prelude.{◌≡◌};
ghost use Rattle.std.specs.Float.Ieee as Ieee;
ghost use Rattle.numbers.specs.Small.{abs_of, is_finite, max_of, min_of, clamp_of};

/// The second number where the first is less, else the first. Unlike `f64::max` it keeps a NaN that
/// comes first, and the first of two zeros.
#[tactic(auto, unfolding(crate::specs::Small::max_of))]
pub fn max(first: f64, second: f64) -> f64
    ensures { result ≡ max_of first second }
{
    if first < second { second } else { first }
}

/// The second number where it is less than the first, else the first: a NaN that comes first stays,
/// and so does the first of two zeros.
#[tactic(auto, unfolding(crate::specs::Small::min_of))]
pub fn min(first: f64, second: f64) -> f64
    ensures { result ≡ min_of first second }
{
    if second < first { second } else { first }
}

/// The number with its sign cleared.
#[tactic(auto, using(crate::proofs::float::Signs::std_abs))]
pub fn abs(value: f64) -> f64
    ensures { result ≡ abs_of value }
{
    value.abs()
}

/// Whether the number is neither a NaN nor an infinity.
#[tactic(auto, using(crate::proofs::float::Signs::std_is_finite))]
pub fn is_finite(value: f64) -> bool
    ensures { result ≡ is_finite value }
{
    value.is_finite()
}

/// `low` where the number is below it, `high` where it is above that, else the number; `low` may
/// lie above `high`, and a NaN stays.
#[tactic(auto, unfolding(crate::specs::Small::clamp_of))]
pub fn clamp(value: f64, low: f64, high: f64) -> f64
    ensures { result ≡ clamp_of value low high }
{
    if value < low {
        return low;
    }
    if high < value {
        return high;
    }
    value
}
