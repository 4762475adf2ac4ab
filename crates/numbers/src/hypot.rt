//! The length of a hypotenuse, correctly rounded (docs/RULES.md, 'Hypot'). It works in whole
//! numbers throughout: a float is m * 2^e grains of 2^-1074, and twice the root of the sum of the
//! squares is found in units of the longer side's last digit, with what is left over.
ghost use Rattle.std.specs.Prelude.{◌≡◌, ◌+◌, ◌*◌, ◌/◌, ◌%◌, ◌^◌, ◌≤◌, ◌<◌};
ghost use Rattle.std.specs.Float.Ieee.{of_bits};
ghost use Rattle.std.specs.Float.{binary64};
ghost use Rattle.numbers.specs.Laws.{IsHypotenuse};
ghost use Rattle.numbers.specs.Hypot.{grains, hypot_of};
ghost use Rattle.numbers.specs.Stages.Steps.{Packed, Nearest, IsWide, IsRoot, Extends};
ghost use Rattle.numbers.specs.Stages.Steps.{Sides, Length, up_by};

use crate::float::bits::of_bits;
use crate::float::floor::size_down;
use crate::float::small::abs;

// A number of grains: m * 2^e.
#[derive(Clone, Copy)]
pub(crate) struct Part {
    pub m: u64,
    pub e: u64,
}

// A number of up to 118 bits: hi * 2^54 + lo.
#[derive(Clone, Copy)]
pub(crate) struct Wide {
    pub hi: u64,
    pub lo: u64,
    pub ghost low: { lo < 2 ^ 54 },
}

// A square root's whole part, and what its square leaves of the number.
#[derive(Clone, Copy)]
pub(crate) struct Root {
    pub root: u64,
    pub rest: u64,
}

// How many grains the float of this pattern is; it is finite and its sign isn't set.
fn unpacked(pattern: u64) -> Part
    requires { pattern < 2 ^ 63 }
    ensures { Packed pattern result.m result.e }
{
    let f = pattern / 0x10_0000_0000_0000;
    let t = pattern % 0x10_0000_0000_0000;
    if f == 0 {
        return Part { m: t, e: 0 };
    }
    Part {
        m: t + 0x10_0000_0000_0000,
        e: f - 1,
    }
}

// The square of a number.
#[tactic(auto, using(crate::proofs::hypot::Words::square_is))]
fn square(number: u64) -> Wide
    requires { number < 2 ^ 54 }
    ensures { IsWide result.hi result.lo (number * number) }
{
    let a = number / 0x800_0000;
    let b = number % 0x800_0000;
    let c = 2 * (a * b);
    let l = c % 0x800_0000 * 0x800_0000 + b * b;
    Wide {
        hi: a * a + c / 0x800_0000 + l / 0x40_0000_0000_0000,
        lo: l % 0x40_0000_0000_0000,
    }
}

// The number divided by 2^shift, rounded down.
fn shifted(wide: Wide, shift: u64) -> Wide
    requires small { wide.hi < 2 ^ 54 }
    requires within_word { shift ≤ 54 }
    ensures { IsWide result.hi result.lo ((wide.hi * 2 ^ 54 + wide.lo) / 2 ^ shift) }
{
    let hi = wide.hi;
    let lo = wide.lo;
    let h = hi >> shift;
    Wide {
        hi: h,
        lo: ((hi - (h << shift)) << (54 - shift)) + (lo >> shift),
    }
}

// The sum of two numbers.
fn sum(first: Wide, second: Wide) -> Wide
    requires first_small { first.hi < 2 ^ 54 }
    requires second_small { second.hi < 2 ^ 54 }
    ensures { IsWide result.hi result.lo
        (first.hi * 2 ^ 54 + first.lo + (second.hi * 2 ^ 54 + second.lo)) }
{
    let l = first.lo + second.lo;
    Wide {
        hi: first.hi + second.hi + l / 0x40_0000_0000_0000,
        lo: l % 0x40_0000_0000_0000,
    }
}

// The root of a number of which the root is known without its last `count` digits of base 4, which
// are the word's.
fn digits(was: Root, word: u64, count: u64) -> Root
    requires root_before { was.rest ≤ 2 * was.root }
    requires room { (was.root + 1) * 2 ^ count ≤ 2 ^ 56 }
    requires within_word { count ≤ 28 }
    requires digits_of_word { word < 2 ^ (2 * count) }
    ensures { IsRoot result.root result.rest
        ((was.root * was.root + was.rest) * 2 ^ (2 * count) + word) }
{
    let mut root = was.root;
    let mut rest = was.rest;
    for i in (0..count).rev() {
        let r = 4 * rest + (word >> (2 * i)) % 4;
        let t = 4 * root + 1;
        // 1 where t is at most r, with no branch to predict
        let b = (0x8000_0000_0000_0000 + r - t) / 0x8000_0000_0000_0000;
        rest = r - b * t;
        root = 2 * root + b;
    }
    Root { root, rest }
}

// 1 where the next number up from the kept digits is to be taken: `half` is the digit behind them,
// and `rest` is 0 where nothing follows that.
fn up(kept: u64, half: u64, rest: u64) -> u64
    ensures { result ≡ up_by kept half rest }
{
    if half == 0 {
        return 0;
    }
    if rest == 0 {
        return kept % 2;
    }
    1
}

// The pattern of the f64 nearest to half of root * 2^exponent grains and the rest; the root has one
// digit more than an f64 has.
fn packed(root: u64, rest: u64, exponent: u64) -> u64
    requires digits { root < 2 ^ 54 }
    requires finite { exponent ≤ 2046 }
    requires normal { 0 < exponent → 2 ^ 53 ≤ root }
    ensures { Nearest result root rest exponent }
{
    let q = root / 2;
    let n = q + up(q, root % 2, rest);
    let b = exponent * 0x10_0000_0000_0000 + n;
    b.min(0x7ff0_0000_0000_0000)
}

// The same for a root of one or two digits more.
fn rounded(root: u64, rest: u64, exponent: u64) -> u64
    requires digits { root < 2 ^ 55 }
    requires room { rest < 2 ^ 63 }
    requires finite { exponent ≤ 2045 }
    requires normal { 0 < exponent → 2 ^ 53 ≤ root }
    ensures { Nearest result root rest exponent }
{
    if 0x40_0000_0000_0000 <= root {
        return packed(root / 2, rest + root % 2, exponent + 1);
    }
    packed(root, rest, exponent)
}

// The whole part of longer * longer + shorter * shorter / 4^shift.
fn squares(longer: u64, shorter: u64, shift: u64) -> Wide
    requires longer_small { longer < 2 ^ 54 }
    requires shorter_small { shorter < 2 ^ 54 }
    requires within_word { shift ≤ 27 }
    ensures { IsWide result.hi result.lo (longer * longer + shorter * shorter / 2 ^ (2 * shift)) }
{
    let a = square(longer);
    let b = square(shorter);
    let c = shifted(b, 2 * shift);
    sum(a, c)
}

// What that cuts off.
fn cut(shorter: u64, shift: u64) -> u64
    requires small { shorter < 2 ^ 54 }
    requires within_word { shift ≤ 27 }
    ensures { result ≡ shorter * shorter % 2 ^ (2 * shift) }
{
    let b = square(shorter);
    let l = b.lo;
    l - ((l >> (2 * shift)) << (2 * shift))
}

// The root of a number of which the root is known without its last two digits of a base. The base
// is at most twice that root, so a quotient finds the next digit of the root, or one more.
fn extended(was: Root, first: u64, second: u64, base: u64) -> Root
    requires { Extends was.root was.rest first second base }
    ensures { IsRoot result.root result.rest
        ((was.root * was.root + was.rest) * (base * base) + (first * base + second)) }
{
    let d = 2 * was.root;
    let n = was.rest * base + first;
    let q = n / d;
    let t = n % d * base + second;
    let root = was.root * base + q;
    if q * q <= t {
        return Root {
            root,
            rest: t - q * q,
        };
    }
    Root {
        root: root - 1,
        rest: t + 2 * root - 1 - q * q,
    }
}

// One more step of Newton's towards 1 over the root of twice `half`.
fn nearer(half: f64, estimate: f64) -> f64 {
    estimate * (1.5 - half * estimate * estimate)
}

// Nearly the root of the word: any number below 2^28 serves, since `word_root` mends it. Half of a
// pattern gives a first guess of 1 over the root.
fn guess(word: u64) -> u64
    requires { word < 2 ^ 56 }
    ensures { result < 2 ^ 28 }
{
    let x = (word / 16) as f64 * 16.0;
    if x.is_nan() {
        return 0;
    }
    let p = f64::to_bits(x) % 0x8000_0000_0000_0000 / 2;
    let y = of_bits((0xdfe6_eb50_c7b5_37a9 - p) % 0x8000_0000_0000_0000);
    let h = 0.5 * x;
    let s = x * nearer(h, nearer(h, nearer(h, y)));
    if 0.0 < s {
        if 4503599627370496.0 <= s {
            return 0;
        }
        return under(size_down(s));
    }
    0
}

// The estimate, held below 2^28.
fn under(estimate: u64) -> u64
    ensures { result < 2 ^ 28 }
{
    estimate.min(0xfff_ffff)
}

// The largest number from the estimate down whose square isn't above the word.
fn lowered(word: u64, estimate: u64) -> u64
    requires { estimate < 2 ^ 28 }
    ensures small { result < 2 ^ 28 }
    ensures not_above { result * result ≤ word }
{
    let mut r = estimate;
    while word < r * r {
        r -= 1;
    }
    r
}

// The root of the word, from a number on whose square isn't above it.
fn raised(word: u64, estimate: u64) -> Root
    requires small { estimate < 2 ^ 28 }
    requires not_above { estimate * estimate ≤ word }
    requires word_bound { word < 2 ^ 56 }
    ensures { IsRoot result.root result.rest word }
{
    let mut r = estimate;
    while (r + 1) * (r + 1) <= word {
        r += 1;
    }
    Root {
        root: r,
        rest: word - r * r,
    }
}

// The root of a number of 56 bits: a guess, mended.
fn word_root(word: u64) -> Root
    requires { word < 2 ^ 56 }
    ensures { IsRoot result.root result.rest word }
{
    raised(word, lowered(word, guess(word)))
}

// The root of a number: by quotients, or digit by digit where it is so small that its sides are
// subnormal.
fn wide_root(wide: Wide) -> Root
    requires { wide.hi < 2 ^ 56 }
    ensures { IsRoot result.root result.rest (wide.hi * 2 ^ 54 + wide.lo) }
{
    let lo = wide.lo;
    if 0x10_0000_0000_0000 <= wide.hi {
        return extended(
            word_root(wide.hi),
            lo / 0x800_0000,
            lo % 0x800_0000,
            0x800_0000,
        );
    }
    let h = digits(Root { root: 0, rest: 0 }, wide.hi, 28);
    digits(h, lo, 27)
}

// The pattern of the hypotenuse of sides whose exponents are less than 27 apart.
#[tactic(auto, using(crate::proofs::hypot::Lengths::near_laws))]
fn near(longer: Part, shorter: Part) -> u64
    requires sides { Sides longer.m longer.e shorter.m shorter.e }
    requires close_exponents { longer.e < shorter.e + 27 }
    ensures { Length result (longer.m * 2 ^ longer.e) (shorter.m * 2 ^ shorter.e) }
{
    let d = longer.e - shorter.e;
    let r = wide_root(squares(2 * longer.m, 2 * shorter.m, d));
    rounded(r.root, r.rest + cut(2 * shorter.m, d), longer.e)
}

// The same of exponents that are further apart, where the shorter side adds less than half a digit
// to the longer.
#[tactic(auto, using(crate::proofs::hypot::Lengths::far_close))]
fn far(longer: Part, shorter: Part) -> u64
    requires sides { Sides longer.m longer.e shorter.m shorter.e }
    requires far_exponents { shorter.e + 27 ≤ longer.e }
    ensures { Length result (longer.m * 2 ^ longer.e) (shorter.m * 2 ^ shorter.e) }
{
    rounded(2 * longer.m, shorter.m, longer.e)
}

// The pattern of the hypotenuse, from the patterns of the sides.
#[tactic(auto, using(crate::proofs::float::Whole::side_laws))]
fn bits_of(longer: u64, shorter: u64) -> u64
    requires in_order { shorter ≤ longer }
    requires finite { longer < 0x7ff0_0000_0000_0000 }
    ensures { Length result (grains (of_bits binary64 longer)) (grains (of_bits binary64 shorter)) }
{
    let x = unpacked(longer);
    let y = unpacked(shorter);
    if x.e - y.e < 27 {
        return near(x, y);
    }
    far(x, y)
}

/// The square root of side * side + other * other, taken exactly and rounded once
/// (docs/RULES.md, 'Hypot'). An infinite side gives infinity, even beside a NaN; else a NaN gives
/// a NaN.
#[tactic(auto, using(crate::proofs::hypot::Lengths::special_laws, crate::proofs::hypot::HypotenuseLaw::is_hypotenuse))]
pub fn hypot(side: f64, other: f64) -> f64
    ensures computed { result ≡ hypot_of side other }
    ensures exact { IsHypotenuse side other result }
{
    let i = f64::INFINITY;
    let a = abs(side);
    let b = abs(other);
    if a == i {
        return i;
    }
    if b == i {
        return i;
    }
    if a.is_nan() {
        return a;
    }
    if b.is_nan() {
        return b;
    }
    let p = f64::to_bits(a);
    let q = f64::to_bits(b);
    if q <= p {
        return f64::from_bits(bits_of(p, q));
    }
    f64::from_bits(bits_of(q, p))
}
