//! Crossings of one channel, placed nearest their wishes, in their order, the least step apart
//! (docs/RULES.md, 'Spacing on a channel').
ghost use Rattle.std.specs.Prelude.{◌≡◌, ◌++◌, map, ◌+◌, ◌-◌, ◌^◌, ◌≤◌, length, drop, take};
ghost use Rattle.std.specs.Prelude.{replicate};
ghost use Rattle.numbers.specs.Order.{up_from};
ghost use Rattle.channels.specs.Space.{wish_key, wish_of, read_back, wish_order, in_order};
ghost use Rattle.channels.specs.Space.{even_at, crowded, forward_all, backward, spaced};

use crate::channel::Channel;
use numbers::float::bits::of_bits;
use numbers::float::key::order_key;
use numbers::float::small::{clamp, max, min};
use numbers::order::{key_at, number, sort_by_key};

// The key of a wish in the total order, a NaN last.
#[tactic(auto, unfolding(crate::specs::Space::wish_key))]
fn wish_key(wish: f64) -> u64
    ensures { result ≡ wish_key wish }
{
    if wish.is_nan() {
        return u64::MAX;
    }
    order_key(wish)
}

// The keys of the wishes.
fn wish_keys(wish: &[f64], keys: &mut [u64])
    requires { length keys.old ≡ length wish.now }
    ensures { keys.new ≡ map wish_key wish.now }
{
    for (i, &x) in wish.iter().enumerate() {
        keys[i] = wish_key(x);
    }
}

// The wish that has this key.
#[tactic(auto, unfolding(crate::specs::Space::wish_of))]
fn wish_of(key: u64) -> f64
    ensures { result ≡ wish_of key }
{
    if 0x8000_0000_0000_0000 <= key {
        return of_bits(key - 0x8000_0000_0000_0000);
    }
    of_bits(!key)
}

// The wishes in the order given, each read back from its key.
fn gather(keys: &[u64], order: &[u32], wish: &mut [f64])
    requires { length wish.old ≡ length order.now }
    ensures { wish.new ≡ read_back keys.now order.now }
{
    for (i, &x) in order.iter().enumerate() {
        wish[i] = wish_of(key_at(keys, x));
    }
}

// Whether wishes numbered 0 to `last` do not fit.
#[tactic(auto, unfolding(crate::specs::Space::crowded))]
fn crowded(channel: Channel, last: u32) -> bool
    ensures { result ≡ crowded channel last }
{
    (last as f64) * channel.least_step > channel.hi - channel.lo
}

// Spread evenly: the fraction of number i of those to `last`.
#[tactic(auto, unfolding(crate::specs::Space::even_at))]
fn even_at(channel: Channel, last: u32, index: u32) -> f64
    ensures { result ≡ even_at channel last index }
{
    if last == 0 {
        return (channel.lo + channel.hi) / 2.0;
    }
    channel.lo + (channel.hi - channel.lo) * (index as f64) / (last as f64)
}

// Wishes numbered 0 to `last`, spread evenly.
fn spread(channel: Channel, last: u32, list: &mut [f64])
    requires { length list.old ≡ last + 1 }
    ensures { list.new ≡ map (even_at channel last) (up_from 0 (last + 1)) }
{
    for (i, place) in list.iter_mut().enumerate() {
        *place = even_at(channel, last, i as u32);
    }
}

// The first pass: each wish held to the channel, and at least the least step past the fraction
// before it.
#[tactic(auto, unfolding(crate::specs::Space::forward_all))]
fn forward_pass(channel: Channel, list: &mut [f64])
    ensures { list.new ≡ forward_all channel list.old }
{
    if let Some((first, rest)) = list.split_first_mut() {
        let mut t = clamp(*first, channel.lo, channel.hi);
        *first = t;
        for x in rest {
            let wish = clamp(*x, channel.lo, channel.hi);
            let next = t + channel.least_step;
            t = max(wish, next);
            *x = t;
        }
    }
}

// The second pass, from the last fraction to the first.
#[tactic(auto, using(crate::proofs::spacing::Passes::back_laws))]
fn backward_pass(channel: Channel, list: &mut [f64])
    ensures { list.new ≡ backward channel list.old }
{
    if let Some((last, rest)) = list.split_last_mut() {
        let mut t = min(*last, channel.hi);
        *last = t;
        for i in (0..rest.len()).rev() {
            t = min(rest[i], t - channel.least_step);
            rest[i] = t;
        }
    }
}

// Wishes that stand in their order become their fractions.
#[tactic(auto, using(crate::proofs::spacing::Ways::empty), unfolding(crate::specs::Space::spaced))]
fn place(channel: Channel, list: &mut [f64])
    requires { length list.old ≤ 2 ^ 32 }
    ensures { list.new ≡ spaced channel list.old }
{
    let n = list.len();
    if n == 0 {
        return;
    }
    let last = (n - 1) as u32;
    if crowded(channel, last) {
        spread(channel, last, list);
    } else {
        forward_pass(channel, list);
        backward_pass(channel, list);
    }
}

// Wishes become their fractions in their order; the other lists are as long.
fn space_all(
    channel: Channel,
    wish: &mut [f64],
    keys: &mut [u64],
    order: &mut [u32],
    spare: &mut [u32],
)
    requires fits_u32 { length wish.old ≤ 2 ^ 32 }
    requires keys_length { length keys.old ≡ length wish.old }
    requires order_length { length order.old ≡ length wish.old }
    requires spare_length { length spare.old ≡ length wish.old }
    ensures wish_after { wish.new ≡ spaced channel (in_order wish.old (wish_order wish.old)) }
    ensures keys_after { keys.new ≡ map wish_key wish.old }
    ensures order_after { order.new ≡ wish_order wish.old }
    ensures spare_after { spare.new ≡ replicate (length wish.old) 0 }
{
    wish_keys(wish, keys);
    number(order);
    sort_by_key(keys, order, spare);
    gather(keys, order, wish);
    place(channel, wish);
}

/// The first `count` wishes become their fractions on the channel, in the order of the wishes, and
/// `order` begins with the wishes' numbers in that order. `keys` and `spare` are work lists; what
/// each of the four holds past `count` stays.
pub fn space_sorted(
    channel: Channel,
    count: usize,
    wish: &mut [f64],
    keys: &mut [u64],
    order: &mut [u32],
    spare: &mut [u32],
)
    requires fits_u32 { count ≤ 2 ^ 32 }
    requires wish_room { count ≤ length wish.old }
    requires keys_room { count ≤ length keys.old }
    requires order_room { count ≤ length order.old }
    requires spare_room { count ≤ length spare.old }
    ensures wish_after { wish.new
        ≡ spaced channel (in_order (take count wish.old) (wish_order (take count wish.old)))
        ++ drop count wish.old }
    ensures keys_after { keys.new ≡ map wish_key (take count wish.old) ++ drop count keys.old }
    ensures order_after { order.new ≡ wish_order (take count wish.old) ++ drop count order.old }
    ensures spare_after { spare.new ≡ replicate count 0 ++ drop count spare.old }
{
    space_all(
        channel,
        &mut wish[..count],
        &mut keys[..count],
        &mut order[..count],
        &mut spare[..count],
    );
}
