//! Crossings grouped by channel, in lent lists: which cross a channel, in the order of their
//! numbers (docs/WORK.md).
ghost use Rattle.std.specs.Prelude.{◌≡◌, ◌+◌, ◌*◌, ◌^◌, ◌≤◌, ◌<◌, length};
ghost use Rattle.numbers.specs.Table.{strided};
ghost use Rattle.channels.specs.Round.{round_of, first_at};
ghost use Rattle.channels.specs.Stages.Grouped.{Started, Copied, Grouped};

use numbers::order::{at, key_at, number, sort_by_key};

// The channel of each crossing, as its key.
#[tactic(auto, using(crate::proofs::grouping::Tabling::table_laws))]
fn channel_keys(numbers: &[u32], keys: &mut [u64])
    requires { length keys.old ≤ 2 ^ 32 }
    ensures { keys.new ≡ strided 3 0 0 (length keys.old) numbers.now }
{
    for (x, key) in keys.iter_mut().enumerate() {
        *key = at(numbers, 3 * x) as u64;
    }
}

// The third of each crossing's three numbers becomes one of the crossings in the order given.
fn copy_order(order: &[u32], numbers: &mut [u32])
    requires fits_u32 { length order.now ≤ 2 ^ 32 }
    requires numbers_room { 3 * length order.now ≤ length numbers.old }
    ensures { Copied order.now numbers.old numbers.new }
{
    for (j, &x) in order.iter().enumerate() {
        numbers[3 * j + 2] = x;
    }
}

// Where a channel's crossings begin in the order by channel: not before `first`, which is looked at
// first.
fn start_from(keys: &[u64], order: &[u32], first: usize, channel: usize) -> usize
    requires by_channel { order.now ≡ round_of keys.now }
    requires not_past { first ≤ first_at keys.now channel }
    ensures { result ≡ first_at keys.now channel }
{
    for j in first..order.len() {
        if channel <= key_at(keys, order[j]) as usize {
            return j;
        }
    }
    order.len()
}

// Where each channel's crossings begin in the order by channel, one past the last channel included.
// Each is looked for from the one before on: as many steps as there are channels and crossings.
fn put_starts(branches: usize, channels: usize, keys: &[u64], order: &[u32], ends: &mut [u32])
    requires fits_u32 { length order.now < 2 ^ 32 }
    requires ends_room { 4 * (branches + channels) + 4 ≤ length ends.old }
    requires by_channel { order.now ≡ round_of keys.now }
    ensures { Started branches (channels + 1) keys.now ends.old ends.new }
{
    let mut first = 0;
    for c in 0..channels + 1 {
        first = start_from(keys, order, first, c);
        ends[4 * (branches + c) + 3] = first as u32;
    }
}

// Groups all crossings by channel; the last three lists are as long as there are crossings.
fn group_all(
    branches: usize,
    channels: usize,
    ends: &mut [u32],
    numbers: &mut [u32],
    sorted: &mut [u32],
    spare: &mut [u32],
    keys: &mut [u64],
)
    requires ends_room { 4 * (branches + channels) + 4 ≤ length ends.old }
    requires fits_u32 { length keys.old < 2 ^ 32 }
    requires sorted_length { length sorted.old ≡ length keys.old }
    requires spare_length { length spare.old ≡ length keys.old }
    requires numbers_room { 3 * length keys.old ≤ length numbers.old }
    ensures { Grouped branches channels (length keys.old) ends.old numbers.old
        ends.new numbers.new }
{
    channel_keys(numbers, keys);
    number(sorted);
    sort_by_key(keys, sorted, spare);
    copy_order(sorted, numbers);
    put_starts(branches, channels, keys, sorted, ends);
}

/// Groups as many crossings as `keys` is long by channel. Of the three numbers of each crossing in
/// `numbers` the third becomes the crossing at that turn of the grouping. Of the four numbers of
/// each channel in `ends`, behind those of the branches, the fourth becomes the turn at which its
/// crossings begin; one more behind the last channel says where they end. `sorted`, `spare` and
/// `keys` are work lists.
pub fn group(
    branches: usize,
    channels: usize,
    ends: &mut [u32],
    numbers: &mut [u32],
    sorted: &mut [u32],
    spare: &mut [u32],
    keys: &mut [u64],
)
    requires ends_room { 4 * (branches + channels) + 4 ≤ length ends.old }
    requires fits_u32 { length keys.old < 2 ^ 32 }
    requires numbers_room { 3 * length keys.old ≤ length numbers.old }
    requires sorted_room { length keys.old ≤ length sorted.old }
    requires spare_room { length keys.old ≤ length spare.old }
    ensures { Grouped branches channels (length keys.old) ends.old numbers.old
        ends.new numbers.new }
{
    let n = keys.len();
    group_all(
        branches,
        channels,
        ends,
        numbers,
        &mut sorted[..n],
        &mut spare[..n],
        keys,
    );
}
