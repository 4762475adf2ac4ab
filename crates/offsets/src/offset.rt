//! Offsets (a, b), both from −search to search, by a² + b², a, b (docs/RULES.md, 'Offsets'): the
//! numbers of the grid's pairs, sorted.
ghost use Rattle.std.specs.Prelude.{◌≡◌, ◌++◌, suc, ◌+◌, ◌*◌, ◌^◌, ◌≤◌, length, drop};
ghost use Rattle.numbers.specs.Order.{up_from};
ghost use Rattle.numbers.specs.Table.{table};
ghost use Rattle.offsets.specs.Offset.{square, offset_number, grid_number, offsets};
ghost use Rattle.offsets.specs.Complete.{Complete};
ghost use Rattle.offsets.specs.Stages.OffsetList.{offset_at, offsets_in};

use numbers::order::{at, key_at, number, sort_part};

/// An offset from the seed, in steps.
#[derive(Clone, Copy)]
pub struct Offset {
    /// Steps to the right.
    pub a: i32,
    /// Steps down.
    pub b: i32,
}

// The square of a number less 20.
fn square(number: u64) -> u64
    requires { number ≤ 40 }
    ensures { result ≡ square number }
{
    let d = number.abs_diff(20);
    d * d
}

// The offset (right − 20, down − 20) as one number.
#[tactic(auto, using(crate::proofs::Grids::square_small), unfolding(crate::specs::Offset::offset_number))]
fn offset_number(right: u64, down: u64) -> u64
    requires right_fits { right ≤ 40 }
    requires down_fits { down ≤ 40 }
    ensures { result ≡ offset_number right down }
{
    ((square(right) + square(down)) * 41 + right) * 41 + down
}

// The numbers of the pairs, row by row, at the front of `keys`.
fn grid_keys(search: u64, side: u64, keys: &mut [u64])
    requires search_fits { search ≤ 20 }
    requires is_side { side ≡ suc (2 * search) }
    requires keys_room { side * side ≤ length keys.old }
    ensures { keys.new ≡ table (grid_number search) (side * side) ++ drop (side * side) keys.old }
{
    let first = 20 - search;
    let count = side * side;
    for i in 0..count {
        keys[i as usize] = offset_number(i / side + first, i % side + first);
    }
}

// Sets so many first numbers of a list to 0, 1, 2, ..
fn number_first(list: &mut [u32], total: usize)
    requires list_room { total ≤ length list.old }
    requires small_numbers { total ≤ 2 ^ 32 }
    ensures { list.new ≡ up_from 0 total ++ drop total list.old }
{
    number(&mut list[0..total]);
}

/// Generates the offsets of a search from 0 to 20: every pair within it, once, in order. Gives
/// how many they are; `offset_at` reads them from `keys` and `sorted`. `spare` is a work list.
pub fn offset_order(search: usize, keys: &mut [u64], sorted: &mut [u32], spare: &mut [u32]) -> usize
    requires search_fits { search ≤ 20 }
    requires keys_room { 1681 ≤ length keys.old }
    requires sorted_room { 1681 ≤ length sorted.old }
    requires spare_room { 1681 ≤ length spare.old }
    ensures how_many { result ≡ suc (2 * search) * suc (2 * search) }
    ensures are_offsets { offsets_in result keys.new sorted.new ≡ offsets search }
    ensures complete { Complete search (offsets_in result keys.new sorted.new) }
{
    let side = 2 * search + 1;
    let count = side * side;
    grid_keys(search as u64, side as u64, keys);
    number_first(sorted, count);
    sort_part(keys, sorted, spare, 0, count);
    count
}

/// The offset at this index, from 0 on, of those that `offset_order` left in `keys` and `sorted`.
#[tactic(auto, using(crate::proofs::Grids::less_fits, crate::proofs::Grids::offset_made), unfolding(crate::specs::Stages::OffsetList::offset_at))]
pub fn offset_at(keys: &[u64], sorted: &[u32], index: usize) -> Offset
    ensures { result ≡ offset_at keys.now sorted.now index }
{
    let c = key_at(keys, at(sorted, index));
    Offset {
        a: (c / 41 % 41) as i32 - 20,
        b: (c % 41) as i32 - 20,
    }
}
