//! A rising list of numbers in blocks, so that little is moved when a number comes or goes.
ghost use Rattle.std.specs.Prelude.{◌≡◌, ◌≤◌, ◌<◌, ◌+◌, ◌++◌, ◌*◌, ℕ, IfOk, IsTrue, insert, length};
ghost use Rattle.std.specs.Prelude.{if◌then◌else◌, slice_get, vec_capacity};
ghost use Rattle.ranked_lines.specs.Rising.{all_but, put_in, sorted, take_out, Rises};
ghost use Rattle.ranked_lines.specs.Blocked.{block_at, joined, size_at, Filled, IsPlaceOf, DenseBut, Dense};

use crate::rising_list::{
    Block, count_without_number, index_without_number, list_ends_below, put_in_rising_list,
    take_out_of_rising_list,
};
use std::alloc::{AllocError, Global};
use std::marker::Model;

/// A rising list of numbers in blocks of at most 128. Contracts see the list, and for how many blocks there is room.
#[derive(Drop)]
pub(crate) struct Blocks {
    // No block is empty, and two neighbours have more than 64 numbers together. So there are few.
    blocks: Vec<Block>,
}

impl Model for Blocks {
    ghost use Rattle.std.specs.Prelude.{List, ℕ, vec_capacity};
    ghost use Rattle.ranked_lines.specs.Rising.{Rises};
    ghost use Rattle.ranked_lines.specs.Blocked.{joined, Filled, Dense};

    ghost Value = { List ℕ × ℕ };

    ghost view = { λ numbers. (joined numbers.blocks.items, vec_capacity numbers.blocks) };

    ghost invariant = { λ numbers. Rises (joined numbers.blocks.items) × Filled numbers.blocks.items
        × Dense 65 numbers.blocks.items };
}

/// How many blocks from the front on have only numbers below one, by a binary search.
fn block_at(blocks: &[Block], number: u64) -> usize
    requires rises { Rises (joined blocks.now) }
    requires filled { Filled blocks.now }
    ensures bound { result ≤ length blocks.now }
    ensures count { result ≡ block_at number blocks.now }
{
    let mut low = 0;
    let mut high = blocks.len();
    while low < high {
        let middle = low + (high - low) / 2;
        if list_ends_below(blocks[middle].as_slice(), number) {
            low = middle + 1;
        } else {
            high = middle;
        }
    }
    low
}

/// The block that a number belongs to: the first one that ends at it or above, else the last one.
fn block_for_number(blocks: &[Block], number: u64) -> usize
    requires rises { Rises (joined blocks.now) }
    requires filled { Filled blocks.now }
    requires some { 0 < length blocks.now }
    ensures { IsPlaceOf number result blocks.now }
{
    let at = block_at(blocks, number);
    if at < blocks.len() {
        at
    } else {
        blocks.len() - 1
    }
}

/// How many numbers a block has.
fn block_size(blocks: &[Block], at: usize) -> usize
    requires { at < length blocks.now }
    ensures count { result ≡ size_at at blocks.now }
    ensures most { result ≤ 128 }
{
    blocks[at].len()
}

/// A block of at most 128 numbers.
fn block_from_numbers(numbers: &[u64]) -> Block
    requires { length numbers.now ≤ 128 }
    ensures { result.items ≡ numbers.now }
{
    let mut block = Block::new();
    let _fits = block.try_extend_from_slice(numbers);
    block
}

/// Whether there is room for one more block. There is while there are fewer numbers than 32 for each block but one that
/// there may be.
fn has_room_for_block(blocks: &Vec<Block>) -> bool
    requires { Dense 65 blocks.now.items }
    ensures sure { length (joined blocks.now.items) + 32 < vec_capacity blocks.now * 32 →
        IsTrue result }
    ensures count { IsTrue result → length blocks.now.items < vec_capacity blocks.now }
{
    blocks.len() < blocks.capacity()
}

/// Puts a block between others, in the room that there is for it.
fn put_block(blocks: &mut Vec<Block>, at: usize, block: Block)
    requires inside { at ≤ length blocks.old.items }
    requires room { length blocks.old.items < vec_capacity blocks.old }
    ensures items { blocks.new.items ≡ insert blocks.old.items at block }
    ensures capacity { vec_capacity blocks.new ≡ vec_capacity blocks.old }
{
    let put: Result<_, _> = blocks.insert(at, block);
    let _there = put.unwrap();
}

/// Puts the upper 64 numbers of a full block into a block of their own behind it, so that each number that belonged to
/// it has room.
fn split_full_block(blocks: &mut Vec<Block>, at: usize)
    requires inside { at < length blocks.old.items }
    requires full { size_at at blocks.old.items ≡ 128 }
    requires room { length blocks.old.items < vec_capacity blocks.old }
    ensures same { joined blocks.new.items ≡ joined blocks.old.items }
    ensures filled { Filled blocks.old.items → Filled blocks.new.items }
    ensures dense { Filled blocks.old.items → Dense 65 blocks.old.items →
        Dense 65 blocks.new.items }
    ensures some { 0 < length blocks.new.items }
    ensures halves { (x k : ℕ) → IsPlaceOf x at blocks.old.items → IsPlaceOf x k blocks.new.items →
        size_at k blocks.new.items < 128 }
    ensures capacity { vec_capacity blocks.new ≡ vec_capacity blocks.old }
{
    let upper = block_from_numbers(&blocks[at].as_slice()[64..]);
    put_block(blocks, at + 1, upper);
    blocks[at].truncate(64);
}

/// Puts a number into the block that it belongs to, which has room.
fn put_number_in_block(blocks: &mut Vec<Block>, at: usize, number: u64)
    requires rises { Rises (joined blocks.old.items) }
    requires filled { Filled blocks.old.items }
    requires place { IsPlaceOf number at blocks.old.items }
    requires room { size_at at blocks.old.items < 128 }
    ensures put { joined blocks.new.items ≡ put_in number (joined blocks.old.items) }
    ensures capacity { vec_capacity blocks.new ≡ vec_capacity blocks.old }
    ensures filled { Filled blocks.new.items }
    ensures dense { Dense 65 blocks.old.items → Dense 65 blocks.new.items }
{
    put_in_rising_list(&mut blocks[at], number);
}

/// Takes the first number that isn't below a number out of its block, and the block if it gets empty.
fn take_number_from_block(blocks: &mut Vec<Block>, at: usize, number: u64)
    requires rises { Rises (joined blocks.old.items) }
    requires filled { Filled blocks.old.items }
    requires inside { at < length blocks.old.items }
    requires first { at ≡ block_at number blocks.old.items }
    ensures taken { joined blocks.new.items ≡ take_out number (joined blocks.old.items) }
    ensures capacity { vec_capacity blocks.new ≡ vec_capacity blocks.old }
    ensures filled { Filled blocks.new.items }
    ensures dense { Dense 65 blocks.old.items → DenseBut 1 1 65 at blocks.new.items }
{
    if block_size(blocks, at) <= 1 {
        let _block = blocks.remove(at);
        return;
    }
    take_out_of_rising_list(&mut blocks[at], number);
}

/// Puts numbers behind those of a block that has room for them.
fn append_to_block(block: &mut Block, numbers: &[u64])
    requires { length block.old.items + length numbers.now ≤ 128 }
    ensures { block.new.items ≡ block.old.items ++ numbers.now }
{
    let _fits = block.try_extend_from_slice(numbers);
}

/// Joins a block with the next one, if there is one and they have at most 64 numbers together.
fn join_next_block(blocks: &mut Vec<Block>, at: usize)
    requires { at < length blocks.old.items }
    ensures same { joined blocks.new.items ≡ joined blocks.old.items }
    ensures filled { Filled blocks.old.items → Filled blocks.new.items }
    ensures next { DenseBut 1 1 65 at blocks.old.items → DenseBut 1 0 65 at blocks.new.items }
    ensures before { DenseBut 1 0 65 (at + 1) blocks.old.items → Dense 65 blocks.new.items }
    ensures inside { at < length blocks.new.items }
    ensures capacity { vec_capacity blocks.new ≡ vec_capacity blocks.old }
{
    if at + 1 >= blocks.len() {
        return;
    }
    let here = block_size(blocks, at);
    let next = block_size(blocks, at + 1);
    if here + next > 64 {
        return;
    }
    let upper = blocks.remove(at + 1);
    append_to_block(&mut blocks[at], upper.as_slice());
}

/// Joins a block that a number has left with the next one and with the one before, where they have at most 64 numbers
/// together.
fn join_short_neighbours(blocks: &mut Vec<Block>, at: usize)
    ensures same { joined blocks.new.items ≡ joined blocks.old.items }
    ensures filled { Filled blocks.old.items → Filled blocks.new.items }
    ensures dense { DenseBut 1 1 65 at blocks.old.items → Dense 65 blocks.new.items }
    ensures capacity { vec_capacity blocks.new ≡ vec_capacity blocks.old }
{
    if at >= blocks.len() {
        return;
    }
    join_next_block(blocks, at);
    if at == 0 {
        return;
    }
    join_next_block(blocks, at - 1);
}

/// The number of all blocks that comes after so many others but one number, if there is one.
fn nth_number_in_blocks(blocks: &[Block], but: &Option<u64>, at: usize) -> Option<u64>
    requires { Rises (joined blocks.now) }
    ensures { result ≡ slice_get (all_but but.now (joined blocks.now)) at }
{
    let mut left = at;
    for block in blocks {
        let here = count_without_number(block.as_slice(), *but);
        if left < here {
            let numbers = block.as_slice();
            return Some(numbers[index_without_number(numbers, *but, here, left)]);
        }
        left -= here;
    }
    None
}

/// Where a block ends that begins there: after 64 numbers, or with the last one.
fn block_end(from: usize, count: usize) -> usize
    requires { from < count }
    ensures within { result ≤ count }
    ensures more { from < result }
    ensures few { result ≤ from + 64 }
    ensures whole { result < count → result ≡ from + 64 }
{
    if count - from < 64 { count } else { from + 64 }
}

impl Blocks {
    /// The numbers of a rising list, in blocks of 64, with room for so many numbers at most.
    pub(crate) fn of(alloc: Global, numbers: &[u64], most: usize) -> Result<Blocks, AllocError>
        requires { Rises numbers.now }
        ensures numbers { IfOk result (λ blocks. blocks.0 ≡ numbers.now) }
        ensures room { IfOk result (λ blocks. most + 32 < blocks.1 * 32) }
    {
        // Two neighbours have more than 64 numbers together. So there are at most most / 32 + 1 blocks.
        let mut blocks: Vec<Block> = Vec::with_capacity(alloc, most / 32 + 2)?;
        let mut from = 0;
        while from < numbers.len() {
            let to = block_end(from, numbers.len());
            blocks.push(block_from_numbers(&numbers[from..to]))?;
            from = to;
        }
        Ok(Blocks { blocks })
    }

    /// The numbers of a list, rising, in the blocks' memory; false where that has no room for so many numbers at most.
    pub(crate) fn refill(&mut self, numbers: &[u64], most: usize) -> bool
        ensures { IsTrue result → (self.new.0 ≡ sorted numbers.now) × (most + 32 < self.new.1 * 32) }
    {
        if self.blocks.capacity() < most / 32 + 2 {
            return false;
        }
        self.blocks.clear();
        let mut left = numbers.len();
        while 0 < left {
            left -= 1;
            if !self.put_in(numbers[left]) {
                return false;
            }
        }
        true
    }

    /// Puts a number into its place, and takes no memory; false where that wants a block more than there is room for,
    /// and then nothing has changed. It never does while there are fewer numbers than there may be.
    pub(crate) fn put_in(&mut self, number: u64) -> bool
        ensures numbers { self.new.0 ≡ (if result then put_in number self.old.0 else self.old.0) }
        ensures room { self.new.1 ≡ self.old.1 }
        ensures sure { length self.old.0 + 32 < self.old.1 * 32 → IsTrue result }
    {
        let has_room = has_room_for_block(&self.blocks);
        if self.blocks.is_empty() {
            if !has_room {
                return false;
            }
            self.blocks.push_reserved(block_from_numbers(&[number]));
            return true;
        }
        let at = block_for_number(&self.blocks, number);
        if block_size(&self.blocks, at) < 128 {
            put_number_in_block(&mut self.blocks, at, number);
            return true;
        }
        if !has_room {
            return false;
        }
        split_full_block(&mut self.blocks, at);
        let at = block_for_number(&self.blocks, number);
        put_number_in_block(&mut self.blocks, at, number);
        true
    }

    /// Takes the first number that isn't below a number out.
    pub(crate) fn take_out(&mut self, number: u64)
        ensures numbers { self.new.0 ≡ take_out number self.old.0 }
        ensures room { self.new.1 ≡ self.old.1 }
    {
        let at = block_at(&self.blocks, number);
        if at >= self.blocks.len() {
            return;
        }
        take_number_from_block(&mut self.blocks, at, number);
        join_short_neighbours(&mut self.blocks, at);
    }

    /// The number that comes after so many others but one number, if there is one.
    pub(crate) fn nth(&self, but: &Option<u64>, at: usize) -> Option<u64>
        ensures { result ≡ slice_get (all_but but.now self.now.0) at }
    {
        nth_number_in_blocks(&self.blocks, but, at)
    }
}
