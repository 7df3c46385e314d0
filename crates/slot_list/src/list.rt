ghost use Rattle.std.specs.Prelude.{◌≡◌, ℕ, ◌+◌, ◌*◌, ◌/◌, ◌<◌, ◌≤◌, [], length, take, slice_index, slice_set, IfOk};
ghost use Rattle.std.specs.List.{insert, remove};
ghost use Rattle.slot_list.specs.Blocks.{spot as spot_of, nth, IsBlocks, IsPassed, IsPut};

use std::alloc::{AllocError, Global};
use std::marker::Model;

/// How many numbers a block has. Putting one into the middle moves at most so many, and turns each block after it by one.
const BLOCK: usize = 256;

/// A list of slots' numbers, each below 65,536.
pub struct SlotList {
    // Blocks of `BLOCK`, each full but the last. The numbers of a block begin at its turn, and go on at its front.
    numbers: Vec<u16>,
    turns: Vec<u8>,
    len: usize,
    room: usize,
}

impl Drop for SlotList {
    fn drop(self) {
        let SlotList {
            numbers: _,
            turns: _,
            len: _,
            room: _,
        } = self;
    }
}

impl Model for SlotList {
    ghost use Rattle.slot_list.specs.Blocks.{Numbers, numbers_code, first, IsSlotList};

    ghost Value = { Numbers };

    ghost coded = { numbers_code };

    ghost view = { λ l. record { items = first l.numbers.items l.turns.items l.len; room = l.room } };

    ghost invariant = { λ l. IsSlotList l.numbers.items l.turns.items l.len l.room };
}

// Where the number of a place lies.
#[inline(always)]
#[tactic(auto, unfolding(crate::specs::Blocks::spot))]
fn spot(turns: &[u8], i: usize) -> usize
    requires turn { i / 256 < length turns.now }
    requires few { i < 65536 }
    ensures value { result ≡ spot_of turns.now i }
    ensures block { result / 256 ≡ i / 256 }
{
    let block = i / BLOCK;
    block * BLOCK + (turns[block] as usize + i) % BLOCK
}

// A number comes in at a run's start. The others move on by one, and the last falls out.
fn push_run(numbers: &mut [u16], from: usize, to: usize, x: u16) -> u16
    requires some { from < to }
    requires inside { to ≤ length numbers.old }
    ensures { IsPassed (slice_index numbers.old) (slice_index numbers.new) from to x result }
{
    let last = numbers[to - 1];
    numbers.copy_within(from..to - 1, from + 1);
    numbers[from] = x;
    last
}

// A number comes in at a run's end. The others move back by one, and the first falls out.
fn pull_run(numbers: &mut [u16], from: usize, to: usize, x: u16) -> u16
    requires some { from < to }
    requires inside { to ≤ length numbers.old }
    ensures { IsPassed (slice_index numbers.new) (slice_index numbers.old) from to result x }
{
    let first = numbers[from];
    numbers.copy_within(from + 1..to, from);
    numbers[to - 1] = x;
    first
}

// The same at places of one block, which are one run in memory, or two. It is a call of its own in the machine's code, since
// there its loops move many numbers at once.
#[inline(never)]
fn push_places(numbers: &mut [u16], turns: &[u8], from: usize, to: usize, x: u16) -> u16
    requires blocks { IsBlocks numbers.old turns.now }
    requires some { from < to }
    requires block { to ≤ from / 256 * 256 + 256 }
    requires inside { to ≤ length numbers.old }
    ensures { IsPassed (nth numbers.old turns.now) (nth numbers.new turns.now) from to x result }
{
    let front = from / BLOCK * BLOCK;
    let start = spot(turns, from);
    let end = start + (to - from);
    if end <= front + BLOCK {
        push_run(numbers, start, end, x)
    } else {
        let carried = push_run(numbers, start, front + BLOCK, x);
        push_run(numbers, front, end - BLOCK, carried)
    }
}

// The same for a number that comes in at the end.
#[inline(never)]
fn pull_places(numbers: &mut [u16], turns: &[u8], from: usize, to: usize, x: u16) -> u16
    requires blocks { IsBlocks numbers.old turns.now }
    requires some { from < to }
    requires block { to ≤ from / 256 * 256 + 256 }
    requires inside { to ≤ length numbers.old }
    ensures { IsPassed (nth numbers.new turns.now) (nth numbers.old turns.now) from to result x }
{
    let front = from / BLOCK * BLOCK;
    let start = spot(turns, from);
    let end = start + (to - from);
    if end <= front + BLOCK {
        pull_run(numbers, start, end, x)
    } else {
        let carried = pull_run(numbers, front, end - BLOCK, x);
        pull_run(numbers, start, front + BLOCK, carried)
    }
}

// A number comes in at the front of some whole blocks. Each is turned, so that its last place becomes its first, and what was
// there goes on to the next.
fn push_blocks(numbers: &mut [u16], turns: &mut [u8], from: usize, to: usize, x: u16) -> u16
    requires blocks { IsBlocks numbers.old turns.old }
    requires order { from ≤ to }
    requires inside { to ≤ length turns.old }
    ensures { IsPassed (nth numbers.old turns.old) (nth numbers.new turns.new) (from * 256) (to * 256) x result }
{
    let mut carried = x;
    for block in from..to {
        let turn = turns[block].wrapping_sub(1);
        turns[block] = turn;
        let front = block * BLOCK + turn as usize;
        let last = numbers[front];
        numbers[front] = carried;
        carried = last;
    }
    carried
}

// A number comes in at the end of some whole blocks, which are turned the other way.
fn pull_blocks(numbers: &mut [u16], turns: &mut [u8], from: usize, to: usize, x: u16) -> u16
    requires blocks { IsBlocks numbers.old turns.old }
    requires order { from ≤ to }
    requires inside { to ≤ length turns.old }
    ensures { IsPassed (nth numbers.new turns.new) (nth numbers.old turns.old) (from * 256) (to * 256) result x }
{
    let mut carried = x;
    for block in (from..to).rev() {
        let turn = turns[block];
        turns[block] = turn.wrapping_add(1);
        let front = block * BLOCK + turn as usize;
        let first = numbers[front];
        numbers[front] = carried;
        carried = first;
    }
    carried
}

// Puts a number in at a place, and moves on by one what is from there to the end.
fn put_in(numbers: &mut [u16], turns: &mut [u8], i: usize, end: usize, x: u16)
    requires blocks { IsBlocks numbers.old turns.old }
    requires some { i < end }
    requires inside { end ≤ length numbers.old }
    ensures { IsPut (nth numbers.old turns.old) (nth numbers.new turns.new) i end x }
{
    let next = i / BLOCK + 1;
    if end <= next * BLOCK {
        push_places(numbers, turns, i, end, x);
    } else {
        let carried = push_places(numbers, turns, i, next * BLOCK, x);
        push_blocks(numbers, turns, next, (end - 1) / BLOCK + 1, carried);
    }
}

// Takes out the number of a place, and moves back by one what is after it, up to the end.
fn take_out(numbers: &mut [u16], turns: &mut [u8], i: usize, end: usize) -> u16
    requires blocks { IsBlocks numbers.old turns.old }
    requires some { i < end }
    requires inside { end ≤ length numbers.old }
    ensures { IsPut (nth numbers.new turns.new) (nth numbers.old turns.old) i end result }
{
    let next = i / BLOCK + 1;
    if end <= next * BLOCK {
        pull_places(numbers, turns, i, end, 0)
    } else {
        let carried = pull_blocks(numbers, turns, next, (end - 1) / BLOCK + 1, 0);
        pull_places(numbers, turns, i, next * BLOCK, carried)
    }
}

#[tactic(auto, using(crate::proofs::Lists::of_places))]
impl SlotList {
    /// A list of no number, with the memory for so many.
    pub fn with_capacity(alloc: Global, room: usize) -> Result<SlotList, AllocError>
        requires { room ≤ 65536 }
        ensures items { IfOk result (λ l. l.items ≡ []) }
        ensures room { IfOk result (λ l. l.room ≡ room) }
    {
        let blocks = room.div_ceil(BLOCK);
        let numbers = vec![in alloc; 0; blocks * BLOCK]?;
        let turns = vec![in alloc; 0; blocks]?;
        Ok(SlotList {
            numbers,
            turns,
            len: 0,
            room,
        })
    }

    /// How many numbers there are.
    pub fn len(&self) -> usize
        ensures value { result ≡ length self.now.items }
        ensures within { length self.now.items ≤ self.now.room }
    {
        self.len
    }

    /// The number at a place.
    #[inline(always)]
    pub fn at(&self, i: usize) -> usize
        requires { i < length self.now.items }
        ensures value { result ≡ slice_index self.now.items i }
        ensures number { result < 65536 }
    {
        self.numbers[spot(&self.turns, i)] as usize
    }

    /// Puts a number at a place, before what is there.
    pub fn insert(&mut self, i: usize, x: usize)
        requires place { i ≤ length self.old.items }
        requires free { length self.old.items < self.old.room }
        requires number { x < 65536 }
        ensures items { self.new.items ≡ insert self.old.items i x }
        ensures room { self.new.room ≡ self.old.room }
    {
        put_in(
            &mut self.numbers,
            &mut self.turns,
            i,
            self.len + 1,
            x as u16,
        );
        self.len += 1;
    }

    /// Takes out the number at a place.
    pub fn remove(&mut self, i: usize)
        requires { i < length self.old.items }
        ensures items { self.new.items ≡ remove self.old.items i }
        ensures room { self.new.room ≡ self.old.room }
    {
        take_out(&mut self.numbers, &mut self.turns, i, self.len);
        self.len -= 1;
    }

    /// Sets the number at a place.
    pub fn set(&mut self, i: usize, x: usize)
        requires place { i < length self.old.items }
        requires number { x < 65536 }
        ensures items { self.new.items ≡ slice_set self.old.items i x }
        ensures room { self.new.room ≡ self.old.room }
    {
        let at = spot(&self.turns, i);
        self.numbers[at] = x as u16;
    }

    /// Drops all after the first `n`.
    pub fn truncate(&mut self, n: usize)
        requires { n ≤ length self.old.items }
        ensures items { self.new.items ≡ take n self.old.items }
        ensures room { self.new.room ≡ self.old.room }
    {
        self.len = n;
    }
}
