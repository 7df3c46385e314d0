//! Which slots have entries alike, by numbers.
ghost use Rattle.std.specs.Prelude.{◌≡◌, ℕ, ◌<◌, ◌==◌, ◌&&◌, length, not, slice_set, IfOk, IfSome, MatchOption};
ghost use Rattle.registry_slots.specs.Numbering.{number_at, GivesNew};

use std::alloc::{AllocError, Global};
use std::marker::Model;

/// A number for each slot, 0 at first. Two slots get the same one where their entries are alike; 0 says nothing.
pub struct Alikes {
    numbers: Vec<u64>,
    // None is greater.
    last: u64,
}

impl Drop for Alikes {
    fn drop(self) {
        let Alikes {
            numbers: _,
            last: _,
        } = self;
    }
}

impl Model for Alikes {
    ghost use Rattle.std.specs.Prelude.{List, ℕ};
    ghost use Rattle.registry_slots.specs.Numbering.{AreUpTo};

    ghost Value = { List ℕ };

    ghost view = { λ a. a.numbers.items };

    ghost invariant = { λ a. AreUpTo a.last a.numbers.items };
}

impl Alikes {
    /// So many numbers.
    pub fn with_capacity(alloc: Global, capacity: usize) -> Result<Alikes, AllocError>
        ensures room { IfOk result (λ a. length a ≡ capacity) }
        ensures each { IfOk result (λ a. (x : ℕ) → number_at a x ≡ 0) }
    {
        let numbers = vec![in alloc; 0; capacity]?;
        Ok(Alikes { numbers, last: 0 })
    }

    /// Whether two slots have the same number, which says something.
    #[inline(always)]
    pub fn are_one(&self, x: usize, y: usize) -> bool
        requires x { x < length self.now }
        requires y { y < length self.now }
        ensures { result ≡ (not (number_at self.now x == 0) && (number_at self.now x == number_at self.now y)) }
    {
        self.numbers[x] != 0 && self.numbers[x] == self.numbers[y]
    }

    // Gives a slot the number of another one.
    fn join(&mut self, x: usize, y: usize)
        requires x { x < length self.old }
        requires y { y < length self.old }
        ensures { self.new ≡ slice_set self.old x (number_at self.old y) }
    {
        self.numbers[x] = self.numbers[y];
    }

    // Gives a slot a number that no slot has; 0, once there is none left.
    fn part(&mut self, x: usize)
        requires { x < length self.old }
        ensures { GivesNew self.old self.new x }
    {
        if self.last == u64::MAX {
            self.numbers[x] = 0;
            return;
        }
        self.last += 1;
        self.numbers[x] = self.last;
    }

    /// Gives a slot the number of one whose entry is alike, or else one that no slot has.
    pub fn give(&mut self, x: usize, like: Option<usize>)
        requires x { x < length self.old }
        requires like { IfSome like (λ y. y < length self.old) }
        ensures { MatchOption like (GivesNew self.old self.new x) (λ y. self.new ≡ slice_set self.old x (number_at self.old y)) }
    {
        match like {
            Some(y) => self.join(x, y),
            None => self.part(x),
        }
    }
}
