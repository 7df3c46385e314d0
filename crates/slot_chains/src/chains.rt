ghost use Rattle.std.specs.Prelude.{◌≡◌, ◌≢◌, ℕ, ◌+◌, ◌^◌, ◌<◌, ◌≤◌, [], ◌∷◌, length, slice_index, slice_set, MatchOption, IfSome, IfOk};
ghost use Rattle.std.specs.List.{swap};
ghost use Rattle.slot_chains.specs.Links.{IsInverse, IsStanding, chain, rest};

use std::alloc::{AllocError, Global};
use std::marker::Model;

/// Chains of nodes: a node stands in one chain, its home, or in none. Contracts see the links, and
/// speak of them by `chain` and `rest`.
pub struct Chains {
    // What follows a node, or a head: the head of the chain h comes h places after the nodes. A
    // chain ends with its own head, and a node in no chain follows itself.
    next: Vec<u32>,
    prev: Vec<u32>,
    home: Vec<u32>,
    heads: usize,
}

impl Drop for Chains {
    fn drop(self) {
        let Chains {
            next: _,
            prev: _,
            home: _,
            heads: _,
        } = self;
    }
}

impl Model for Chains {
    ghost use Rattle.slot_chains.specs.Links.{Links, IsChained};

    ghost Value = { Links };

    ghost view = { λ c. record { next = c.next.items; home = c.home.items; heads = c.heads } };

    ghost invariant = { λ c. IsChained (record { next = c.next.items; home = c.home.items; heads = c.heads }) c.prev.items };
}

// The numbers below n.
fn counting(alloc: Global, n: usize) -> Result<Vec<u32>, AllocError>
    requires { n < 2 ^ 32 }
    ensures len { IfOk result (λ v. length v.items ≡ n) }
    ensures each { IfOk result (λ v. (k : ℕ) → k < n → slice_index v.items k ≡ k) }
{
    let mut all = Vec::with_capacity(alloc, n)?;
    for i in 0..n {
        all.push(i as u32)?;
    }
    Ok(all)
}

// The places a and x trade what follows them.
fn trade(next: &mut [u32], prev: &mut [u32], a: usize, x: usize)
    requires inverse { IsInverse next.old prev.old (length next.old) }
    requires a_in { a < length next.old }
    requires x_in { x < length next.old }
    ensures next { next.new ≡ swap next.old a x }
    ensures inverse { IsInverse next.new prev.new (length next.old) }
{
    let after_a = next[a] as usize;
    let after_x = next[x] as usize;
    next.swap(a, x);
    prev.swap(after_a, after_x);
}

impl Chains {
    /// Each node stands in no chain.
    pub fn with_capacity(alloc: Global, nodes: usize, heads: usize) -> Result<Chains, AllocError>
        requires { nodes + heads < 2 ^ 32 }
        ensures heads { IfOk result (λ c. c.heads ≡ heads) }
        ensures nodes { IfOk result (λ c. length c.home ≡ nodes) }
        ensures loose { IfOk result (λ c. (x : ℕ) → x < nodes → slice_index c.home x ≡ heads) }
        ensures standing { IfOk result (λ c. IsStanding c) }
    {
        let next = counting(alloc, nodes + heads)?;
        let prev = counting(alloc, nodes + heads)?;
        let home = vec![in alloc; heads as u32; nodes]?;
        Ok(Chains {
            next,
            prev,
            home,
            heads,
        })
    }

    /// Where a chain's walk begins.
    pub fn first(&self, h: usize) -> usize
        requires { h < self.now.heads }
        ensures value { rest self.now result ≡ chain self.now h }
        ensures small { result < 2 ^ 32 }
        ensures standing { IsStanding self.now }
    {
        self.next[self.home.len() + h] as usize
    }

    /// Where a walk goes on from a node, or None where it is at its end.
    pub fn after(&self, a: usize) -> Option<usize>
        ensures next { MatchOption result (rest self.now a ≡ []) (λ b. rest self.now a ≡ a ∷ rest self.now b) }
        ensures small { IfSome result (λ b. b < 2 ^ 32) }
    {
        if a < self.home.len() && (self.home[a] as usize) < self.heads {
            Some(self.next[a] as usize)
        } else {
            None
        }
    }

    // Takes a node out of its chain.
    fn detach(&mut self, x: usize)
        requires { x < length self.old.home }
        ensures home { self.new.home ≡ slice_set self.old.home x self.old.heads }
        ensures heads { self.new.heads ≡ self.old.heads }
        ensures loose { slice_index self.new.next x ≡ x }
        ensures standing { IsStanding self.new }
    {
        let before = self.prev[x] as usize;
        trade(&mut self.next, &mut self.prev, before, x);
        self.home[x] = self.heads as u32;
    }

    // Puts a node that stands in no chain at the front of one.
    fn attach(&mut self, x: usize, h: usize)
        requires x_in { x < length self.old.home }
        requires h_in { h < self.old.heads }
        requires loose { slice_index self.old.next x ≡ x }
        requires free { slice_index self.old.home x ≡ self.old.heads }
        ensures home { self.new.home ≡ slice_set self.old.home x h }
        ensures heads { self.new.heads ≡ self.old.heads }
        ensures standing { IsStanding self.new }
    {
        let head = self.home.len() + h;
        trade(&mut self.next, &mut self.prev, head, x);
        self.home[x] = h as u32;
    }

    /// Takes a node out of its chain and puts it at the front of one.
    pub fn move_to(&mut self, x: usize, h: usize)
        requires x_in { x < length self.old.home }
        requires h_in { h < self.old.heads }
        ensures home { self.new.home ≡ slice_set self.old.home x h }
        ensures heads { self.new.heads ≡ self.old.heads }
        ensures standing { IsStanding self.new }
    {
        self.detach(x);
        self.attach(x, h);
    }
}
