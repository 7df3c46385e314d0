//! Beginnings of a history.
ghost use Rattle.std.specs.Prelude.{◌≡◌, ◌<◌, ◌≤◌, ◌^◌, ◌∷◌, ◌↔◌, [], length, IsTrue, IfSome};
ghost use Rattle.history_log.specs.Events.{history_in};
ghost use Rattle.history_log.specs.Pasts.{IsPast};

use crate::book::{Add, Book, Law, Naming, Nothing};
use crate::happening::{Happened, Happening, Names};
use logbook::{Offer, Seen};
use std::marker::{Model, PhantomData};

/// The longest history.
const MOST: u64 = 1 << 61;

/// A beginning of the history that some book has, the oldest event first.
#[derive(Drop)]
pub struct Trail {
    count: u64,
    pub seen: Seen<Happened, u64, Law>,
    ghost counted: { count ≡ length seen.log },
}

impl Trail {
    /// Nothing of it.
    pub(crate) fn beginning(seen: Seen<Happened, u64, Law>) -> Trail
        requires { seen.log ≡ [] }
        ensures { result.seen ≡ seen }
    {
        Trail { count: 0, seen }
    }

    /// A copy.
    pub fn again(&self) -> Trail
        ensures { result ≡ self.now }
    {
        Trail {
            count: self.count,
            seen: self.seen.again(),
        }
    }

    /// Adds an event to the whole history of a book. `None` where that is longer than this, or at its longest.
    pub fn longer<J: Naming, E: Happening>(&self, book: &Book<J>) -> Option<Trail>
        requires { self.now.seen.book ≡ J.book }
        ensures log { IfSome result (λ t. history_in t.seen.log ≡ E.event ∷ history_in self.now.seen.log) }
        ensures book { IfSome result (λ t. t.seen.book ≡ J.book) }
    {
        let front = self.named::<J>();
        if front.len() >= MOST {
            return None;
        }
        let longer = front.add::<E>(book)?;
        Some(longer.trail())
    }

    /// The same under a name.
    pub fn named<J: Naming>(&self) -> Front<J>
        requires { self.now.seen.book ≡ J.book }
        ensures { result ≡ history_in self.now.seen.log }
    {
        Front {
            trail: self.again(),
            of: PhantomData,
        }
    }
}

/// A beginning of the history of a book. Contracts see it as a history, the newest event first.
#[derive(Drop)]
pub struct Front<J: Naming> {
    trail: Trail,
    of: PhantomData<J>,
}

impl<J: Naming> Model for Front<J> {
    ghost use Rattle.std.specs.Prelude.{◌≡◌};
    ghost use Rattle.std.specs.Coded.{coded_list};
    ghost use Rattle.directory_judge.specs.History.{History};
    ghost use Rattle.history_log.specs.Events.{event_code, history_in};

    ghost Value = { History };

    ghost coded = { coded_list event_code };

    ghost view = { λ f. history_in f.trail.seen.log };

    ghost invariant = { λ f. f.trail.seen.book ≡ J.book };
}

impl<J: Naming> Front<J> {
    /// How many events it has.
    pub fn len(&self) -> u64
        ensures { result ≡ length self.now }
    {
        self.trail.count
    }

    /// A copy.
    pub fn again(&self) -> Front<J>
        ensures { result ≡ self.now }
    {
        Front {
            trail: self.trail.again(),
            of: PhantomData,
        }
    }

    /// The same without its name.
    pub fn trail(&self) -> Trail
        ensures log { history_in result.seen.log ≡ self.now }
        ensures book { result.seen.book ≡ J.book }
    {
        self.trail.again()
    }

    /// Whether it is no longer than the other, which then goes on from it.
    pub fn begins(&self, other: &Front<J>) -> bool
        ensures length { IsTrue result ↔ (length self.now ≤ length other.now) }
        ensures past { IsTrue result → IsPast self.now other.now }
    {
        let mut both = self.trail.seen.again();
        both.learn(&other.trail.seen);
        if self.trail.count <= other.trail.count {
            return true;
        }
        false
    }

    /// Adds an event to the whole history. `None` where that is longer than this.
    pub fn add<E: Happening>(&self, book: &Book<J>) -> Option<Front<J>>
        requires room { length self.now < 2 ^ 62 }
        ensures { IfSome result (λ f. f ≡ E.event ∷ self.now) }
    {
        let mut seen = self.trail.seen.again();
        let mut offer: Offer<Happened, u64, Law, Nothing> = seen.plain::<Nothing, (), Names<E>>(
            &(),
        );
        let mut pen = seen.no_pen();
        let count = self.trail.count;
        let found = book
            .head
            .compare_exchange::<Add, Nothing>(count, count + 1, &mut seen, &mut offer, &mut pen);
        if found != count {
            return None;
        }
        Some(Front {
            trail: Trail {
                count: count + 1,
                seen,
            },
            of: PhantomData,
        })
    }
}
