//! The book of a history: one word that threads share, its length, with the rule that the word keeps.
ghost use Rattle.std.specs.Prelude.{◌≡◌, []};
ghost use Rattle.history_log.specs.Books.{head_of};

use crate::front::{Front, Trail};
use crate::happening::Happened;
use logbook::{Gain, Play, Rule, Seen, Start, Word};
use std::marker::{Brand, PhantomData};

/// The rule of the book.
pub struct Law;

impl Rule<Happened, u64> for Law {
    ghost use Rattle.std.specs.Prelude.{[]};
    ghost use base.Fml.{ftrue};
    ghost use Rattle.history_log.specs.Books.{IsBook};

    ghost holds = { λ cells log. IsBook cells log };

    ghost first = { [] };

    ghost hinted = { λ n log. Unit {0} };

    ghost shows = { λ log. [] };

    ghost keeps = { λ names log. ftrue };

    ghost moves = { λ ask before after answer. Unit {0} };
}

/// Callers trade nothing.
pub struct Nothing;

impl Gain<Happened, u64> for Nothing {
    ghost use base.Fml.{ftrue};

    ghost after = { λ names about answer. ftrue };
}

/// A step that adds an event.
pub struct Add;

impl Play<Happened, u64> for Add {
    ghost use Rattle.history_log.specs.Books.{Adds};

    ghost then = { Adds };
}

/// Which opening it is: its book, and what the directory begins with. Each call of a program picks it.
pub trait Naming {
    ghost use Rattle.logbook.specs.Pages.{Book};
    ghost use Rattle.directory_questions.specs.Calls.{Opening};

    ghost book: { Book };

    ghost opening: { Opening };
}

impl Naming for Brand {
    ghost use Rattle.std.specs.Prelude.{[]};
    ghost use Rattle.std.specs.FinMap as fin;
    ghost use Rattle.access_rules.specs.Deciding.{no_rules};

    ghost book = { record { number = 0; log_name = 0; cells_name = 0 } };

    ghost opening = { record { rules = no_rules; site = record { scopes = []; capacity = 0; templates = fin.empty; boot = 0 } } };
}

/// The first phase of an opening: a book with an empty history, which has no name yet.
#[derive(Drop)]
pub struct Opened {
    head: Word<Happened, u64, Law>,
    pub seen: Seen<Happened, u64, Law>,
    pub ghost empty: { seen.log ≡ [] },
    pub ghost head_is: { head ≡ head_of seen.book },
}

impl Opened {
    /// Takes no memory.
    pub fn new() -> Opened {
        let (seen, mut first, _second) = Seen::open(Start::alone(), 0, 0);
        Opened {
            head: Word::tracked(0, &mut first),
            seen,
        }
    }

    /// The book under a name, and the front that has seen nothing.
    pub fn named<J: Naming>(self) -> (Book<J>, Front<J>)
        requires { self.seen.book ≡ J.book }
        ensures { result.1 ≡ [] }
    {
        let Opened { head, seen } = self;
        (
            Book {
                head,
                of: PhantomData,
            },
            Trail::beginning(seen).named::<J>(),
        )
    }
}

/// The word that says how long the history is.
#[derive(Drop)]
pub struct Book<J: Naming> {
    pub(crate) head: Word<Happened, u64, Law>,
    of: PhantomData<J>,
    ghost head_is: { head ≡ head_of J.book },
}
