//! Two loops of an agent that are inside their entries at once.
use std::sync::atomic::{AtomicBool, AtomicUsize, Ordering};
use std::thread;
use std::time::{Clock, Duration};

/// So often it is looked whether the second loop has answered, or the first may go on.
const TURNS: u64 = 5_000_000_000;

/// How often it is looked whether the first loop is inside, and how long between, in milliseconds.
const LOOKS: u32 = 1_000;

const NAP: u64 = 5;

/// The number of the first loop.
pub(crate) const FIRST: usize = 0;

/// The number of the loop beside the first, where there are two addresses.
pub(crate) const BESIDE: usize = 3;

/// Keeps a loop, the first, inside an entry until the second has answered. It does so once each time it is called.
#[derive(Drop)]
pub struct Meeting {
    first: AtomicUsize,
    is_called: AtomicBool,
    is_first_inside: AtomicBool,
    has_second_answered: AtomicBool,
    were_both_inside: AtomicBool,
}

impl Meeting {
    pub(crate) fn new() -> Meeting {
        Meeting {
            first: AtomicUsize::new(FIRST),
            is_called: AtomicBool::new(false),
            is_first_inside: AtomicBool::new(false),
            has_second_answered: AtomicBool::new(false),
            were_both_inside: AtomicBool::new(false),
        }
    }

    /// The next entry of the loop with this number is held.
    pub(crate) fn call(&self, first: usize) {
        self.first.store(first, Ordering::SeqCst);
        self.is_first_inside.store(false, Ordering::SeqCst);
        self.has_second_answered.store(false, Ordering::SeqCst);
        self.is_called.store(true, Ordering::SeqCst);
    }

    /// The second loop has answered.
    pub(crate) fn end(&self) {
        self.has_second_answered.store(true, Ordering::SeqCst);
    }

    /// Waits until the first loop is inside, for five seconds at most, and answers whether it is.
    pub(crate) fn wait_for_first<R: Clock>(&self, rt: &R) -> bool {
        for _ in 0..LOOKS {
            if self.is_first_inside.load(Ordering::SeqCst) {
                return true;
            }
            thread::sleep(rt, Duration::from_millis(NAP));
        }
        false
    }

    /// Whether the second loop answered while the first was inside.
    pub(crate) fn were_both_inside(&self) -> bool {
        self.were_both_inside.load(Ordering::SeqCst)
    }

    /// Holds the first loop inside an entry, once, where that was called for.
    pub fn hold(&self, place: usize) {
        if place != self.first.load(Ordering::SeqCst)
            || !self.is_called.swap(false, Ordering::SeqCst)
        {
            return;
        }
        self.is_first_inside.store(true, Ordering::SeqCst);
        for _ in 0..TURNS {
            if self.has_second_answered.load(Ordering::SeqCst) {
                self.were_both_inside.store(true, Ordering::SeqCst);
                return;
            }
        }
    }
}
