//! What rows hold of an agent.
use crate::handed::{Asked, Handed};
use crate::meeting::Meeting;
use std::sync::atomic::AtomicU64;

/// Whether it is run by its loops, and not by its words. Where it is run by its words, what it asked for, of which rows have the valve alone. Where it is not, what holds its first loop inside an entry, the seconds since 1970 that its clock tells, or 0 where that is the system's, those of
/// its clock that never goes back, and what it asked for.
#[derive(Drop)]
pub struct Props {
    pub is_by_loops: bool,
    pub by_words: Asked,
    pub meeting: Meeting,
    pub seconds: AtomicU64,
    pub steady: AtomicU64,
    pub asked: Asked,
    system: AtomicU64,
}

impl Props {
    /// Of an agent that is run by its loops, or by its words. Nothing is held; the seconds since 1970 are the system's, and the clock that
    /// never goes back stands at 0.
    pub fn new(is_by_loops: bool) -> Props {
        Props {
            is_by_loops,
            by_words: Asked::new(),
            meeting: Meeting::new(),
            seconds: AtomicU64::new(0),
            steady: AtomicU64::new(0),
            asked: Asked::new(),
            system: AtomicU64::new(0),
        }
    }

    /// A runtime over another one, whose clock is that of these props.
    pub fn handed<'r, R>(&'r self, rt: &'r R) -> Handed<'r, R> {
        Handed {
            rt,
            moment: &self.steady,
            is_running: false,
            seconds: &self.seconds,
            asked: &self.asked,
        }
    }

    /// A runtime that is another one, but that it holds who asks for the seconds since 1970 while the valve is closed.
    pub fn held<'r, R>(&'r self, rt: &'r R) -> Handed<'r, R> {
        Handed {
            rt,
            moment: &self.steady,
            is_running: true,
            seconds: &self.system,
            asked: &self.by_words,
        }
    }
}
