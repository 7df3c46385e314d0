//! Where the lines of served messages go.
ghost use Rattle.std.specs.Prelude.{◌≡◌, [], ◌++◌, IsTrue, IsFalse, OnOk};
ghost use Rattle.std.specs.Io.KnownBytes.{Appends};
ghost use Rattle.loop_log.specs.Logging.{IsOut, Lined};

use std::alloc::Global;
use std::io::{self, Write};
use std::marker::Model;
use std::sync::{Mutex, Wait};

/// More bytes of lines do not wait.
const MOST_WAITING: usize = 65_536;

/// Takes lines. Each implementation says by `writes` what one call may do.
pub trait Log {
    ghost use Rattle.loop_log.specs.Logging.{Logs};

    // Holds of the log before, the bytes of a call, and the log after.
    ghost writes: { Logs Self };

    /// Writes whole lines, with none of another between them, and has them out. A failing write is ignored: what is answered does
    /// not depend on who reads the lines.
    fn write(&mut self, lines: &[u8])
        ensures { writes self.old lines.now self.new };
}

/// An output that threads share.
#[derive(Drop)]
pub struct SharedOutput<'r, 's, R: Wait, W: Write> {
    pub rt: &'r R,
    pub output: &'s Mutex<W>,
}

/// Writes bytes, and has them out.
pub(crate) fn write_out<W: Write>(output: &mut W, lines: &[u8]) -> io::Result<()>
    ensures { OnOk result (Appends (W.contents output.old) (W.contents output.new) lines.now) }
{
    output.write_all(lines)?;
    output.flush()
}

impl<'r, 's, R: Wait, W: Write> Log for SharedOutput<'r, 's, R, W> {
    ghost use Rattle.std.specs.Prelude.{⊤};

    // No clause follows what lies under a lock.
    ghost writes = { λ before lines after. ⊤ };

    fn write(&mut self, lines: &[u8]) {
        let mut output = self.output.lock(self.rt);
        let _ = write_out(&mut *output, lines);
    }
}

/// Lines that wait for their log, at most 65,536 bytes of them. Contracts see the bytes and the log.
pub struct Lines<L: Log + Drop> {
    waiting: Vec<u8>,
    log: L,
}

impl<L: Log + Drop> Drop for Lines<L> {
    fn drop(self) {
        let Lines { waiting: _, log: _ } = self;
    }
}

impl<L: Log + Drop> Model for Lines<L> {
    ghost use Rattle.std.specs.Prelude.{◌≤◌, length};
    ghost use Rattle.loop_log.specs.Logging.{Logging};

    ghost Value = { Logging L };

    ghost view = { λ l. record { waiting = l.waiting.items; log = l.log } };

    ghost invariant = { λ l. length l.waiting.items ≤ 65536 };
}

impl<L: Log + Drop> Lines<L> {
    /// None waits. Takes no memory.
    pub fn new(alloc: Global, log: L) -> Lines<L>
        ensures { result ≡ record { waiting = []; log = log } }
    {
        Lines {
            waiting: Vec::new(alloc),
            log,
        }
    }

    // Adds a line, where there is room and memory for it, and answers whether it did.
    fn add(&mut self, line: &[u8]) -> bool
        ensures added { IsTrue result → (self.new.waiting ≡ self.old.waiting ++ line.now) × (self.new.log ≡ self.old.log) }
        ensures kept { IsFalse result → self.new ≡ self.old }
    {
        let room = MOST_WAITING - self.waiting.len();
        line.len() <= room && self.waiting.extend_from_slice(line).is_ok()
    }

    /// Has a line wait behind those that do. Where they are too many then, or there is no memory for it, all are handed over.
    pub fn push(&mut self, line: &[u8])
        ensures { Lined L.writes self.old line.now self.new }
    {
        if !self.add(line) {
            self.settle();
            self.write(line);
        }
    }

    // Writes a line, whatever waits.
    fn write(&mut self, line: &[u8])
        ensures waiting { self.new.waiting ≡ self.old.waiting }
        ensures written { L.writes self.old.log line.now self.new.log }
    {
        self.log.write(line);
    }

    /// Hands over what waits.
    pub fn settle(&mut self)
        ensures { IsOut L.writes self.old self.new }
    {
        if self.waiting.is_empty() {
            return;
        }
        self.log.write(self.waiting.as_slice());
        self.waiting.clear();
    }
}
