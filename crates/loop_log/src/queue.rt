//! Lines on their way to the thread that writes them.
ghost use Rattle.std.specs.Prelude.{◌≡◌, ◌+◌, ◌≤◌, ◌↔◌, ◌++◌, [], length, slice_get, slice_set, Some, IsTrue, IsFalse, IfOk};
ghost use Rattle.loop_log.specs.Queues.{most_waiting, share_of, HasNone, IsOpen};

use crate::log::{Log, SharedOutput, write_out};
use std::alloc::{AllocError, Global};
use std::io::Write;
use std::marker::Model;
use std::sync::{Condvar, Mutex, Wait};
use std::thread;
use std::time::{Clock, Duration};

/// More bytes of one place do not wait.
const MOST_WAITING: usize = 65_536;

/// For how many milliseconds lines are gathered before they are written: so there is one write for many.
const GATHERING: u64 = 1;

/// The lines that wait, and how many bytes of them each place has. Contracts see both.
#[derive(Drop)]
struct Handed {
    lines: Vec<u8>,
    shares: Vec<usize>,
    is_ended: bool,
}

impl Model for Handed {
    ghost use Rattle.loop_log.specs.Queues.{Waiting};

    ghost Value = { Waiting };

    ghost view = { λ h. record { lines = h.lines.items; shares = h.shares.items } };
}

impl Handed {
    fn new(alloc: Global, places: usize) -> Result<Handed, AllocError>
        ensures lines { IfOk result (λ h. h.lines ≡ []) }
        ensures none { IfOk result HasNone }
    {
        let mut shares = Vec::with_capacity(alloc, places)?;
        for _ in 0..places {
            shares.push(0)?;
        }
        Ok(Handed {
            lines: Vec::with_capacity(alloc, room_for(places))?,
            shares,
            is_ended: false,
        })
    }

    // How many bytes of a place wait.
    fn share(&self, place: usize) -> usize
        ensures { result ≡ share_of self.now place }
    {
        match self.shares.get(place) {
            Some(share) => *share,
            None => 0,
        }
    }

    // Whether so many bytes of a place may wait as well, or nothing of it waits.
    fn is_open(&self, place: usize, count: usize) -> bool
        ensures { IsTrue result ↔ IsOpen self.now place count }
    {
        let share = self.share(place);
        share == 0 || (share <= MOST_WAITING && count <= MOST_WAITING - share)
    }

    // Adds lines of a place behind those that wait, where there is room and memory for them, and answers whether it did.
    fn add(&mut self, place: usize, lines: &[u8]) -> bool
        ensures added { IsTrue result → self.new.lines ≡ self.old.lines ++ lines.now }
        ensures share { IsTrue result → slice_get self.new.shares place ≡ Some (share_of self.old place + length lines.now) }
        ensures others { IsTrue result → self.new.shares ≡ slice_set self.old.shares place (share_of self.old place + length lines.now) }
        ensures within { IsTrue result → share_of self.old place + length lines.now ≤ most_waiting }
        ensures kept { IsFalse result → self.new ≡ self.old }
    {
        if place >= self.shares.len() {
            return false;
        }
        let share = self.share(place);
        let Some(room) = MOST_WAITING.checked_sub(share) else {
            return false;
        };
        if lines.len() > room {
            return false;
        }
        if self.lines.extend_from_slice(lines).is_err() {
            return false;
        }
        self.shares.as_mut_slice()[place] = share + lines.len();
        true
    }

    // Takes all out, into a buffer in which nothing is.
    fn take(&mut self, into: &mut Vec<u8>)
        requires { into.old.items ≡ [] }
        ensures taken { into.new.items ≡ self.old.lines }
        ensures lines { self.new.lines ≡ [] }
        ensures none { HasNone self.new }
    {
        std::mem::swap(&mut self.lines, into);
        for share in self.shares.iter_mut() {
            *share = 0;
        }
    }
}

// The bytes that may wait at so many places.
fn room_for(places: usize) -> usize {
    places.saturating_mul(MOST_WAITING)
}

/// Where threads leave lines for the one that writes them. Each has a place, of which at most 65,536 bytes wait: so who writes little does not wait
/// for a log that reads slowly, whatever others write.
#[derive(Drop)]
pub struct Queue {
    handed: Mutex<Handed>,
    // Lines came, or the end.
    came: Condvar,
    // Lines were taken out.
    went: Condvar,
}

impl Queue {
    /// A queue of so many places. All its memory is taken here. At a place that it does not have no line waits.
    pub fn new(alloc: Global, places: usize) -> Result<Queue, AllocError> {
        Ok(Queue {
            handed: Mutex::new(Handed::new(alloc, places)?),
            came: Condvar::new(),
            went: Condvar::new(),
        })
    }

    // How many places there are.
    fn places<R: Wait>(&self, rt: &R) -> usize {
        let handed = self.handed.lock(rt);
        handed.shares.len()
    }

    // Has lines of a place wait once there is room for them, and answers whether they do. Where there is never, no line of the place waits any more.
    fn hand<R: Wait>(&self, rt: &R, place: usize, lines: &[u8]) -> bool {
        let handed = self.handed.lock(rt);
        let mut handed = self
            .went
            .wait_while(rt, handed, |h| !h.is_open(place, lines.len()));
        if handed.add(place, lines) {
            drop(handed);
            self.came.notify_one();
            return true;
        }
        let handed = self.went.wait_while(rt, handed, |h| h.share(place) != 0);
        drop(handed);
        false
    }

    // Waits until lines wait, or the end, and answers whether lines do.
    fn is_filled<R: Wait>(&self, rt: &R) -> bool {
        let handed = self.handed.lock(rt);
        let handed = self
            .came
            .wait_while(rt, handed, |h| h.lines.is_empty() && !h.is_ended);
        !handed.lines.is_empty()
    }

    // Takes all lines out, into a buffer in which nothing is.
    fn take<R: Wait>(&self, rt: &R, into: &mut Vec<u8>)
        requires { into.old.items ≡ [] }
    {
        let mut handed = self.handed.lock(rt);
        handed.take(into);
        drop(handed);
        self.went.notify_all();
    }

    /// No more lines come: who writes them ends once all are out.
    pub fn end<R: Wait>(&self, rt: &R) {
        let mut handed = self.handed.lock(rt);
        handed.is_ended = true;
        drop(handed);
        self.came.notify_one();
    }
}

/// Writes the lines of a queue.
pub struct LineWriter<'r, 's, R: Wait + Clock, W: Write> {
    rt: &'r R,
    queue: &'s Queue,
    output: &'s Mutex<W>,
    // Empty between two turns. Its memory goes round with that of the queue.
    lines: Vec<u8>,
}

impl<'r, 's, R: Wait + Clock, W: Write> Drop for LineWriter<'r, 's, R, W> {
    fn drop(self) {
        let LineWriter {
            rt: _,
            queue: _,
            output: _,
            lines: _,
        } = self;
    }
}

impl<'r, 's, R: Wait + Clock, W: Write> LineWriter<'r, 's, R, W> {
    /// What writes the lines of a queue to an output. Its memory is taken here, as much as that of the queue.
    pub fn new(
        rt: &'r R,
        alloc: Global,
        queue: &'s Queue,
        output: &'s Mutex<W>,
    ) -> Result<LineWriter<'r, 's, R, W>, AllocError> {
        let places = queue.places(rt);
        Ok(LineWriter {
            rt,
            queue,
            output,
            lines: Vec::with_capacity(alloc, room_for(places))?,
        })
    }

    // Writes what waits. What is taken out is written before the output is free again: so who has it then comes behind. A failing write is ignored.
    fn write(&mut self) {
        let mut output = self.output.lock(self.rt);
        self.lines.clear();
        self.queue.take(self.rt, &mut self.lines);
        let _ = write_out(&mut *output, self.lines.as_slice());
    }

    /// Writes until the end, and all that waits then.
    pub fn run(&mut self) {
        for _ in self.rt.forever() {
            if !self.queue.is_filled(self.rt) {
                return;
            }
            self.write();
            thread::sleep(self.rt, Duration::from_millis(GATHERING));
        }
    }
}

/// The log of one place of a queue: what is written to it waits for the thread that writes. What can't wait there, since it is too long or there is no memory,
/// is written at once, behind all of the place.
#[derive(Drop)]
pub struct QueuedOutput<'r, 's, R: Wait, W: Write> {
    pub queue: &'s Queue,
    pub place: usize,
    pub output: SharedOutput<'r, 's, R, W>,
}

impl<'r, 's, R: Wait, W: Write> Log for QueuedOutput<'r, 's, R, W> {
    ghost use Rattle.std.specs.Prelude.{⊤};

    // No clause follows what lies under a lock.
    ghost writes = { λ before lines after. ⊤ };

    fn write(&mut self, lines: &[u8]) {
        if !self.queue.hand(self.output.rt, self.place, lines) {
            self.output.write(lines);
        }
    }
}
