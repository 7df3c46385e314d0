//! When the flag is looked at, and when the sweeper is turned.
ghost use Rattle.std.specs.Prelude.{List};
ghost use Rattle.agent_watch.specs.Watching.{Deed, Does, Looked, Napped, Sleeps, Sweeps, Turned};

use std::sync::Wait;
use std::sync::atomic::AtomicBool;

/// How long one nap lasts, in milliseconds, and how many there are between two turns: a second.
const NAP: u64 = 200;

const NAPS: usize = 5;

/// What is done second after second. Each implementation says by `may` what one call may do.
pub trait Watch {
    ghost use Rattle.agent_watch.specs.Watching.{Deeds};

    // Holds of the state before, what is done, and the state after.
    ghost may: { Deeds Self };

    /// Looks at the flag: whether all is to end.
    fn is_over(&mut self, stop: &AtomicBool) -> bool
        ensures { may self.old (Looked result) self.new };

    /// Sleeps for so many milliseconds.
    fn nap(&mut self, millis: u64)
        ensures { may self.old (Napped millis) self.new };

    /// Turns the sweeper at the moment that it is.
    fn turn(&mut self)
        ensures { may self.old Turned self.new };
}

// Sleeps for a second, or until all is to end. Answers whether it is not.
fn sleep<W: Watch>(watch: &mut W, stop: &AtomicBool) -> bool
    ensures { (ds : List Deed) × Does W.may watch.old ds watch.new × Sleeps 5 result ds }
{
    for _ in 0..NAPS {
        if watch.is_over(stop) {
            return false;
        }
        watch.nap(NAP);
    }
    true
}

/// Turns a sweeper each second, until all is to end.
pub fn sweep_on<R: Wait, W: Watch>(rt: &R, watch: &mut W, stop: &AtomicBool)
    ensures { (ds : List Deed) × Does W.may watch.old ds watch.new × Sweeps ds }
{
    for _ in rt.forever() {
        if !sleep(watch, stop) {
            return;
        }
        watch.turn();
    }
    unreachable!()
}
