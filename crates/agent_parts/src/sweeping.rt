//! What sweeps beside the loops.
ghost use Rattle.std.specs.Prelude.{◌≡◌, ℕ};
ghost use Rattle.expiry_sweep.specs.Schedules.{timing_after};

use crate::threads::Task;
use agent_watch::{Watch, sweep_on};
use expiry_sweep::{Schedule, Sweeper};
use published_view::{DirectoryWriter, Gate, Naming};
use slp_sockets::{LoopFault, Moments, WallClock};
use std::sync::atomic::{AtomicBool, Ordering};
use std::sync::{Mutex, Wait};
use std::thread;
use std::time::{Clock, Duration};

/// How many milliseconds a sweep or a reload leaves to loops that are inside, at most.
const PATIENCE: u32 = 1_000;

/// Naps while a change would wait for a loop that is inside, so that it waits without the writer's lock. Takes no memory.
pub(crate) fn wait_for_loops<R: Wait + Clock, G: Gate>(rt: &R, gate: &G) {
    for _ in 0..PATIENCE {
        if !gate.is_waited_for() {
            return;
        }
        thread::sleep(rt, Duration::from_millis(1));
    }
}

/// Turns a sweeper once a second.
#[derive(Drop)]
pub struct Sweeping<'r, 's, J: Naming, R: Wait + Clock, G: Gate> {
    rt: &'r R,
    writer: &'s Mutex<DirectoryWriter<J, &'r R>>,
    gate: &'s G,
    clock: WallClock<'r, R>,
    /// When it sweeps, and when it did last.
    pub sweeper: Sweeper,
}

impl<'r, 's, J: Naming, R: Wait + Clock, G: Gate> Sweeping<'r, 's, J, R, G> {
    /// Sweeps first when so many seconds have passed.
    pub fn new(
        rt: &'r R,
        writer: &'s Mutex<DirectoryWriter<J, &'r R>>,
        gate: &'s G,
        interval: u32,
    ) -> Sweeping<'r, 's, J, R, G>
        ensures { (moment : ℕ) × (result.sweeper ≡ record { interval = interval; last = moment }) }
    {
        let mut clock = WallClock::new(rt);
        let schedule = Schedule::new(interval, clock.now());
        Sweeping {
            rt,
            writer,
            gate,
            clock,
            sweeper: Sweeper::new(schedule),
        }
    }

    // Sweeps where it is due. A sweep that is refused is left out: the next one drops the same and more.
    fn sweep(&mut self)
        ensures { self.new.sweeper ≡ timing_after self.old.sweeper self.new.clock }
    {
        let now = self.clock.now();
        if !self.sweeper.is_due(now) {
            return;
        }
        wait_for_loops(self.rt, self.gate);
        self.gate.changing();
        let _ = self.sweeper.turn(self.rt, now, self.writer);
        self.gate.changed();
    }
}

impl<'r, 's, J: Naming, R: Wait + Clock, G: Gate> Watch for Sweeping<'r, 's, J, R, G> {
    ghost use Rattle.agent_parts.specs.Turns.{Moves};

    // Nothing is said of the flag, of how long a nap lasts, or of what lies under the lock.
    ghost may = { λ before deed after. Moves deed before.sweeper after.sweeper after.clock };

    fn is_over(&mut self, stop: &AtomicBool) -> bool {
        stop.load(Ordering::SeqCst)
    }

    fn nap(&mut self, millis: u64) {
        thread::sleep(self.rt, Duration::from_millis(millis));
    }

    fn turn(&mut self) {
        self.sweep();
    }
}

impl<'r, 's, J: Naming, R: Wait + Clock, G: Gate> Task for Sweeping<'r, 's, J, R, G> {
    fn run(&mut self, stop: &AtomicBool) -> Result<(), LoopFault> {
        sweep_on(self.rt, self, stop);
        Ok(())
    }
}
