use crate::schedule::Schedule;
use published_view::{DirectoryWriter, Naming, ViewFault};
use std::marker::Model;
use std::sync::{Mutex, Wait};

/// Sweeps a directory whose writer is shared by threads, by a schedule. Contracts see the schedule.
#[derive(Drop)]
pub struct Sweeper {
    schedule: Schedule,
}

impl Model for Sweeper {
    ghost use Rattle.expiry_sweep.specs.Schedules.{Timing, timing_code};

    ghost Value = { Timing };

    ghost coded = { timing_code };

    ghost view = { λ s. s.schedule };
}

impl Sweeper {
    ghost use Rattle.std.specs.Prelude.{◌≡◌, ◌⊎◌, true, IfOk, IfErr, OnErr};
    ghost use Rattle.expiry_sweep.specs.Schedules.{is_due, timing_after};

    /// Takes no memory.
    pub fn new(schedule: Schedule) -> Sweeper
        ensures { result ≡ schedule }
    {
        Sweeper { schedule }
    }

    /// Whether a sweep is due at a moment, in seconds.
    pub fn is_due(&self, now: u32) -> bool
        ensures { result ≡ is_due self.now now }
    {
        self.schedule.is_due(now)
    }

    /// Publishes a sweep of a moment, in seconds, where one is due then, and answers whether it did. It waits for the writer's lock, and at
    /// the publish; where nothing is due it waits for nothing. After a refusal the moment counts as swept: the next one is due an
    /// interval later.
    pub fn turn<J: Naming, Q: Wait + Drop, R: Wait>(
        &mut self,
        rt: &R,
        now: u32,
        writer: &Mutex<DirectoryWriter<J, Q>>,
    ) -> Result<bool, ViewFault>
        ensures due { IfOk result (λ swept. swept ≡ is_due self.old now) }
        ensures refused { OnErr result (is_due self.old now ≡ true) }
        ensures kept { self.new ≡ timing_after self.old now }
        ensures faults { IfErr result (λ e. (e ≡ ViewFault.NoMemory) ⊎ (e ≡ ViewFault.Closed)) }
    {
        if !self.schedule.next(now) {
            return Ok(false);
        }
        let mut writer = writer.lock(rt);
        writer.sweep(now)?;
        Ok(true)
    }
}
