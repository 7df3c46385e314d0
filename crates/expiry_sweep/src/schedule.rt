use std::marker::Model;

/// Moments that are an interval apart, in seconds, or more where nobody asks for so long. Contracts see the interval and the last
/// moment that was due.
#[derive(Drop)]
pub struct Schedule {
    interval: u32,
    last: u32,
}

impl Model for Schedule {
    ghost use Rattle.expiry_sweep.specs.Schedules.{Timing, timing_code};

    ghost Value = { Timing };

    ghost coded = { timing_code };

    ghost view = { λ s. record { interval = s.interval; last = s.last } };
}

impl Schedule {
    ghost use Rattle.std.specs.Prelude.{◌≡◌};
    ghost use Rattle.expiry_sweep.specs.Schedules.{is_due, timing_after};

    /// The first moment that is due is an interval after `now`. Takes no memory.
    pub fn new(interval: u32, now: u32) -> Schedule
        ensures { result ≡ record { interval = interval; last = now } }
    {
        Schedule {
            interval,
            last: now,
        }
    }

    /// Whether the interval has passed since the last moment that was due.
    pub fn is_due(&self, now: u32) -> bool
        ensures { result ≡ is_due self.now now }
    {
        u64::from(self.last) + u64::from(self.interval) <= u64::from(now)
    }

    /// The same; from then on the last moment that was due is this one. Takes no memory.
    pub fn next(&mut self, now: u32) -> bool
        ensures due { result ≡ is_due self.old now }
        ensures kept { self.new ≡ timing_after self.old now }
    {
        let is_due = self.is_due(now);
        if is_due {
            self.last = now;
        }
        is_due
    }
}
