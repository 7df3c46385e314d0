use std::marker::Model;
use std::time::{Clock, SystemTime, UNIX_EPOCH};

/// A clock of whole seconds. Each implementation says by `may` which moments one call may answer.
pub trait Moments {
    ghost use Rattle.slp_sockets.specs.Serving.{Ticks};

    // Holds of the clock before, the moment that it answers, and the clock after.
    ghost may: { Ticks Self };

    /// The moment that it is, in seconds.
    fn now(&mut self) -> u32
        ensures { may self.old result self.new };

    /// The microseconds of a clock that never goes back, from some start on; 0 where it can't be read. No clause speaks of it: it may say when
    /// something is done, and never what.
    fn micros(&self) -> u64;
}

// The microseconds of the steady clock, or 0 where it can't be read.
fn steady_micros<R: Clock>(rt: &R) -> u64 {
    match rt.monotonic() {
        Ok(since) => since.as_micros().min(u128::from(u64::MAX)) as u64,
        Err(_) => 0,
    }
}

/// The seconds of a clock that never goes back, from some start on, at most 4,294,967,295. Where it can't be read, it is still the last moment
/// that was told, at first 0. Contracts see the last moment.
#[derive(Drop)]
pub struct SteadyClock<'r, R: Clock> {
    rt: &'r R,
    last: u32,
}

impl<'r, R: Clock> Model for SteadyClock<'r, R> {
    ghost use Rattle.std.specs.Prelude.{ℕ};

    ghost Value = { ℕ };

    ghost view = { λ c. c.last };
}

impl<'r, R: Clock> SteadyClock<'r, R> {
    ghost use Rattle.std.specs.Prelude.{◌≡◌};

    /// A clock that told nothing yet.
    pub fn new(rt: &'r R) -> SteadyClock<'r, R>
        ensures { result ≡ 0 }
    {
        SteadyClock { rt, last: 0 }
    }
}

impl<'r, R: Clock> Moments for SteadyClock<'r, R> {
    ghost use Rattle.std.specs.Prelude.{◌≡◌, ◌≤◌};

    ghost may = { λ before moment after. (after ≡ moment) × (before ≤ moment) };

    fn now(&mut self) -> u32 {
        if let Ok(since) = self.rt.monotonic() {
            let seconds = since.as_secs().min(u64::from(u32::MAX)) as u32;
            self.last = self.last.max(seconds);
        }
        self.last
    }

    fn micros(&self) -> u64 {
        steady_micros(self.rt)
    }
}

/// The seconds since 1970 that the system's clock tells, at most 4,294,967,295. Where it can't be read, it is
/// still the last moment that was told, at first 0. Contracts see the last moment.
#[derive(Drop)]
pub struct WallClock<'r, R: Clock> {
    rt: &'r R,
    last: u32,
}

impl<'r, R: Clock> Model for WallClock<'r, R> {
    ghost use Rattle.std.specs.Prelude.{ℕ};

    ghost Value = { ℕ };

    ghost view = { λ c. c.last };
}

impl<'r, R: Clock> WallClock<'r, R> {
    ghost use Rattle.std.specs.Prelude.{◌≡◌};

    /// A clock that told nothing yet.
    pub fn new(rt: &'r R) -> WallClock<'r, R>
        ensures { result ≡ 0 }
    {
        WallClock { rt, last: 0 }
    }

    // The seconds since 1970, where they can be read.
    fn seconds(&self) -> Option<u32> {
        let now = SystemTime::now(self.rt).ok()?;
        let since = now.duration_since(UNIX_EPOCH).ok()?;
        Some(since.as_secs().min(u64::from(u32::MAX)) as u32)
    }
}

impl<'r, R: Clock> Moments for WallClock<'r, R> {
    ghost use Rattle.std.specs.Prelude.{◌≡◌};

    ghost may = { λ before moment after. after ≡ moment };

    fn now(&mut self) -> u32 {
        if let Some(seconds) = self.seconds() {
            self.last = seconds;
        }
        self.last
    }

    fn micros(&self) -> u64 {
        steady_micros(self.rt)
    }
}
