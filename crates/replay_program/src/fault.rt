ghost use Rattle.std.specs.Prelude.{◌≡◌};
ghost use Rattle.replay_program.specs.declared.fault.RunFault.TheVariants as fault;

use slp_text::NoMemory;
use thiserror::Error;

/// Why a run ended before its script did.
#[derive(Clone, Copy, Debug, PartialEq, Eq, Error)]
pub enum RunFault {
    /// The reader failed, or was read 1,000,000,000 times.
    #[error("the reader failed")]
    Read,
    #[error("the writer failed")]
    Write,
    /// The first line, counted from 1, that is not a line of a script or names a loop that is not
    /// listened on.
    #[error("line {0}")]
    Line(u64),
    #[error("out of memory")]
    NoMemory,
}

impl From<NoMemory> for RunFault {
    ghost from_gives = { λ _ e. e ≡ fault.NoMemory };

    fn from(_e: NoMemory) -> RunFault {
        RunFault::NoMemory
    }
}
