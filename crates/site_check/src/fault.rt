ghost use Rattle.std.specs.Prelude.{◌≡◌};
ghost use Rattle.site_check.specs.declared.fault.CheckFault.TheVariants as fault;

use slp_text::NoMemory;
use std::io;

/// Why a check does not come to its end.
#[derive(Clone, Copy, Debug, PartialEq, Eq)]
pub(crate) enum CheckFault {
    /// What was found cannot be written.
    Output,
    NoMemory,
}

impl From<io::Error> for CheckFault {
    ghost from_gives = { λ _ e. e ≡ fault.Output };

    fn from(_e: io::Error) -> CheckFault {
        CheckFault::Output
    }
}

impl From<NoMemory> for CheckFault {
    ghost from_gives = { λ _ e. e ≡ fault.NoMemory };

    fn from(_e: NoMemory) -> CheckFault {
        CheckFault::NoMemory
    }
}
