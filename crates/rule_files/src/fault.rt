ghost use Rattle.std.specs.Prelude.{◌≡◌};
ghost use Rattle.rule_files.specs.declared.fault.RuleFault.TheVariants as fault;

use slp_text::NoMemory;
use std::alloc::{AllocError, AllocFailed};
use thiserror::Error;

/// Why a text or a table is not a rule file.
#[derive(Clone, Copy, Debug, PartialEq, Eq, Error)]
pub enum RuleFault {
    /// The number of the first rule that is none, counted from 1, or else of the first hide table that is none, which are
    /// counted on after the rules. It is 0 for the file: its version or one of its keys is another, its rules or
    /// hide tables are no array, or more than 1,024 together, or the text is longer than 1,048,576 bytes, which is asked first.
    #[error("rule or hide table {0} is malformed")]
    Shape(usize),
    /// Two rules or hide tables have one name.
    #[error("duplicate rule name")]
    TwiceName,
    #[error("out of memory")]
    NoMemory,
    /// The text is not TOML.
    #[error("not TOML")]
    Toml,
}

impl From<NoMemory> for RuleFault {
    ghost from_gives = { λ _ e. e ≡ fault.NoMemory };

    fn from(_e: NoMemory) -> RuleFault {
        RuleFault::NoMemory
    }
}

impl From<AllocError> for RuleFault {
    ghost from_gives = { λ _ e. e ≡ fault.NoMemory };

    fn from(_e: AllocError) -> RuleFault {
        RuleFault::NoMemory
    }
}

impl<T: Drop> From<AllocFailed<T>> for RuleFault {
    ghost from_gives = { λ _ e. e ≡ fault.NoMemory };

    fn from(_e: AllocFailed<T>) -> RuleFault {
        RuleFault::NoMemory
    }
}
