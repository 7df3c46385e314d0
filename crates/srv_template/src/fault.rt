ghost use Rattle.std.specs.Prelude.{◌≡◌};
ghost use Rattle.srv_template.specs.declared.fault.ParseFault.TheVariants as fault;

use slp_text::NoMemory;
use std::alloc::{AllocError, AllocFailed};
use thiserror::Error;

/// Why a text is not a template, or why a template is not added to others.
#[derive(Clone, Copy, Debug, PartialEq, Eq, Error)]
pub enum ParseFault {
    /// The number of the first line that does not fit, counted from 1. For what is wrong in a
    /// definition it is that of its first line, for a part that is not there that of the line past the
    /// last, and for a text that is too long 1.
    #[error("line {0} is malformed")]
    Line(usize),
    /// The type has a template already.
    #[error("a second template of its type")]
    TwiceType,
    #[error("out of memory")]
    NoMemory,
    /// There are 256 already.
    #[error("more than 256 templates")]
    TooMany,
}

/// What is wrong with what a tag holds, by the first definition with a fault.
#[derive(Clone, Copy, Debug, PartialEq, Eq)]
pub struct TemplateFault {
    /// The number of the definition, counted from 0.
    pub definition: usize,
    pub kind: FaultKind,
}

/// What may be wrong with what a tag holds, in the order in which it is asked.
#[derive(Clone, Copy, Debug, PartialEq, Eq)]
pub enum FaultKind {
    /// A tag that has to be there is not.
    Missing,
    /// A value, or a keyword, where the definition has another kind.
    WrongKind,
    /// More than one value, where one is allowed.
    Count,
    /// A value that is none of the allowed ones.
    Value,
}

impl From<AllocError> for ParseFault {
    ghost from_gives = { λ _ e. e ≡ fault.NoMemory };

    fn from(_e: AllocError) -> ParseFault {
        ParseFault::NoMemory
    }
}

impl<T: Drop> From<AllocFailed<T>> for ParseFault {
    ghost from_gives = { λ _ e. e ≡ fault.NoMemory };

    fn from(_e: AllocFailed<T>) -> ParseFault {
        ParseFault::NoMemory
    }
}

impl From<NoMemory> for ParseFault {
    ghost from_gives = { λ _ e. e ≡ fault.NoMemory };

    fn from(_e: NoMemory) -> ParseFault {
        ParseFault::NoMemory
    }
}
