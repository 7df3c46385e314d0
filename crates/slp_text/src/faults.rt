ghost use Rattle.std.specs.Prelude.{◌≡◌};
ghost use Rattle.slp_text.specs.declared.faults.TextFault.TheVariants as fault;

use std::alloc::{AllocError, AllocFailed};
use thiserror::Error;

/// A growth that was refused.
#[derive(Clone, Copy, Debug, PartialEq, Eq, Error)]
#[error("out of memory")]
pub struct NoMemory;

impl From<AllocError> for NoMemory {
    fn from(_e: AllocError) -> NoMemory {
        NoMemory
    }
}

impl<T: Drop> From<AllocFailed<T>> for NoMemory {
    fn from(_e: AllocFailed<T>) -> NoMemory {
        NoMemory
    }
}

/// Why a text is not read: the first fault from the left (RFC 2608, section 5 and 6.4).
#[derive(Clone, Copy, Debug, PartialEq, Eq, Error)]
pub enum TextFault {
    /// A backslash without two hexadecimal digits, or one of a character that has no escape.
    #[error("a bad escape")]
    BadEscape = 1,
    /// A reserved character that is not escaped.
    #[error("a reserved character")]
    Reserved = 2,
    /// Bytes that are not UTF-8.
    #[error("not UTF-8")]
    NotUtf8 = 3,
    #[error("out of memory")]
    NoMemory = 4,
}

impl From<AllocError> for TextFault {
    ghost from_gives = { λ _ e. e ≡ fault.NoMemory };

    fn from(_e: AllocError) -> TextFault {
        TextFault::NoMemory
    }
}

impl<T: Drop> From<AllocFailed<T>> for TextFault {
    ghost from_gives = { λ _ e. e ≡ fault.NoMemory };

    fn from(_e: AllocFailed<T>) -> TextFault {
        TextFault::NoMemory
    }
}

impl From<NoMemory> for TextFault {
    ghost from_gives = { λ _ e. e ≡ fault.NoMemory };

    fn from(_e: NoMemory) -> TextFault {
        TextFault::NoMemory
    }
}
