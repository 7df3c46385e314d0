ghost use Rattle.std.specs.Prelude.{◌≡◌};
ghost use Rattle.slp_fields.specs.declared.fault.WireFault.TheVariants as fault;

use slp_text::NoMemory;
use std::alloc::{AllocError, AllocFailed};
use thiserror::Error;

/// Why bytes are not a message, or a message has no bytes: the first fault in this protocol's order.
#[derive(Clone, Copy, Debug, PartialEq, Eq, Error)]
pub enum WireFault {
    /// Fewer than 14 bytes, or a language tag that is longer than 64 bytes, cut short or not printable.
    #[error("no readable header")]
    NoHeader = 1,
    #[error("another version than 2")]
    Version = 2,
    /// A length field, string, count or extension that does not fit, or a string that is not UTF-8.
    #[error("a malformed message")]
    Parse = 3,
    /// An extension that has to be understood, and is not.
    #[error("an extension that is not understood")]
    Option = 4,
    /// An authentication block, or a security parameter index.
    #[error("authentication is not understood")]
    Auth = 5,
    /// A function that is not read.
    #[error("an unknown function")]
    Unknown = 6,
    #[error("out of memory")]
    NoMemory = 7,
    /// `encode` alone: a string or the message has more than 65,535 bytes.
    #[error("longer than 65,535 bytes")]
    TooLong = 8,
}

impl From<AllocError> for WireFault {
    ghost from_gives = { λ _ e. e ≡ fault.NoMemory };

    fn from(_e: AllocError) -> WireFault {
        WireFault::NoMemory
    }
}

impl<T: Drop> From<AllocFailed<T>> for WireFault {
    ghost from_gives = { λ _ e. e ≡ fault.NoMemory };

    fn from(_e: AllocFailed<T>) -> WireFault {
        WireFault::NoMemory
    }
}

impl From<NoMemory> for WireFault {
    ghost from_gives = { λ _ e. e ≡ fault.NoMemory };

    fn from(_e: NoMemory) -> WireFault {
        WireFault::NoMemory
    }
}
