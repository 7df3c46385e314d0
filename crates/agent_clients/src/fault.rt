ghost use Rattle.std.specs.Prelude.{◌≡◌};
ghost use Rattle.agent_clients.specs.declared.fault.ClientFault.TheVariants as fault;

use slp_text::NoMemory;
use std::alloc::{AllocError, AllocFailed};
use thiserror::Error;

/// Why a client has no answer.
#[derive(Clone, Copy, Debug, PartialEq, Eq, Error)]
pub enum ClientFault {
    /// A socket failed, or a stream ended before the reply.
    #[error("a socket failed")]
    Io,
    /// Within 15 seconds no reply came.
    #[error("no answer came")]
    GaveUp,
    /// The reply has this code (RFC 2608, section 7), which is not 0.
    #[error("the answer is code {0}")]
    Code(u16),
    #[error("out of memory")]
    NoMemory,
    /// A reply on a stream says that it was cut.
    #[error("the answer is cut")]
    Partial,
    /// The message has more than 65,535 bytes, or a language tag that is not readable.
    #[error("the message is too long")]
    TooLong,
}

impl From<AllocError> for ClientFault {
    ghost from_gives = { λ _ e. e ≡ fault.NoMemory };

    fn from(_e: AllocError) -> ClientFault {
        ClientFault::NoMemory
    }
}

impl<T: Drop> From<AllocFailed<T>> for ClientFault {
    ghost from_gives = { λ _ e. e ≡ fault.NoMemory };

    fn from(_e: AllocFailed<T>) -> ClientFault {
        ClientFault::NoMemory
    }
}

impl From<NoMemory> for ClientFault {
    ghost from_gives = { λ _ e. e ≡ fault.NoMemory };

    fn from(_e: NoMemory) -> ClientFault {
        ClientFault::NoMemory
    }
}
