ghost use Rattle.std.specs.Prelude.{◌↔◌, IsTrue};
ghost use Rattle.std_io.specs.IoError.{raw_os_error};
ghost use Rattle.slp_sockets.specs.Sockets.{IsLost, IsWanting};

use libc::{EBADF, EINVAL, ENOMEM, ENOTSOCK};
use std::alloc::AllocError;
use std::io;
use thiserror::Error;

/// That the system has no room in its buffers: Linux's number, which the crate `libc` does not name.
const ENOBUFS: i32 = 105;

/// Why a call of a loop was given up.
#[derive(Clone, Copy, Debug, PartialEq, Eq, Error)]
pub enum LoopFault {
    /// A reader, a writer or a socket failed.
    #[error("a socket failed")]
    Io = 1,
    #[error("out of memory")]
    NoMemory = 2,
}

impl From<AllocError> for LoopFault {
    ghost use Rattle.std.specs.Prelude.{◌≡◌};
    ghost use Rattle.slp_sockets.specs.declared.fault.LoopFault.TheVariants.{NoMemory as Lacking};

    ghost from_gives = { λ _ e. e ≡ Lacking };

    fn from(_e: AllocError) -> LoopFault {
        LoopFault::NoMemory
    }
}

impl From<io::Error> for LoopFault {
    ghost use Rattle.std.specs.Prelude.{◌≡◌};
    ghost use Rattle.slp_sockets.specs.declared.fault.LoopFault.TheVariants.{Io as Failing};

    ghost from_gives = { λ _ e. e ≡ Failing };

    fn from(_e: io::Error) -> LoopFault {
        LoopFault::Io
    }
}

/// Whether a failed call on a socket of a loop tells that the socket itself is of no use any more. All else concerns the one
/// peer that waited, or means that are wanting now, as memory or descriptors.
pub fn is_socket_lost(error: &io::Error) -> bool
    ensures { IsTrue result ↔ IsLost (raw_os_error error.now) }
{
    matches!(error.raw_os_error(), Some(EBADF | EINVAL | ENOTSOCK))
}

/// Whether a failed call tells that the system found no memory for it.
pub fn is_want_of_memory(error: &io::Error) -> bool
    ensures { IsTrue result ↔ IsWanting (raw_os_error error.now) }
{
    matches!(error.raw_os_error(), Some(ENOMEM | ENOBUFS))
}
