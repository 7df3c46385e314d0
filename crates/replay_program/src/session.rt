ghost use Rattle.std.specs.Prelude.{◌≡◌, IfOk};

use crate::agent::Agent;
use slp_stream::Framer;
use slp_text::NoMemory;
use std::alloc::Global;

/// The bytes of a reply that is sent as a datagram.
pub const LONGEST_REPLY: usize = 1_400;

/// The bytes of a message that comes on a stream, and of a reply that is sent on it.
pub const LONGEST_ON_STREAM: usize = 65_535;

/// What a run keeps between two lines: what answers messages, and what came of the stream and is not a
/// whole message.
#[derive(Drop)]
pub struct Session {
    pub agent: Agent,
    pub stream: Framer,
    /// Whether it is too late for another site.
    pub late: bool,
}

impl Session {
    ghost use Rattle.replay_program.specs.Opening.{opening_session};

    /// The session with which a run begins.
    pub fn open(alloc: Global) -> Result<Session, NoMemory>
        ensures { IfOk result (λ s. s ≡ opening_session) }
    {
        Ok(Session {
            agent: Agent::open(alloc)?,
            stream: Framer::new(alloc, LONGEST_ON_STREAM),
            late: false,
        })
    }
}
