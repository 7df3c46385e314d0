ghost use Rattle.std.specs.Prelude.{◌≡◌, ◌≤◌, vec_len, IfOk};
ghost use Rattle.slp_sockets.specs.declared.exchange.Back.TheVariants.{Nothing as Nothings};

use slp_replies::Answer;
use std::alloc::{AllocError, Global};
use std::net::{Ipv4Addr, SocketAddr};

/// The bytes that one datagram may bring.
const LONGEST_DATAGRAM: usize = 65_535;

/// What goes back for a datagram.
#[derive(Clone, Copy, Debug, PartialEq, Eq)]
pub(crate) enum Back {
    Nothing,
    // The bytes of the answer.
    Answered,
    // A refusal, which takes no memory.
    Refused,
}

/// What a socket has after a receive.
#[derive(Clone, Copy, Debug, PartialEq, Eq)]
pub enum Rest {
    /// Nothing: an event tells when more comes.
    Nothing,
    /// Perhaps a datagram.
    More,
    /// Perhaps one that could not be received now, of which no event tells.
    Later,
}

/// A datagram, and what is answered.
#[derive(Drop)]
pub(crate) struct Exchange {
    pub buffer: Vec<u8>,
    // How many bytes of the buffer have come.
    pub length: usize,
    pub from: SocketAddr,
    pub answer: Answer,
    pub back: Back,
    ghost within: { length ≤ vec_len buffer },
}

impl Exchange {
    /// One into which nothing came.
    pub fn new(alloc: Global) -> Result<Exchange, AllocError>
        ensures { IfOk result (λ e. e.back ≡ Nothings) }
    {
        Ok(Exchange {
            buffer: vec![in alloc; 0; LONGEST_DATAGRAM]?,
            length: 0,
            from: SocketAddr::from((Ipv4Addr::UNSPECIFIED, 0)),
            answer: Answer::new(alloc),
            back: Back::Nothing,
        })
    }
}
