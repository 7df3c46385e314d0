//! A stream of a loop. Nothing else reads it, or writes to it.
ghost use Rattle.std.specs.Prelude.{◌≡◌, ◌⊎◌, true, false, IsTrue, Result};
ghost use Rattle.slp_sockets.specs.Linking.{Link, has_message};
ghost use Rattle.slp_sockets.specs.Sitting.{seat};
ghost use Rattle.slp_sockets.specs.Streaming.{Advances, Goes};
ghost use Rattle.slp_sockets.specs.Streaming as spec;
ghost use Rattle.slp_sockets.specs.Turning.{TakesSteps, Tells, fresh, rested};
ghost use Rattle.slp_sockets.specs.declared.connection.Next.{Next as Nexts};
ghost use Rattle.slp_sockets.specs.declared.fault.LoopFault.{LoopFault as Faults};

use crate::connection::{Connection, Next};
use crate::fault::LoopFault;
use crate::serve::{Serve, settle};
use addresses::Addr;
use mio::event::Source;
use mio::{Interest, Registry, Token};
use std::alloc::Global;
use std::io::{self, Read, Write};

/// How many steps of a stream one event may cause, of which one serves a message at most. What is left is reported again, so that no stream keeps the others from their turn.
const STEPS_AT_ONCE: usize = 16;

/// What a stream is waited for: that it can be read, or written to.
pub(crate) fn either() -> Interest
    ensures readable { result.readable ≡ true }
    ensures writable { result.writable ≡ true }
{
    Interest::READABLE | Interest::WRITABLE
}

// What is answered where a stream ends its turn after a read and a write.
fn end_of(read: Next, written: Next) -> Option<Next>
    ensures { result ≡ spec.end_of read written }
{
    match (read, written) {
        (_, Next::Closed) => Some(Next::Closed),
        (Next::Blocked, Next::Blocked) => Some(Next::Blocked),
        _ => None,
    }
}

// Whether the message in front is put aside: it can be served, and would wait, or another loop is to serve it.
fn is_put_aside<S: Serve>(connection: &Connection, server: &mut S) -> bool
    ensures kept { server.new ≡ server.old }
    ensures may { IsTrue result → (has_message connection.now ≡ true) × (S.manner.may_wait connection.now.unserved ⊎ S.manner.may_last connection.now.unserved) }
{
    connection.is_ready()
        && (server.waits(connection.unserved()) || server.is_long(connection.unserved()))
}

// Reads and writes until the stream is blocked, and serves one message at most. One that would wait, or that another loop is to serve, is left where it is, and nothing is read behind it. `More` where it is not blocked yet, or another message waits. What was told of the message is handed over
// before its reply is written.
fn take_steps<T: Read + Write, S: Serve>(
    connection: &mut Connection,
    stream: &mut T,
    server: &mut S,
) -> Result<Next, LoopFault>
    ensures { Goes S.manner 16 false (record { brings = T.remaining stream.old; taken = T.contents stream.old; link = connection.old; server = server.old })
        result (record { brings = T.remaining stream.new; taken = T.contents stream.new; link = connection.new; server = server.new }) }
{
    let mut has_served = false;
    for _ in 0..STEPS_AT_ONCE {
        let is_next = connection.has_message();
        if is_next & has_served {
            return Ok(Next::More);
        }
        if is_put_aside(connection, server) {
            return Ok(Next::Blocked);
        }
        has_served = is_next | has_served;
        let read = connection.on_readable(stream, server)?;
        let settled = settle(server);
        let written = connection.on_writable(stream, settled)?;
        if let Some(next) = end_of(read, written) {
            return Ok(next);
        }
    }
    Ok(Next::More)
}

// Whether a message was put aside, by what the steps of its stream came to: else it would have been served.
fn is_left(told: Result<Next, LoopFault>, connection: &Connection) -> bool {
    matches!(told, Ok(Next::Blocked)) && connection.is_ready()
}

/// A stream and what is known of it.
#[derive(Drop)]
pub(crate) struct Peer<T: Drop> {
    stream: T,
    connection: Connection,
    // When it moved last, in seconds of the loop's own clock.
    moved: u32,
    // Whether its message in front was put aside.
    is_aside: bool,
}

impl<T: Drop> Peer<T> {
    /// A stream that came at a moment. Takes no memory.
    pub fn new(alloc: Global, stream: T, asker: Addr, now: u32) -> Peer<T>
        ensures connection { result.connection ≡ fresh asker }
        ensures moved { result.moved ≡ now }
    {
        Peer {
            stream,
            connection: Connection::new(alloc, asker),
            moved: now,
            is_aside: false,
        }
    }

    /// Whether its message in front was put aside, at its last turn.
    pub fn is_aside(&self) -> bool {
        self.is_aside
    }

    /// Whether its message in front was put aside, and is to be served by another loop.
    pub fn is_long<S: Serve>(&self, server: &mut S) -> bool
        ensures kept { server.new ≡ server.old }
        ensures long { IsTrue result → (has_message self.now.connection ≡ true) × S.manner.may_last self.now.connection.unserved }
    {
        self.is_aside && self.connection.is_ready() && server.is_long(self.connection.unserved())
    }

    /// It comes to another loop, at a moment of that.
    pub fn come(&mut self, now: u32)
        ensures { seat self.new ≡ record { link = self.old.connection; moved = now } }
    {
        self.moved = now;
    }

    /// When it moved last.
    pub fn moved(&self) -> u32
        ensures { result ≡ self.now.moved }
    {
        self.moved
    }
}

impl<T: Read + Write + Drop> Peer<T> {
    // Lets the stream go on at a moment, and notes where it moved.
    fn advance<S: Serve>(&mut self, server: &mut S, now: u32) -> Result<Next, LoopFault>
        ensures { Advances S.manner now (record { brings = T.remaining self.old.stream; taken = T.contents self.old.stream; link = self.old.connection; server = server.old }) self.old.moved
            result (record { brings = T.remaining self.new.stream; taken = T.contents self.new.stream; link = self.new.connection; server = server.new }) self.new.moved }
    {
        let told = take_steps(&mut self.connection, &mut self.stream, server);
        self.is_aside = is_left(told, &self.connection);
        if self.connection.has_moved() {
            self.moved = now;
        }
        told
    }
}

impl<T: Source + Drop> Peer<T> {
    /// Has it reported where it can be read or written.
    pub fn wait(&mut self, registry: &Registry, key: usize) -> io::Result<()>
        ensures { seat self.new ≡ seat self.old }
    {
        registry.register(&mut self.stream, Token(key), either())
    }

    /// Has it reported no more. Where that is refused, what is reported of it is passed over.
    pub fn wait_no_more(&mut self, registry: &Registry)
        ensures { seat self.new ≡ seat self.old }
    {
        let _ = registry.deregister(&mut self.stream);
    }

    // Has it reported again where it can be read or written.
    fn wait_again(&mut self, registry: &Registry, key: usize) -> io::Result<()>
        ensures { seat self.new ≡ seat self.old }
    {
        registry.reregister(&mut self.stream, Token(key), either())
    }
}

impl<T: Read + Write + Source + Drop> Peer<T> {
    /// Lets the stream with a key go on at a moment. One that may go on is reported again; where it can't be, that is its fault.
    pub fn go_on<S: Serve>(
        &mut self,
        server: &mut S,
        registry: &Registry,
        key: usize,
        now: u32,
    ) -> Result<Next, LoopFault>
        ensures { (was : Result Nexts Faults) × (end : Link) × TakesSteps S.manner self.old.connection server.old was end server.new × Tells was result × (seat self.new ≡ rested now end self.old.moved) }
    {
        let next = self.advance(server, now)?;
        if let Next::More = next {
            self.wait_again(registry, key)?;
        }
        Ok(next)
    }
}
