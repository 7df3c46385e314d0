ghost use Rattle.std.specs.Prelude.{◌≡◌, ◌≢◌, ◌⊎◌, ◌≤◌, ℕ, Option, List, [], ◌++◌, ◌&&◌, true, false, is_none, None, Some, Ok, length, drop, IfOk, IfSome, IfNone, MatchOption, MatchResult};
ghost use Rattle.slp_sockets.specs.Linking.{Link, unread, unwritten, ending_next, has_message, next_written};
ghost use Rattle.slp_sockets.specs.Reading.{Reads, ReadsBy, Takes};
ghost use Rattle.slp_sockets.specs.Serving.{IsServed};
ghost use Rattle.slp_sockets.specs.Writing.{Wrote, Writes};
ghost use Rattle.slp_sockets.specs.declared.connection.InFront.TheVariants as front;
ghost use Rattle.slp_sockets.specs.declared.connection.Next.TheVariants.{More as Going};
ghost use Rattle.slp_sockets.specs.declared.connection.Stage.TheVariants.{Reading as Begun, Failed as Broken};
ghost use Rattle.slp_sockets.specs.declared.fault.LoopFault.TheVariants.{NoMemory as Wanted};
ghost use Rattle.slp_stream.specs.Cutting.{Wanting, front_of};

use crate::fault::LoopFault;
use crate::serve::{Serve, Settled};
use addresses::Addr;
use slp_replies::{Answer, refused_reply};
use slp_stream::Framer;
use std::alloc::{AllocError, Global};
use std::io::{ErrorKind, Read, Write};
use std::marker::Model;

/// No message on a stream is longer, and no answer.
pub const LONGEST_ON_STREAM: usize = 65_535;

/// While more bytes wait to be written, nothing is read, and no message is served.
const MOST_WAITING: usize = 131_072;

/// The bytes that one read asks for: so many may wait behind a message that was begun.
const CHUNK: usize = 4_096;

/// What a loop does next.
#[derive(Clone, Copy, Debug, PartialEq, Eq)]
pub enum Next {
    /// Call again now.
    More,
    /// Wait for the socket.
    Blocked,
    /// Drop the connection.
    Closed,
}

/// How far a connection is.
#[derive(Clone, Copy, Debug, PartialEq, Eq)]
pub(crate) enum Stage {
    Reading,
    // Nothing more is read. What waits is still written.
    Ending,
    // A fault was answered.
    Failed,
}

/// One stream: what came and is not served yet, and what is to be written.
pub struct Connection {
    alloc: Global,
    asker: Addr,
    framer: Framer,
    output: Vec<u8>,
    // The bytes of `output` before it were written.
    written: usize,
    stage: Stage,
    // Whether a message came whole, or a byte was written, since that was last asked.
    moved: bool,
}

impl Drop for Connection {
    fn drop(self) {
        let Connection {
            alloc: _,
            asker: _,
            framer: _,
            output: _,
            written: _,
            stage: _,
            moved: _,
        } = self;
    }
}

impl Model for Connection {
    ghost use Rattle.std.specs.Prelude.{◌≡◌, ◌≤◌, length, drop, None};
    ghost use Rattle.slp_sockets.specs.Linking.{Link, longest};
    ghost use Rattle.slp_sockets.specs.declared.connection.Stage.TheVariants.{Reading};

    ghost Value = { Link };

    ghost view = { λ c. record { asker = c.asker; unserved = c.framer.waiting; waiting = drop c.written c.output.items; stage = c.stage; moved = c.moved } };

    ghost invariant = { λ c. (c.written ≤ length c.output.items) × (c.framer.limit ≡ longest) × (c.stage ≡ Reading → c.framer.refused ≡ None) };
}

// Serves one message, and adds what goes back for it.
fn serve_one<S: Serve>(
    server: &mut S,
    asker: Addr,
    message: &[u8],
    answer: &mut Answer,
    output: &mut Vec<u8>,
) -> Result<(), AllocError>
    ensures { (bytes : List ℕ) × IsServed S.manner asker 65535 server.old message.now bytes server.new
        × MatchResult result (λ _. output.new.items ≡ output.old.items ++ bytes) (λ _. output.new.items ≡ output.old.items) }
{
    match server.serve(asker, message, LONGEST_ON_STREAM, answer) {
        Ok(_) => output.extend_from_slice(answer.bytes.as_slice()),
        Err(_) => {
            let reply = refused_reply(message);
            output.extend_from_slice(reply.as_slice())
        }
    }
}

// What stood in front of what came.
#[derive(Clone, Copy, PartialEq, Eq)]
enum InFront {
    Nothing,
    Message,
    // A length that no message has.
    Fault,
}

// Serves the whole message in front of what came, if there is one, and answers what stood there.
fn serve_front<S: Serve>(
    server: &mut S,
    asker: Addr,
    framer: &mut Framer,
    output: &mut Vec<u8>,
) -> Result<InFront, AllocError>
    requires going { framer.old.refused ≡ None }
    requires limit { framer.old.limit ≡ 65535 }
    ensures takes { Takes S.manner (front_of 65535 framer.old.waiting) asker framer.old.waiting output.old.items server.old result framer.new.waiting output.new.items server.new }
    ensures going { IfOk result (λ told. told ≡ front.Fault ⊎ (framer.new.refused ≡ None)) }
    ensures limit { framer.new.limit ≡ 65535 }
{
    match framer.next() {
        None => Ok(InFront::Nothing),
        Some(Ok(message)) => {
            let mut answer = Answer::new(*output.allocator());
            serve_one(server, asker, message, &mut answer, output)?;
            Ok(InFront::Message)
        }
        Some(Err(_)) => Ok(InFront::Fault),
    }
}

impl Connection {
    /// A connection with the peer at this address, of which nothing was read. Takes no memory.
    pub fn new(alloc: Global, asker: Addr) -> Connection
        ensures { result ≡ record { asker = asker; unserved = []; waiting = []; stage = Begun; moved = false } }
    {
        Connection {
            alloc,
            asker,
            framer: Framer::new(alloc, LONGEST_ON_STREAM),
            output: Vec::new(alloc),
            written: 0,
            stage: Stage::Reading,
            moved: false,
        }
    }

    /// Whether it moved since this was last asked: a message came whole, or a byte was written.
    pub fn has_moved(&mut self) -> bool
        ensures moved { result ≡ self.old.moved }
        ensures kept { self.new ≡ record self.old { moved = false } }
    {
        std::mem::take(&mut self.moved)
    }

    // What is answered with no read.
    fn unread(&self) -> Option<Next>
        ensures { result ≡ unread self.now }
    {
        match self.stage {
            Stage::Failed => Some(Next::Closed),
            Stage::Ending => Some(self.ending()),
            Stage::Reading => {
                if self.output.len() - self.written > MOST_WAITING {
                    Some(Next::Blocked)
                } else {
                    None
                }
            }
        }
    }

    // What is answered where nothing more is read.
    fn ending(&self) -> Next
        ensures { result ≡ ending_next self.now.waiting }
    {
        if self.written < self.output.len() {
            Next::Blocked
        } else {
            Next::Closed
        }
    }

    // What is answered with no write.
    fn unwritten(&self) -> Option<Next>
        ensures { result ≡ unwritten self.now }
    {
        let is_done = self.written == self.output.len();
        match self.stage {
            Stage::Failed => Some(Next::Closed),
            Stage::Ending if is_done => Some(Next::Closed),
            Stage::Reading if is_done => Some(Next::Blocked),
            _ => None,
        }
    }

    // Drops what was written from the front of the output.
    fn close_up(&mut self)
        ensures { self.new ≡ self.old }
    {
        if self.written == 0 {
            return;
        }
        let kept = self.output.len() - self.written;
        self.output.copy_within(self.written.., 0);
        self.output.truncate(kept);
        self.written = 0;
    }

    /// Whether a whole message waits, which is served next.
    pub fn has_message(&self) -> bool
        ensures { result ≡ has_message self.now }
    {
        matches!(self.stage, Stage::Reading) && self.framer.has_whole()
    }

    /// Whether the message in front can be served now: it is whole, and not too much waits to be written.
    pub fn is_ready(&self) -> bool
        ensures { result ≡ (has_message self.now && is_none (unread self.now)) }
    {
        self.has_message() && self.unread().is_none()
    }

    /// What was read and is not served.
    pub fn unserved(&self) -> &[u8]
        ensures { result.now ≡ self.now.unserved }
    {
        self.framer.waiting()
    }

    // Serves the message in front, if it is whole. A bad length there is the end. What is answered then; nothing where more bytes are wanted.
    fn take_front<S: Serve>(&mut self, server: &mut S) -> Option<Result<Next, LoopFault>>
        requires open { self.old.stage ≡ Begun }
        ensures { MatchOption result ((front_of 65535 self.old.unserved ≡ Wanting) × (self.new ≡ self.old) × (server.new ≡ server.old))
            (λ told. (front_of 65535 self.old.unserved ≢ Wanting) × ((left : Option (List ℕ)) → ReadsBy S.manner (front_of 65535 self.old.unserved) left left self.old server.old told self.new server.new)) }
    {
        self.close_up();
        match serve_front(server, self.asker, &mut self.framer, &mut self.output) {
            Ok(InFront::Nothing) => None,
            Ok(InFront::Message) => {
                self.moved = true;
                Some(Ok(Next::More))
            }
            Ok(InFront::Fault) => {
                self.stage = Stage::Ending;
                Some(Ok(self.ending()))
            }
            Err(_) => {
                self.moved = true;
                self.stage = Stage::Failed;
                Some(Err(LoopFault::NoMemory))
            }
        }
    }

    // Takes bytes that were read.
    fn take(&mut self, piece: &[u8]) -> Result<Next, LoopFault>
        requires open { self.old.stage ≡ Begun }
        ensures { MatchResult result (λ next. (next ≡ Going) × (self.new ≡ record self.old { unserved = self.old.unserved ++ piece.now }))
            (λ fault. (fault ≡ Wanted) × (self.new ≡ record self.old { stage = Broken })) }
    {
        if self.framer.feed(piece).is_err() {
            self.stage = Stage::Failed;
            return Err(LoopFault::NoMemory);
        }
        Ok(Next::More)
    }

    /// Serves the message in front, where it is whole, and else reads once, at most. An `Err` fails the connection:
    /// from then on each call answers `Closed`.
    pub fn on_readable<R: Read, S: Serve>(
        &mut self,
        reader: &mut R,
        server: &mut S,
    ) -> Result<Next, LoopFault>
        ensures unread { IfSome (unread self.old) (λ next. (result ≡ Ok next) × (self.new ≡ self.old) × (reader.new ≡ reader.old) × (server.new ≡ server.old)) }
        ensures reads { IfNone (unread self.old) (Reads S.manner (R.remaining reader.old) (R.remaining reader.new) self.old server.old result self.new server.new) }
    {
        if let Some(next) = self.unread() {
            return Ok(next);
        }
        if let Some(told) = self.take_front(server) {
            return told;
        }
        let mut chunk = [0; CHUNK];
        match reader.read(&mut chunk) {
            Ok(0) => {
                self.stage = Stage::Ending;
                Ok(self.ending())
            }
            Ok(count) => self.take(&chunk[..count]),
            Err(e) => match e.kind() {
                ErrorKind::WouldBlock => Ok(Next::Blocked),
                ErrorKind::Interrupted => Ok(Next::More),
                _ => {
                    self.stage = Stage::Failed;
                    Err(LoopFault::Io)
                }
            },
        }
    }

    // Drops this many bytes, which were written.
    fn drop_written(&mut self, count: usize) -> Next
        requires count { count ≤ length self.old.waiting }
        ensures dropped { self.new ≡ record self.old { waiting = drop count self.old.waiting; moved = true } }
        ensures next { result ≡ next_written self.new.stage self.new.waiting }
    {
        self.moved = true;
        self.written += count;
        if self.written == self.output.len() {
            self.output.clear();
            self.written = 0;
        }
        match self.unwritten() {
            Some(Next::Closed) => Next::Closed,
            _ => Next::More,
        }
    }

    /// Writes once, at most, once what was told of the messages is handed over. An `Err` fails the connection: from then on each call answers
    /// `Closed`. Takes no memory.
    pub fn on_writable<W: Write>(
        &mut self,
        writer: &mut W,
        _settled: Settled,
    ) -> Result<Next, LoopFault>
        ensures unwritten { IfSome (unwritten self.old) (λ next. (result ≡ Ok next) × (self.new ≡ self.old) × (writer.new ≡ writer.old)) }
        ensures wrote { Wrote (W.contents writer.old) (W.contents writer.new) self.old.waiting self.new.waiting }
        ensures writes { IfNone (unwritten self.old) (Writes self.old result self.new) }
    {
        if let Some(next) = self.unwritten() {
            return Ok(next);
        }
        match writer.write(&self.output[self.written..]) {
            Ok(0) => Ok(Next::Blocked),
            Ok(count) => Ok(self.drop_written(count)),
            Err(e) => match e.kind() {
                ErrorKind::WouldBlock => Ok(Next::Blocked),
                ErrorKind::Interrupted => Ok(Next::More),
                _ => {
                    self.stage = Stage::Failed;
                    Err(LoopFault::Io)
                }
            },
        }
    }
}
