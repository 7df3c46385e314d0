ghost use Rattle.std.specs.Prelude.{◌≡◌, ◌⊎◌, ◌+◌, min, OnErr, IfOk, IfErr, Ok, Err};
ghost use Rattle.std.specs.Option.{option_copied};
ghost use Rattle.agent_clients.specs.Asking.{Asking, next_due, waits_for, due_at, taken, stepped, started, first_step, items_of};
ghost use Rattle.agent_clients.specs.declared.fault.ClientFault.TheVariants as fault;
ghost use Rattle.agent_clients.specs.declared.user_agent.Stage.TheVariants.{Unstarted};
ghost use Rattle.agent_clients.specs.declared.user_agent.Stage.TheVariants as stage;

use crate::fault::ClientFault;
use crate::items::Items;
use crate::replies::{Brought, brought_by_datagram, brought_by_stream};
use std::alloc::Global;
use std::marker::Model;
use std::mem;

/// A request with more bytes is asked on a stream.
const LONGEST_SENT: usize = 1_400;

/// When the request is sent again, in seconds after the start.
const AGAIN: [u64; 3] = [2, 6, 14];

/// After so many seconds without a reply an agent gives up.
const PATIENCE: u64 = 15;

/// What the caller of a user agent does next.
#[derive(Clone, Copy, Debug, PartialEq, Eq)]
pub enum Step {
    /// Send the request as a datagram.
    Send,
    /// Open a stream, and send the request there.
    OpenStream,
    /// Nothing is due before this moment, in seconds.
    Wait(u32),
    /// The items are there.
    Done,
}

/// What happened.
#[derive(Clone, Copy)]
pub enum Event<'a> {
    /// Time went by.
    Tick,
    /// A datagram came.
    Datagram(&'a [u8]),
    /// A whole message came on the stream.
    Stream(&'a [u8]),
    /// The stream failed, or ended before the reply.
    StreamFailed,
}

// How far an agent is. Moments are in seconds.
#[derive(Drop)]
pub(crate) enum Stage {
    Unstarted,
    // It sent the request first at `start`, and last at `last`.
    ByDatagram { start: u32, last: u32 },
    // It asks on a stream since then.
    ByStream { since: u32 },
    Finished(Items),
    Failed(ClientFault),
}

/// One request and the wait for its reply, without a socket or a clock (RFC 2608, section 6.3): its caller
/// tells what comes and when, and does what it answers.
#[derive(Drop)]
pub struct UserAgent {
    request: Vec<u8>,
    stage: Stage,
}

impl Model for UserAgent {
    ghost use Rattle.agent_clients.specs.Asking.{Asking};

    ghost Value = { Asking };

    ghost view = { λ a. record { request = a.request.items; stage = a.stage } };
}

// The moment at which something is due next.
fn next_after(start: u32, last: u32) -> u64
    ensures { result ≡ next_due start last }
{
    let (start, last) = (u64::from(start), u64::from(last));
    if last < start + AGAIN[0] {
        start + AGAIN[0]
    } else if last < start + AGAIN[1] {
        start + AGAIN[1]
    } else if last < start + AGAIN[2] {
        start + AGAIN[2]
    } else {
        start + PATIENCE
    }
}

// A wait for a moment, or for the last that there is.
fn wait(due: u64) -> Step
    ensures { Ok result ≡ waits_for due }
{
    Step::Wait(due.min(u64::from(u32::MAX)) as u32)
}

impl UserAgent {
    /// An agent that is to ask this request. Takes no memory.
    pub fn new(request: Vec<u8>) -> UserAgent
        ensures { result ≡ record { request = request.items; stage = Unstarted } }
    {
        UserAgent {
            request,
            stage: Stage::Unstarted,
        }
    }

    /// The bytes of the request.
    pub fn request(&self) -> &[u8]
        ensures { result.now ≡ self.now.request }
    {
        self.request.as_slice()
    }

    /// Starts to ask at a moment, in seconds: `Send`, or `OpenStream` where the request has more than 1,400
    /// bytes.
    pub fn start(&mut self, now: u32) -> Step
        requires once { self.old.stage ≡ Unstarted }
        ensures step { result ≡ first_step self.old.request }
        ensures state { self.new ≡ record self.old { stage = started now self.old.request } }
    {
        if self.request.len() > LONGEST_SENT {
            self.enter(Stage::ByStream { since: now });
            return Step::OpenStream;
        }
        self.enter(Stage::ByDatagram {
            start: now,
            last: now,
        });
        Step::Send
    }

    // Goes to another stage.
    fn enter(&mut self, stage: Stage)
        ensures { self.new ≡ record self.old { stage = stage } }
    {
        drop(mem::replace(&mut self.stage, stage));
    }

    // Fails for good.
    fn fail(&mut self, fault: ClientFault) -> Result<Step, ClientFault>
        ensures { (result ≡ Err fault) × (self.new ≡ record self.old { stage = stage.Failed fault }) }
    {
        self.enter(Stage::Failed(fault));
        Err(fault)
    }

    // Does what is due at a moment.
    fn tick(&mut self, now: u32) -> Result<Step, ClientFault>
        ensures answer { result ≡ (due_at now self.old.stage).answer }
        ensures state { self.new ≡ record self.old { stage = (due_at now self.old.stage).stage } }
    {
        match self.stage {
            Stage::ByDatagram { start, last } => {
                if u64::from(start) + PATIENCE <= u64::from(now) {
                    return self.fail(ClientFault::GaveUp);
                }
                let due = next_after(start, last);
                if due <= u64::from(now) {
                    self.enter(Stage::ByDatagram { start, last: now });
                    return Ok(Step::Send);
                }
                Ok(wait(due))
            }
            Stage::ByStream { since } => {
                let due = u64::from(since) + PATIENCE;
                if due <= u64::from(now) {
                    return self.fail(ClientFault::GaveUp);
                }
                Ok(wait(due))
            }
            Stage::Failed(fault) => Err(fault),
            Stage::Finished(_) => Ok(Step::Done),
            Stage::Unstarted => Ok(Step::Wait(u32::MAX)),
        }
    }

    // Takes what came.
    fn take(&mut self, now: u32, brought: Brought) -> Result<Step, ClientFault>
        ensures answer { result ≡ (taken now self.old.stage brought).answer }
        ensures state { self.new ≡ record self.old { stage = (taken now self.old.stage brought).stage } }
    {
        match brought {
            Brought::Nothing => self.tick(now),
            Brought::Cut => {
                self.enter(Stage::ByStream { since: now });
                Ok(Step::OpenStream)
            }
            Brought::Replied(Ok(items)) => {
                self.enter(Stage::Finished(items));
                Ok(Step::Done)
            }
            Brought::Replied(Err(fault)) => self.fail(fault),
        }
    }

    /// Takes an event at a moment, in seconds. A reply counts where its function is that of a reply to the
    /// request, or it is a directory's advert and services are asked for, and its XID is the request's; all else is
    /// skipped. A reply of code 0 that is whole is `Done`, and so is each later step. `Code`, `Partial`, `Io`
    /// and `GaveUp` stay: each later step answers the same. `NoMemory` changes nothing. Before the start nothing is due.
    pub fn step(&mut self, alloc: Global, now: u32, event: Event<'_>) -> Result<Step, ClientFault>
        ensures { ((result ≡ Err fault.NoMemory) × (self.new ≡ self.old)) ⊎ ((result ≡ (stepped self.old now event.entry).answer) × (self.new ≡ record self.old { stage = (stepped self.old now event.entry).stage })) }
    {
        let is_by_datagram = match &self.stage {
            Stage::Finished(_) => return Ok(Step::Done),
            Stage::Failed(fault) => return Err(*fault),
            Stage::ByDatagram { .. } => true,
            Stage::ByStream { .. } => false,
            Stage::Unstarted => return Ok(Step::Wait(u32::MAX)),
        };
        let brought = match event {
            Event::Tick => return self.tick(now),
            Event::StreamFailed => return self.fail(ClientFault::Io),
            Event::Datagram(bytes) => {
                if !is_by_datagram {
                    return self.tick(now);
                }
                brought_by_datagram(alloc, self.request.as_slice(), bytes)
            }
            Event::Stream(bytes) => brought_by_stream(alloc, self.request.as_slice(), bytes),
        };
        match brought {
            Ok(brought) => self.take(now, brought),
            Err(_) => Err(ClientFault::NoMemory),
        }
    }

    /// What the reply holds, once it is there.
    pub fn items(&self) -> Option<&Items>
        ensures { option_copied result ≡ items_of self.now.stage }
    {
        match &self.stage {
            Stage::Finished(items) => Some(items),
            _ => None,
        }
    }

    /// What the reply holds, once it is there.
    pub(crate) fn into_items(self) -> Option<Items>
        ensures { result ≡ items_of self.stage }
    {
        let UserAgent { stage, .. } = self;
        match stage {
            Stage::Finished(items) => Some(items),
            other => {
                drop(other);
                None
            }
        }
    }
}
