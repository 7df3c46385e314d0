ghost use Rattle.std.specs.Prelude.{◌≡◌, ℕ, Bool, List, Ok, Err};
ghost use Rattle.agent_clients.specs.Asking.{happening_of};
ghost use Rattle.agent_clients.specs.Runs.{Goes};
ghost use Rattle.agent_clients.specs.Wires.{Deed, Starts, Acts, Tells, Takes, Does, TakesAll, TakesPiece, asker_of};
ghost use Rattle.agent_clients.specs.Wires as spec;
ghost use Rattle.agent_clients.specs.declared.user_agent.Stage.TheVariants.{Unstarted};
ghost use Rattle.agent_clients.specs.declared.user_agent.Step.TheVariants as step;

use crate::fault::ClientFault;
use crate::user_agent::{Event, Step, UserAgent};
use crate::wire::Wire;
use slp_stream::{FrameFault, Framer};
use std::alloc::Global;

/// The bytes that a datagram or a message on a stream may bring.
pub(crate) const LONGEST: usize = 65_535;

/// One who asks: its agent, what came on the stream, and whether that is open.
#[derive(Drop)]
pub(crate) struct Asker {
    pub agent: UserAgent,
    framer: Framer,
    is_open: bool,
}

// Whether there are the items, or the fault.
fn is_over(told: Result<Step, ClientFault>) -> bool
    ensures { result ≡ spec.is_over told }
{
    match told {
        Ok(Step::Done) | Err(_) => true,
        Ok(_) => false,
    }
}

// Takes the whole messages that wait.
fn take_whole(
    alloc: Global,
    agent: &mut UserAgent,
    framer: &mut Framer,
    now: u32,
) -> Result<Step, ClientFault>
    ensures { (b : Bool) → (ms : List (List ℕ)) × TakesAll now (record { agent = agent.old; framer = framer.old; is_open = b }) ms (Acts (record { agent = agent.new; framer = framer.new; is_open = b }) result) }
{
    while let Some(next) = framer.next() {
        let told = match next {
            Ok(message) => agent.step(alloc, now, Event::Stream(message)),
            Err(_) => return agent.step(alloc, now, Event::StreamFailed),
        };
        if is_over(told) {
            return told;
        }
    }
    agent.step(alloc, now, Event::Tick)
}

impl Asker {
    /// One who is to ask this request. Takes no memory.
    pub fn new(alloc: Global, request: Vec<u8>) -> Asker
        ensures { result ≡ asker_of request.items }
    {
        Asker {
            agent: UserAgent::new(request),
            framer: Framer::new(alloc, LONGEST),
            is_open: false,
        }
    }

    /// Starts to ask.
    pub fn start<W: Wire>(&mut self, wire: &mut W) -> Result<Step, ClientFault>
        requires { self.old.agent.stage ≡ Unstarted }
        ensures { Goes W.may Does wire.old (Starts self.old) wire.new (Acts self.new result) }
    {
        match wire.now() {
            Ok(now) => Ok(self.agent.start(now)),
            Err(fault) => Err(fault),
        }
    }

    // Tells the agent what happened.
    fn tell<W: Wire>(
        &mut self,
        alloc: Global,
        wire: &mut W,
        event: Event<'_>,
    ) -> Result<Step, ClientFault>
        ensures { (d : Deed) × W.may wire.old d wire.new × Does (Tells self.old (happening_of event.entry)) d (Acts self.new result) }
    {
        match wire.now() {
            Ok(now) => self.agent.step(alloc, now, event),
            Err(fault) => Err(fault),
        }
    }

    // Takes bytes of the stream.
    fn take(&mut self, alloc: Global, now: u32, piece: &[u8]) -> Result<Step, ClientFault>
        ensures { TakesPiece now self.old piece.now (Acts self.new result) }
    {
        match self.framer.feed(piece) {
            Ok(()) => take_whole(alloc, &mut self.agent, &mut self.framer, now),
            Err(FrameFault::NoMemory) => Err(ClientFault::NoMemory),
            Err(_) => self.agent.step(alloc, now, Event::StreamFailed),
        }
    }

    // Takes bytes of the stream that came now.
    fn take_now<W: Wire>(
        &mut self,
        alloc: Global,
        wire: &mut W,
        piece: &[u8],
    ) -> Result<Step, ClientFault>
        ensures { (d : Deed) × W.may wire.old d wire.new × Does (Takes self.old piece.now) d (Acts self.new result) }
    {
        match wire.now() {
            Ok(now) => self.take(alloc, now, piece),
            Err(fault) => Err(fault),
        }
    }

    // Sends the request as a datagram.
    fn send<W: Wire>(&mut self, alloc: Global, wire: &mut W) -> Result<Step, ClientFault>
        ensures { Goes W.may Does wire.old (Acts self.old (Ok step.Send)) wire.new (Acts self.new result) }
    {
        match wire.send(self.agent.request()) {
            Ok(()) => self.tell(alloc, wire, Event::Tick),
            Err(fault) => Err(fault),
        }
    }

    // Opens a stream, and sends the request there.
    fn open<W: Wire>(&mut self, alloc: Global, wire: &mut W) -> Result<Step, ClientFault>
        ensures { Goes W.may Does wire.old (Acts self.old (Ok step.OpenStream)) wire.new (Acts self.new result) }
    {
        if wire.open(self.agent.request()) {
            self.is_open = true;
            self.tell(alloc, wire, Event::Tick)
        } else {
            self.tell(alloc, wire, Event::StreamFailed)
        }
    }

    // Waits until a moment: for bytes of the stream where it is open, else for a datagram.
    fn wait<W: Wire>(
        &mut self,
        alloc: Global,
        wire: &mut W,
        buffer: &mut [u8],
        moment: u32,
    ) -> Result<Step, ClientFault>
        ensures { Goes W.may Does wire.old (Acts self.old (Ok (step.Wait moment))) wire.new (Acts self.new result) }
    {
        if self.is_open {
            return match wire.read(moment, buffer) {
                Ok(Some(count)) => self.take_now(alloc, wire, &buffer[..count]),
                Ok(None) => self.tell(alloc, wire, Event::Tick),
                Err(_) => self.tell(alloc, wire, Event::StreamFailed),
            };
        }
        match wire.receive(moment, buffer) {
            Ok(Some(count)) => self.tell(alloc, wire, Event::Datagram(&buffer[..count])),
            Ok(None) => self.tell(alloc, wire, Event::Tick),
            Err(fault) => Err(fault),
        }
    }

    /// Does what the agent answered.
    pub fn act<W: Wire>(
        &mut self,
        alloc: Global,
        wire: &mut W,
        buffer: &mut [u8],
        step: Step,
    ) -> Result<Step, ClientFault>
        ensures { Goes W.may Does wire.old (Acts self.old (Ok step)) wire.new (Acts self.new result) }
    {
        match step {
            Step::Done => Ok(Step::Done),
            Step::Send => self.send(alloc, wire),
            Step::OpenStream => self.open(alloc, wire),
            Step::Wait(moment) => self.wait(alloc, wire, buffer, moment),
        }
    }
}
