//! Registrations that are kept alive on real sockets.
ghost use Rattle.std.specs.Prelude.{◌≡◌, ◌*◌, [], List, Err, map, MatchResult};
ghost use Rattle.std.specs.Duration.{as_nanos};
ghost use Rattle.agent_clients.specs.Keeping.{Keeping};
ghost use Rattle.agent_clients.specs.Runs.{Goes, Runs};
ghost use Rattle.agent_clients.specs.Upkeep.{Act, Looks, Turns, Sends, Ends, Keeps};

use crate::asking::ask;
use crate::fault::ClientFault;
use crate::outside::Outside;
use crate::service_agent::ServiceAgent;
use crate::sockets::moment_of;
use std::alloc::Global;
use std::net::{Net, SocketAddr, TcpStream};
use std::sync::Wait;
use std::sync::atomic::{AtomicBool, Ordering};
use std::thread;
use std::time::{Clock, Duration, Instant};

/// How long it rests between two turns, in milliseconds.
const NAP: u64 = 200;

fn nap() -> Duration
    ensures { as_nanos result ≡ 200 * 1000000 }
{
    Duration::from_millis(NAP)
}

// Sends messages, one after the other, and waits for the acknowledgement of each.
fn send_all<O: Outside>(
    alloc: Global,
    outside: &mut O,
    messages: Vec<Vec<u8>>,
) -> Result<(), ClientFault>
    ensures { (k : Keeping) → MatchResult result (λ _. Goes O.may Keeps outside.old (Sends k (map (λ v. v.items) messages.items)) outside.new (Sends k [])) (λ e. Goes O.may Keeps outside.old (Sends k (map (λ v. v.items) messages.items)) outside.new (Ends (Err e))) }
{
    for message in messages {
        if let Err(fault) = outside.ask(alloc, message) {
            return Err(fault);
        }
    }
    Ok(())
}

// Sends what is due.
fn take_turn<O: Outside>(
    alloc: Global,
    outside: &mut O,
    agent: &mut ServiceAgent,
) -> Result<(), ClientFault>
    ensures { MatchResult result (λ _. Goes O.may Keeps outside.old (Turns agent.old) outside.new (Sends agent.new [])) (λ e. Goes O.may Keeps outside.old (Turns agent.old) outside.new (Ends (Err e))) }
{
    let now = match outside.now() {
        Ok(now) => now,
        Err(fault) => return Err(fault),
    };
    let mut messages = Vec::new(alloc);
    match agent.turn(alloc, now, &mut messages) {
        Ok(()) => send_all(alloc, outside, messages),
        Err(fault) => Err(fault),
    }
}

// Takes turns until the flag is set.
fn take_turns<R: Wait, O: Outside>(
    rt: &R,
    alloc: Global,
    outside: &mut O,
    agent: ServiceAgent,
) -> Result<(), ClientFault>
    ensures { Goes O.may Keeps outside.old (Looks agent) outside.new (Ends result) }
{
    let mut agent = agent;
    for _ in rt.forever() {
        if outside.is_stopped() {
            return Ok(());
        }
        if let Err(fault) = take_turn(alloc, outside, &mut agent) {
            return Err(fault);
        }
        outside.rest();
    }
    unreachable!()
}

// The flag, the clock that began at the start, and the directory agent.
#[derive(Drop)]
struct Upkeep<'r, R: Clock> {
    rt: &'r R,
    peer: SocketAddr,
    start: Instant,
    stop: &'r AtomicBool,
}

impl<'r, R: Net<Stream = TcpStream> + Clock + Wait> Outside for Upkeep<'r, R> {
    ghost use Rattle.std.specs.Prelude.{⊤};

    // What a flag, a clock and an agent tell is in no clause.
    ghost may = { λ before act after. ⊤ };

    fn is_stopped(&mut self) -> bool {
        self.stop.load(Ordering::SeqCst)
    }

    fn now(&mut self) -> Result<u32, ClientFault> {
        match self.start.elapsed(self.rt) {
            Ok(elapsed) => Ok(moment_of(elapsed)),
            Err(_) => Err(ClientFault::Io),
        }
    }

    fn ask(&mut self, alloc: Global, message: Vec<u8>) -> Result<(), ClientFault> {
        match ask(self.rt, alloc, self.peer, message) {
            Ok(items) => {
                drop(items);
                Ok(())
            }
            Err(fault) => Err(fault),
        }
    }

    fn rest(&mut self) {
        thread::sleep(self.rt, nap());
    }
}

/// Keeps registrations alive at a directory agent: sends each that is due, and waits for its acknowledgement,
/// until the flag is set. It ends at the first that is not acknowledged. The flag is looked at every 200 ms.
pub fn keep_alive<R>(
    rt: &R,
    alloc: Global,
    peer: SocketAddr,
    agent: ServiceAgent,
    stop: &AtomicBool,
) -> Result<(), ClientFault>
where
    R: Net<Stream = TcpStream> + Clock + Wait,
    ensures { (acts : List Act) × Runs Keeps (Looks agent) acts (Ends result) }
{
    let Ok(start) = Instant::now(rt) else {
        return Err(ClientFault::Io);
    };
    let mut upkeep = Upkeep {
        rt,
        peer,
        start,
        stop,
    };
    take_turns(rt, alloc, &mut upkeep, agent)
}
