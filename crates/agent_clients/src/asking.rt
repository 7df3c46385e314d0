//! A request and its reply.
ghost use Rattle.std.specs.Prelude.{◌≡◌, List, Ok, Err, MatchResult};
ghost use Rattle.agent_clients.specs.Runs.{Goes, Runs};
ghost use Rattle.agent_clients.specs.Wires.{Deed, Starts, Acts, Asks, Does};
ghost use Rattle.agent_clients.specs.declared.user_agent.Stage.TheVariants.{Unstarted};
ghost use Rattle.agent_clients.specs.declared.user_agent.Step.TheVariants.{Done};

use crate::asker::{Asker, LONGEST};
use crate::fault::ClientFault;
use crate::items::Items;
use crate::sockets::Sockets;
use crate::user_agent::Step;
use crate::wire::Wire;
use std::alloc::Global;
use std::net::{Net, SocketAddr, TcpStream};
use std::sync::Wait;
use std::time::Clock;

// Asks until the items are there.
fn ask_all<R: Wait, W: Wire>(
    rt: &R,
    alloc: Global,
    wire: &mut W,
    asker: &mut Asker,
    buffer: &mut [u8],
) -> Result<(), ClientFault>
    requires { asker.old.agent.stage ≡ Unstarted }
    ensures { MatchResult result (λ _. Goes W.may Does wire.old (Starts asker.old) wire.new (Acts asker.new (Ok Done))) (λ e. Goes W.may Does wire.old (Starts asker.old) wire.new (Acts asker.new (Err e))) }
{
    let mut step = asker.start(wire)?;
    for _ in rt.forever() {
        if step == Step::Done {
            return Ok(());
        }
        step = match asker.act(alloc, wire, buffer, step) {
            Ok(next) => next,
            Err(fault) => return Err(fault),
        };
    }
    unreachable!()
}

// Asks a request on a wire.
fn ask_on<R: Wait, W: Wire>(
    rt: &R,
    alloc: Global,
    wire: &mut W,
    buffer: &mut [u8],
    request: Vec<u8>,
) -> Result<Items, ClientFault>
    ensures { (ds : List Deed) × Runs W.may wire.old ds wire.new × Asks request.items ds result }
{
    let mut asker = Asker::new(alloc, request);
    let told = ask_all(rt, alloc, wire, &mut asker, buffer);
    let Asker { agent, .. } = asker;
    let items = agent.into_items();
    match told {
        Ok(()) => items.ok_or(ClientFault::Io),
        Err(fault) => {
            drop(items);
            Err(fault)
        }
    }
}

/// Asks a directory agent: sends a request, and waits for its reply. A datagram is sent again after 2, 6 and 14
/// seconds; after 15 it is given up, or, where a stream was opened, 15 seconds later. What comes from another
/// address is skipped. A clock or a socket that can't be had is a clock that fails.
pub fn ask<R>(
    rt: &R,
    alloc: Global,
    peer: SocketAddr,
    request: Vec<u8>,
) -> Result<Items, ClientFault>
where
    R: Net<Stream = TcpStream> + Clock + Wait,
    ensures { (ds : List Deed) × Asks request.items ds result }
{
    let mut sockets = match Sockets::open(rt, peer) {
        Ok(sockets) => sockets,
        Err(fault) => return Err(fault),
    };
    let Ok(mut buffer) = vec![in alloc; 0; LONGEST] else {
        return Err(ClientFault::NoMemory);
    };
    ask_on(rt, alloc, &mut sockets, buffer.as_mut_slice(), request)
}
