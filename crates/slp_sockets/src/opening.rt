//! What a loop is opened with: its sockets, and what waits for them. Where the system finds no memory for one, that is want of memory.
ghost use Rattle.std.specs.Prelude.{◌≡◌, IfOk, IfErr, MatchResult, OnOk};
ghost use Rattle.std_io.specs.IoError.{raw_os_error};
ghost use Rattle.slp_sockets.specs.Sockets.{IsUnopened};

use crate::datagrams::{DATAGRAMS, Datagrams};
use crate::fault::{LoopFault, is_want_of_memory};
use crate::lane::Taker;
use crate::streams::{LISTENER, Streams};
use mio::net::{TcpListener, UdpSocket};
use mio::{Events, Interest, Poll, Registry};
use std::alloc::Global;
use std::io;
use std::net::{self, Net, SocketAddr};

/// How many events one wait gives.
const EVENTS: usize = 256;

/// What was opened, or why it was not.
pub(crate) fn opened<T: Drop>(told: io::Result<T>) -> Result<T, LoopFault>
    ensures { MatchResult told (λ x. result ≡ Ok x) (λ e. (fault : LoopFault) × (result ≡ Err fault) × IsUnopened (raw_os_error e) fault) }
{
    match told {
        Ok(x) => Ok(x),
        Err(e) if is_want_of_memory(&e) => Err(LoopFault::NoMemory),
        Err(_) => Err(LoopFault::Io),
    }
}

/// What a loop has beside its server.
#[derive(Drop)]
pub(crate) struct Parts {
    pub poll: Poll,
    pub events: Events,
    pub datagrams: Datagrams<UdpSocket>,
    pub streams: Streams,
    // The socket of the datagrams once more, for a loop beside this one.
    pub socket: Option<UdpSocket>,
    pub takes: Option<Taker>,
}

// A listener at an address, which is waited for.
fn listen<N: Net>(net: &N, registry: &Registry, address: SocketAddr) -> io::Result<TcpListener> {
    let mut listener = TcpListener::bind(net, address)?;
    registry.register(&mut listener, LISTENER, Interest::READABLE)?;
    Ok(listener)
}

// A socket for datagrams at an address.
fn bind<N: Net>(net: &N, address: SocketAddr) -> io::Result<net::UdpSocket> {
    let socket = net::UdpSocket::bind(net, address)?;
    socket.set_nonblocking(true)?;
    Ok(socket)
}

// A socket for datagrams at an address, which is waited for, and the same once more.
fn receive<N: Net>(
    net: &N,
    registry: &Registry,
    address: SocketAddr,
) -> io::Result<(UdpSocket, UdpSocket)> {
    let socket = bind(net, address)?;
    let again = UdpSocket::from_std(socket.try_clone()?);
    let mut socket = UdpSocket::from_std(socket);
    registry.register(&mut socket, DATAGRAMS, Interest::READABLE)?;
    Ok((socket, again))
}

// The streams of an address, with places for this many.
fn streams_at<N: Net>(
    net: &N,
    alloc: Global,
    registry: &Registry,
    address: SocketAddr,
    connections: usize,
) -> Result<Streams, LoopFault>
    ensures limit { IfOk result (λ s. s.limit ≡ connections) }
    ensures held { IfOk result (λ s. s.held ≡ 0) }
{
    let listener = opened(listen(net, registry, address))?;
    Ok(Streams::new(alloc, Some(listener), connections)?)
}

// The datagrams of an address, and their socket once more.
fn datagrams_at<N: Net>(
    net: &N,
    alloc: Global,
    registry: &Registry,
    address: SocketAddr,
) -> Result<(Datagrams<UdpSocket>, UdpSocket), LoopFault> {
    let (socket, again) = opened(receive(net, registry, address))?;
    match Datagrams::new(alloc, socket) {
        Ok(datagrams) => Ok((datagrams, again)),
        Err(fault) => {
            drop(again);
            Err(fault.into())
        }
    }
}

// The sockets of an address.
#[derive(Drop)]
struct Sockets {
    datagrams: Datagrams<UdpSocket>,
    again: UdpSocket,
    streams: Streams,
}

// The datagrams and the streams of an address, with places for this many streams.
fn sockets_at<N: Net>(
    net: &N,
    alloc: Global,
    registry: &Registry,
    address: SocketAddr,
    connections: usize,
) -> Result<Sockets, LoopFault>
    ensures limit { IfOk result (λ s. s.streams.limit ≡ connections) }
    ensures held { IfOk result (λ s. s.streams.held ≡ 0) }
{
    let streams = streams_at(net, alloc, registry, address, connections)?;
    let address = opened(streams.address())?;
    match datagrams_at(net, alloc, registry, address) {
        Ok((datagrams, again)) => Ok(Sockets {
            datagrams,
            again,
            streams,
        }),
        Err(fault) => {
            drop(streams);
            Err(fault)
        }
    }
}

/// What waits for sockets, and what tells of those that are ready.
pub(crate) fn poll_with<N: Net>(net: &N, alloc: Global) -> Result<(Poll, Events), LoopFault> {
    let events = Events::with_capacity(alloc, EVENTS)?;
    Ok((opened(Poll::new(net))?, events))
}

/// The parts of a loop at an address, with places for this many streams.
pub(crate) fn parts_at<N: Net>(
    net: &N,
    alloc: Global,
    address: SocketAddr,
    connections: usize,
) -> Result<Parts, LoopFault>
    ensures limit { IfOk result (λ p. p.streams.limit ≡ connections) }
    ensures held { IfOk result (λ p. p.streams.held ≡ 0) }
{
    let (poll, events) = poll_with(net, alloc)?;
    match sockets_at(net, alloc, poll.registry(), address, connections) {
        Ok(
            Sockets {
                datagrams,
                again,
                streams,
            },
        ) => Ok(Parts {
            poll,
            events,
            datagrams,
            streams,
            socket: Some(again),
            takes: None,
        }),
        Err(fault) => {
            drop(poll);
            drop(events);
            Err(fault)
        }
    }
}
