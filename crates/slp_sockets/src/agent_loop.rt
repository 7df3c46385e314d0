ghost use Rattle.std.specs.Prelude.{◌≡◌, ◌≤◌, ◌<◌, ◌↔◌, ◌++◌, ℕ, List, [], length, slice_get, Some, Err, IfOk, IfErr, IsTrue, IsFalse};
ghost use Rattle.slp_sockets.specs.Handing.{taken_in};
ghost use Rattle.slp_sockets.specs.Holding.{NoneSits, longest_stay};
ghost use Rattle.slp_sockets.specs.Readiness.{tokens_of};
ghost use Rattle.slp_sockets.specs.Sockets.{Waits};
ghost use Rattle.slp_sockets.specs.Turning.{AreServedAt, IsBegun, IsServedAt, IsStreamServed, IsTurn, IsWhole, SettlesFirst, SettlesLast, tended, turn_told};
ghost use Rattle.slp_sockets.specs.declared.fault.LoopFault.TheVariants.{Io as Failing};

use crate::clock::{Moments, SteadyClock};
use crate::datagrams::{DATAGRAMS, Datagrams};
use crate::fault::{LoopFault, is_want_of_memory};
use crate::lane::{Giver, Taker, hand_over, has_next, lane_to, take_over};
use crate::opening::{Parts, parts_at, poll_with};
use crate::serve::Serve;
use crate::streams::{LISTENER, Streams};
use addresses::Addr;
use mio::net::{TcpListener, UdpSocket};
use mio::{Events, Interest, Poll, Registry, Token};
use site_config::Config;
use std::alloc::Global;
use std::io;
use std::marker::Model;
use std::net::{self, Ipv4Addr, Net, SocketAddr};
use std::sync::Wait;
use std::sync::atomic::{AtomicBool, Ordering};
use std::time::{Clock, Duration};

/// The longest wait of a turn, in milliseconds.
const LONGEST_WAIT: u64 = 500;

/// The same where a message is put aside that waits for others.
const SHORT_WAIT: u64 = 1;

// Lets a stream go on, and then serves the datagrams that came while streams did.
fn serve_stream<S: Serve>(
    registry: &Registry,
    key: usize,
    datagrams: &mut Datagrams<UdpSocket>,
    streams: &mut Streams,
    server: &mut S,
) -> Result<(), LoopFault>
    ensures limit { streams.new.limit ≡ streams.old.limit }
    ensures served { IsStreamServed S.manner key (record { seats = streams.old.seats; server = server.old }) (record { seats = streams.new.seats; server = server.new }) }
{
    let told = streams.advance(registry, key, server);
    datagrams.serve_between(registry, server)?;
    told
}

// Serves the socket of an event.
fn serve_event<S: Serve>(
    registry: &Registry,
    token: Token,
    datagrams: &mut Datagrams<UdpSocket>,
    streams: &mut Streams,
    server: &mut S,
) -> Result<(), LoopFault>
    ensures limit { streams.new.limit ≡ streams.old.limit }
    ensures served { IsServedAt S.manner token.0 (record { seats = streams.old.seats; server = server.old }) (record { seats = streams.new.seats; server = server.new }) }
{
    if token.0 == DATAGRAMS.0 {
        let told = datagrams.serve(server);
        datagrams.note(told, registry)
    } else if token.0 == LISTENER.0 {
        streams.accept(registry)
    } else {
        serve_stream(registry, token.0, datagrams, streams, server)
    }
}

// Serves each socket that is ready, and answers whether it did: before each it looks whether the loop is to end. Want of memory is answered once all are
// served: an event that is left out is not reported again.
fn serve_events<S: Serve>(
    ready: (&Registry, &Events),
    datagrams: &mut Datagrams<UdpSocket>,
    streams: &mut Streams,
    server: &mut S,
    stop: &AtomicBool,
) -> Result<bool, LoopFault>
    ensures limit { streams.new.limit ≡ streams.old.limit }
    ensures served { (front : List ℕ) × (rest : List ℕ) × (tokens_of ready.entry.1.now ≡ front ++ rest) × (IsWhole result → rest ≡ [])
        × AreServedAt S.manner (record { seats = streams.old.seats; server = server.old }) front (record { seats = streams.new.seats; server = server.new }) }
{
    let (registry, events) = ready;
    datagrams.look(server);
    let mut outcome = Ok(true);
    for event in events.iter() {
        if stop.load(Ordering::SeqCst) {
            return Ok(false);
        }
        match serve_event(registry, event.token(), datagrams, streams, server) {
            Ok(()) => {}
            Err(LoopFault::Io) => return Err(LoopFault::Io),
            Err(fault) => outcome = Err(fault),
        }
    }
    outcome
}

// The longest wait of a turn, in milliseconds.
fn longest_wait<S: Serve>(
    datagrams: &Datagrams<UdpSocket>,
    streams: &Streams,
    takes: &mut Option<Taker>,
    server: &S,
) -> u64
    ensures { taken_in takes.new ≡ taken_in takes.old }
{
    if datagrams.has_ready(server) {
        0
    } else if datagrams.has_aside() || streams.has_aside() {
        SHORT_WAIT
    } else if has_next(takes) {
        0
    } else {
        LONGEST_WAIT
    }
}

// Whether a wait came to pass. No memory for it may pass; what else fails is the end of a loop.
fn has_waited(told: io::Result<()>) -> Result<bool, LoopFault>
    ensures { Waits told result }
{
    match told {
        Ok(()) => Ok(true),
        Err(e) if is_want_of_memory(&e) => Ok(false),
        Err(_) => Err(LoopFault::Io),
    }
}

// Waits until a socket is ready, so many milliseconds at most, and answers whether it could: nothing is ready where it could not.
fn wait_for(poll: &mut Poll, events: &mut Events, millis: u64) -> Result<bool, LoopFault>
    ensures fault { IfErr result (λ e. e ≡ Failing) }
    ensures none { IfOk result (λ told. IsFalse told → tokens_of events.new ≡ []) }
{
    has_waited(poll.poll(events, Some(Duration::from_millis(millis))))
}

// What a turn tells: that memory was wanting also where it could not wait.
fn told_after(has_waited: bool, told: Result<bool, LoopFault>) -> Result<bool, LoopFault>
    ensures { result ≡ turn_told has_waited told }
{
    match told {
        Ok(true) if !has_waited => Err(LoopFault::NoMemory),
        _ => told,
    }
}

// Whether a turn tells that its sockets are of no use any more. Want of memory may pass.
fn is_lost(told: Result<bool, LoopFault>) -> bool
    ensures { IsTrue result ↔ (told ≡ Err Failing) }
{
    told == Err(LoopFault::Io)
}

/// Serves the datagrams and the streams of one address.
pub struct AgentLoop<S: Serve + Drop> {
    poll: Poll,
    events: Events,
    datagrams: Datagrams<UdpSocket>,
    streams: Streams,
    // The socket once more, for a loop beside this one.
    socket: Option<UdpSocket>,
    gives: Option<Giver>,
    takes: Option<Taker>,
    server: S,
}

impl<S: Serve + Drop> Drop for AgentLoop<S> {
    fn drop(self) {
        let AgentLoop {
            poll: _,
            events: _,
            datagrams: _,
            streams: _,
            socket: _,
            gives: _,
            takes: _,
            server: _,
        } = self;
    }
}

impl<S: Serve + Drop> Model for AgentLoop<S> {
    ghost use Rattle.slp_sockets.specs.Holding.{Looping};
    ghost use Rattle.slp_sockets.specs.Readiness.{tokens_of};

    ghost Value = { Looping S };

    ghost view = { λ l. record { limit = l.streams.limit; held = l.streams.held; moment = l.streams.moment; seats = l.streams.seats; ready = tokens_of l.events; server = l.server } };
}

// The address and the port at a place of a configuration.
fn listened_at(config: &Config, place: usize) -> (Addr, u16)
    requires { place < length config.now.listen }
    ensures { slice_get config.now.listen place ≡ Some result }
{
    config.listen.as_slice()[place]
}

impl<S: Serve + Drop> AgentLoop<S> {
    /// A loop that listens at one of the addresses of a configuration, for datagrams and for streams. All its
    /// memory is taken here, but that of the streams and the answers.
    pub fn new<N: Net>(
        net: &N,
        alloc: Global,
        config: &Config,
        place: usize,
        server: S,
    ) -> Result<AgentLoop<S>, LoopFault>
        requires { place < length config.now.listen }
        ensures limit { IfOk result (λ l. l.limit ≡ config.now.connections) }
        ensures held { IfOk result (λ l. l.held ≡ 0) }
        ensures server { IfOk result (λ l. l.server ≡ server) }
    {
        let (own, port) = listened_at(config, place);
        let address = SocketAddr::from((Ipv4Addr::from_bits(own.0), port));
        match parts_at(net, alloc, address, config.connections) {
            Ok(parts) => Ok(AgentLoop::of(parts, server)),
            Err(fault) => {
                drop(server);
                Err(fault)
            }
        }
    }

    // A loop of these parts.
    fn of(parts: Parts, server: S) -> AgentLoop<S>
        ensures limit { result.limit ≡ parts.streams.limit }
        ensures held { result.held ≡ parts.streams.held }
        ensures server { result.server ≡ server }
    {
        let Parts {
            poll,
            events,
            datagrams,
            streams,
            socket,
            takes,
        } = parts;
        AgentLoop {
            poll,
            events,
            datagrams,
            streams,
            socket,
            gives: None,
            takes,
            server,
        }
    }

    // The parts of a loop beside this one.
    fn parts_beside<N: Net>(&mut self, net: &N, alloc: Global) -> Result<Parts, LoopFault>
        ensures limit { IfOk result (λ p. p.streams.limit ≡ self.old.limit) }
        ensures held { IfOk result (λ p. p.streams.held ≡ 0) }
        ensures kept { self.new ≡ self.old }
    {
        let (poll, events) = poll_with(net, alloc)?;
        let streams = Streams::new(alloc, None, self.streams.limit())?;
        let Some(socket) = self.socket.take() else {
            return Err(LoopFault::Io);
        };
        let datagrams = Datagrams::new(alloc, socket)?;
        let (giver, taker) = lane_to(alloc, poll.registry())?;
        self.gives = Some(giver);
        Ok(Parts {
            poll,
            events,
            datagrams,
            streams,
            socket: None,
            takes: Some(taker),
        })
    }

    /// A loop beside this one, which answers what would take long here, from the same address. Streams come to it from this one alone. This one
    /// can have one such loop.
    pub fn beside<N: Net>(
        &mut self,
        net: &N,
        alloc: Global,
        server: S,
    ) -> Result<AgentLoop<S>, LoopFault>
        ensures limit { IfOk result (λ l. l.limit ≡ self.old.limit) }
        ensures held { IfOk result (λ l. l.held ≡ 0) }
        ensures server { IfOk result (λ l. l.server ≡ server) }
        ensures kept { self.new ≡ self.old }
    {
        match self.parts_beside(net, alloc) {
            Ok(parts) => Ok(AgentLoop::of(parts, server)),
            Err(fault) => {
                drop(server);
                Err(fault)
            }
        }
    }

    /// The address that it listens at.
    pub fn address(&self) -> io::Result<SocketAddr> {
        self.streams.address()
    }

    /// The number of connections.
    pub fn connections(&self) -> usize
        ensures held { result ≡ self.now.held }
        ensures within { result ≤ self.now.limit }
    {
        self.streams.len()
    }

    /// Waits until a socket is ready, for 500 ms at most, or 1 where a message that was put aside waits for others, and serves what was put aside and what is ready. Then each stream is closed that has sat there for 300 seconds
    /// of a steady clock. `Io` is answered only where the wait failed, or a socket of the loop's own is of no use any more. `NoMemory` is answered once all is served that
    /// was ready: a connection that found none is closed. Once the flag is set no more is served, and it answers no.
    pub fn turn<M: Moments>(&mut self, steady: &mut M, stop: &AtomicBool) -> Result<bool, LoopFault>
        ensures limit { self.new.limit ≡ self.old.limit }
        ensures none { NoneSits longest_stay self.new.moment self.new.seats }
        ensures served { SettlesFirst S.manner (tended self.old) (tended self.new) }
        ensures whole { IsWhole result → IsTurn S.manner (tended self.old) self.new.ready (tended self.new) }
    {
        let told = match self.begin(steady, stop) {
            Ok(waited) => {
                let told = serve_events(
                    (self.poll.registry(), &self.events),
                    &mut self.datagrams,
                    &mut self.streams,
                    &mut self.server,
                    stop,
                );
                told_after(waited, told)
            }
            Err(fault) => Err(fault),
        };
        self.streams.close_still();
        told
    }

    // Has the lines of the last turn out, waits, and serves what could not be served then. Answers whether it could wait.
    fn begin<M: Moments>(&mut self, steady: &mut M, stop: &AtomicBool) -> Result<bool, LoopFault>
        ensures limit { self.new.limit ≡ self.old.limit }
        ensures fault { IfErr result (λ e. e ≡ Failing) }
        ensures served { SettlesFirst S.manner (tended self.old) (tended self.new) }
        ensures begun { IfOk result (λ _. IsBegun S.manner (tended self.old) (tended self.new)) }
    {
        self.server.settle();
        let wait = longest_wait(
            &self.datagrams,
            &self.streams,
            &mut self.takes,
            &self.server,
        );
        let waited = wait_for(&mut self.poll, &mut self.events, wait)?;
        self.streams.go_on_to(steady.now());
        self.streams.accept_again(self.poll.registry())?;
        hand_over(
            self.poll.registry(),
            &mut self.gives,
            &mut self.datagrams,
            &mut self.streams,
            &mut self.server,
        );
        take_over(
            self.poll.registry(),
            &mut self.takes,
            &mut self.datagrams,
            &mut self.streams,
        );
        self.datagrams.take_up(&mut self.server);
        self.streams
            .resume(self.poll.registry(), &mut self.server, stop);
        self.datagrams
            .serve_again(self.poll.registry(), &mut self.server)?;
        Ok(waited)
    }

    /// Takes turns until the flag is set, or a turn answers `Io`, which is its only fault. What was told of the last
    /// messages is handed over then.
    pub fn run<R: Wait + Clock>(&mut self, rt: &R, stop: &AtomicBool) -> Result<(), LoopFault>
        ensures limit { self.new.limit ≡ self.old.limit }
        ensures fault { IfErr result (λ e. e ≡ Failing) }
        ensures served { SettlesLast S.manner (tended self.old) (tended self.new) }
    {
        let mut steady = SteadyClock::new(rt);
        for _ in rt.forever() {
            if stop.load(Ordering::SeqCst) {
                self.server.settle();
                return Ok(());
            }
            let told = self.turn(&mut steady, stop);
            if is_lost(told) {
                self.server.settle();
                return Err(LoopFault::Io);
            }
            if told.is_err() {
                rt.sleep(Duration::from_millis(SHORT_WAIT));
            }
        }
        unreachable!()
    }
}
