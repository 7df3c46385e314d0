//! The datagrams of a loop: they are received, served and answered together.
ghost use Rattle.std.specs.Prelude.{◌≡◌, ◌≢◌, ◌⊎◌, ◌↔◌, ◌≤◌, ◌++◌, ◌∷◌, ℕ, [], take, map, length, List, Option, Bool, false, IfErr, IfOk, IsTrue, IsFalse, MatchOption};
ghost use Rattle.std.specs.declared.io.Error.{Error};
ghost use Rattle.slp_sockets.specs.Ports.{Datagram, Happening, Came, Left, Runs, ServedFor, IsTimed, IsMet, MayBePut, AreMet, AreStillAside, IsTakenUp, IsRound, ServesRound, TriesRound, Says, IsThrough, owed, pausing};
ghost use Rattle.slp_sockets.specs.Ports as spec;
ghost use Rattle.rtrb.specs.Ring.{sent};
ghost use Rattle.slp_sockets.specs.Handing.{AreMailed, given_by, taken_by};
ghost use Rattle.slp_sockets.specs.Taking.{TakesNext};
ghost use Rattle.slp_sockets.specs.declared.lane.Handed.TheVariants.{Mail as Mailed};
ghost use Rattle.slp_sockets.specs.Exchanging.{datagram, datagrams, back, dues, all_dues, received_into, Stopped};
ghost use Rattle.slp_sockets.specs.declared.fault.LoopFault.TheVariants.{Io as Failing};

use crate::exchange::{Back, Exchange, Rest};
use crate::fault::{LoopFault, is_socket_lost};
use crate::lane::{Giver, Handed, Taker};
use crate::peer::Peer;
use crate::port::Port;
use crate::serve::{Serve, Settled, settle};
use addresses::Addr;
use mio::net::{TcpStream, UdpSocket};
use mio::{Interest, Registry, Token};
use slp_replies::refused_reply;
use std::alloc::{AllocError, Global};
use std::collections::VecDeque;
use std::io::{self, ErrorKind};
use std::marker::Model;
use std::net::SocketAddr;

/// The token of the socket.
pub const DATAGRAMS: Token = Token(0xffff_ffff_ffff_fffe);

/// The bytes that one datagram may take back.
const LONGEST_REPLY: usize = 1_400;

/// How many datagrams one event may bring. They are received before the first is served, and served before the first answer is
/// sent: more of them are answered a second so than one by one. What is left is reported again, so that the streams get their turn.
const TOGETHER: usize = 16;

/// How many microseconds a datagram may take, for which those that came with it do not wait: longer, and they have their turn after the streams.
const LATE: u64 = 1_000;

/// Where more datagrams are put aside, no more are received, or taken over.
const MOST_ASIDE: usize = 48;

// What a socket has after a failed receive, unless the socket itself is of no use any more.
fn rest_after(error: &io::Error) -> Result<Rest, LoopFault>
    ensures { Says error.now result }
{
    if is_socket_lost(error) {
        return Err(LoopFault::Io);
    }
    match error.kind() {
        ErrorKind::WouldBlock => Ok(Rest::Nothing),
        ErrorKind::Interrupted => Ok(Rest::More),
        _ => Ok(Rest::Later),
    }
}

// Sends these bytes, where there are any.
fn hand<P: Port>(port: &mut P, settled: &Settled, bytes: &[u8], peer: SocketAddr)
    ensures { Runs P.may port.old (map Left (owed peer bytes.now)) port.new }
{
    if !bytes.is_empty() {
        port.send(settled, bytes, peer);
    }
}

// Who asks by a datagram from there.
fn asker_of(peer: SocketAddr) -> Option<Addr>
    ensures { result ≡ spec.asker_of peer }
{
    match peer {
        SocketAddr::V4(v4) => Some(Addr(v4.ip().to_bits())),
        SocketAddr::V6(_) => None,
    }
}

impl Exchange {
    // Takes the next datagram.
    fn receive<P: Port>(&mut self, port: &mut P) -> io::Result<()>
        ensures { P.may port.old (received_into result self.new) port.new }
    {
        let (length, from) = port.receive(self.buffer.as_mut_slice())?;
        self.length = length;
        self.from = from;
        Ok(())
    }

    // Serves it, where its sender may ask.
    fn serve<S: Serve>(&mut self, server: &mut S)
        ensures kept { datagram self.new ≡ datagram self.old }
        ensures served { ServedFor S.manner (spec.asker_of self.old.from) server.old (datagram self.old).bytes (back self.new) server.new }
    {
        let Some(asker) = asker_of(self.from) else {
            self.back = Back::Nothing;
            return;
        };
        let message = &self.buffer[..self.length];
        self.back = match server.serve(asker, message, LONGEST_REPLY, &mut self.answer) {
            Ok(_) => Back::Answered,
            Err(_) => Back::Refused,
        };
    }

    // Puts it aside, behind those that are, and answers whether there was memory for that. Then it is one into which nothing came.
    fn put_aside(&mut self, aside: &mut VecDeque<Exchange>) -> bool
        ensures put { IsTrue result → (aside.new.items ≡ aside.old.items ++ self.old ∷ []) × (dues self.new ≡ []) }
        ensures kept { IsFalse result → (aside.new.items ≡ aside.old.items) × (self.new ≡ self.old) }
    {
        let Ok(other) = Exchange::new(*self.buffer.allocator()) else {
            return false;
        };
        match aside.push_back(std::mem::replace(self, other)) {
            Ok(()) => true,
            Err(refused) => {
                *self = refused.value;
                false
            }
        }
    }

    // Serves it, and answers whether that took long.
    fn serve_timed<S: Serve>(&mut self, server: &mut S) -> bool
        ensures kept { datagram self.new ≡ datagram self.old }
        ensures served { IsTimed S.manner server.old (datagram self.old) (back self.new) (record { server = server.new; is_late = result }) }
    {
        if !server.may_last(&self.buffer[..self.length]) {
            self.serve(server);
            return false;
        }
        let began = server.micros();
        self.serve(server);
        server.micros().saturating_sub(began) > LATE
    }

    // What came.
    fn message(&self) -> &[u8]
        ensures { result.now ≡ (datagram self.now).bytes }
    {
        &self.buffer[..self.length]
    }

    // Whether it is put aside: one before it took long, or it would wait, or another loop is to serve it.
    fn is_put_aside<S: Serve>(&self, is_late: bool, server: &mut S) -> bool
        ensures kept { server.new ≡ server.old }
        ensures may { IsTrue result → MayBePut S.manner is_late (datagram self.now) }
    {
        is_late || server.waits(self.message()) || server.is_long(self.message())
    }

    // Serves it, and answers whether that took long; or puts it aside, where it may be and there is memory for that.
    fn meet<S: Serve>(
        &mut self,
        is_late: bool,
        aside: &mut VecDeque<Exchange>,
        server: &mut S,
    ) -> bool
        ensures { (bytes : List ℕ) × (put : List Datagram) × (dues self.new ≡ owed self.old.from bytes) × (datagrams aside.new.items ≡ datagrams aside.old.items ++ put)
            × IsMet S.manner (record { server = server.old; is_late = is_late }) (datagram self.old) bytes put (record { server = server.new; is_late = result }) }
    {
        if self.is_put_aside(is_late, server) && self.put_aside(aside) {
            return is_late;
        }
        self.serve_timed(server)
    }

    // Sends what goes back.
    fn send<P: Port>(&self, port: &mut P, settled: &Settled)
        ensures { Runs P.may port.old (map Left (dues self.now)) port.new }
    {
        match self.back {
            Back::Nothing => {}
            Back::Answered => hand(port, settled, self.answer.bytes.as_slice(), self.from),
            Back::Refused => {
                let reply = refused_reply(&self.buffer[..self.length]);
                hand(port, settled, reply.as_slice(), self.from);
            }
        }
    }
}

// Takes datagrams, one for each exchange: how many, and what the socket has then.
fn receive_all<P: Port>(
    exchanges: &mut [Exchange],
    port: &mut P,
) -> (usize, Result<Rest, LoopFault>)
    ensures within { result.0 ≤ length exchanges.new }
    ensures received { (pause : Option Error) × Runs P.may port.old (map Came (datagrams (take result.0 exchanges.new)) ++ pausing pause) port.new × Stopped result.0 (length exchanges.new) result.1 pause }
{
    let mut count = 0;
    for exchange in exchanges.iter_mut() {
        if let Err(e) = exchange.receive(port) {
            return (count, rest_after(&e));
        }
        count += 1;
    }
    (count, Ok(Rest::More))
}

// Serves those that were received, in their order, or puts them aside: those behind one that took long, and those that would wait.
fn serve_all<S: Serve>(exchanges: &mut [Exchange], aside: &mut VecDeque<Exchange>, server: &mut S)
    ensures { (is_late : Bool) × (put : List Datagram) × (datagrams aside.new.items ≡ datagrams aside.old.items ++ put)
        × AreMet S.manner (record { server = server.old; is_late = false }) (datagrams exchanges.old) (all_dues exchanges.new) put (record { server = server.new; is_late = is_late }) }
{
    let mut is_late = false;
    for exchange in exchanges.iter_mut() {
        is_late = exchange.meet(is_late, aside, server);
    }
}

// Sends what goes back for each, in their order.
fn send_all<P: Port>(exchanges: &[Exchange], port: &mut P, settled: Settled)
    ensures { Runs P.may port.old (map Left (all_dues exchanges.now)) port.new }
{
    for exchange in exchanges {
        exchange.send(port, &settled);
    }
}

// Receives as many as there are exchanges, at most, and answers them, but for those that are put aside. The lines of all are handed over before the first answer leaves.
fn serve_round<P: Port, S: Serve>(
    exchanges: &mut [Exchange],
    aside: &mut VecDeque<Exchange>,
    port: &mut P,
    server: &mut S,
) -> Result<Rest, LoopFault>
    requires { length exchanges.old ≡ 16 }
    ensures { (hs : List Happening) × Runs P.may port.old hs port.new × IsRound S.manner server.old (datagrams aside.old.items) hs server.new (datagrams aside.new.items) × IsThrough 16 result hs }
{
    let (count, told) = receive_all(exchanges, port);
    let front = &mut exchanges[..count];
    serve_all(front, aside, server);
    let settled = settle(server);
    send_all(front, port, settled);
    told
}

// Takes out the first that is put aside, unless it would wait still.
fn next_aside<S: Serve>(aside: &mut VecDeque<Exchange>, server: &S) -> Option<Exchange>
    ensures { MatchOption result ((aside.new.items ≡ aside.old.items) × AreStillAside S.manner false (datagrams aside.old.items)) (λ e. aside.old.items ≡ e ∷ aside.new.items) }
{
    let first = aside.front()?;
    if server.waits(first.message()) {
        return None;
    }
    aside.pop_front()
}

// Serves those that are put aside, in their order, up to the first that would wait still, or that took long. The lines of each are handed over before its answer leaves.
fn take_up_all<P: Port, S: Serve>(aside: &mut VecDeque<Exchange>, port: &mut P, server: &mut S)
    ensures { (hs : List Happening) × Runs P.may port.old hs port.new × IsTakenUp S.manner server.old (datagrams aside.old.items) hs server.new (datagrams aside.new.items) }
{
    while let Some(mut first) = next_aside(aside, server) {
        let is_late = first.serve_timed(server);
        first.send(port, &settle(server));
        if is_late {
            return;
        }
    }
}

// Hands the first that is put aside over, where to serve it would take long and there is room, and answers whether it has.
fn give_front<S: Serve>(aside: &mut VecDeque<Exchange>, server: &mut S, giver: &mut Giver) -> bool
    ensures server { server.new ≡ server.old }
    ensures given { IsTrue result → (e : Exchange) × (aside.old.items ≡ e ∷ aside.new.items) × S.manner.may_last (datagram e).bytes × (sent giver.new.producer ≡ sent giver.old.producer ++ Mailed e ∷ []) }
    ensures kept { IsFalse result → (aside.new.items ≡ aside.old.items) × (sent giver.new.producer ≡ sent giver.old.producer) }
{
    let Some(first) = aside.front() else {
        return false;
    };
    if !server.is_long(first.message()) || !giver.has_room() {
        return false;
    }
    match aside.pop_front() {
        Some(first) => {
            giver.give(Handed::Mail(first));
            true
        }
        None => unreachable!(),
    }
}

// Hands those in front over, while there is room.
fn give_all<S: Serve>(aside: &mut VecDeque<Exchange>, server: &mut S, giver: &mut Giver)
    ensures server { server.new ≡ server.old }
    ensures given { (ds : List Datagram) × AreMailed S.manner (datagrams aside.old.items) (given_by giver.old) ds (given_by giver.new) (datagrams aside.new.items) }
{
    while give_front(aside, server, giver) {}
}

/// What came of a try to take over.
#[derive(Drop)]
pub(crate) enum Taken {
    /// There is nothing, or no memory for it now.
    Nothing,
    /// A datagram: it is put aside.
    Mail,
    Stream(Peer<TcpStream>),
}

// Takes over what comes next, where there is memory for it and not too much is put aside.
fn take_next(aside: &mut VecDeque<Exchange>, taker: &mut Taker) -> Taken
    ensures { TakesNext (datagrams aside.old.items) (taken_by taker.old) result (datagrams aside.new.items) (taken_by taker.new) }
{
    if aside.len() > MOST_ASIDE || aside.reserve(1).is_err() {
        return Taken::Nothing;
    }
    match taker.take() {
        None => Taken::Nothing,
        Some(Handed::Stream(peer)) => Taken::Stream(peer),
        Some(Handed::Mail(exchange)) => match aside.push_back(exchange) {
            Ok(()) => Taken::Mail,
            Err(_) => unreachable!(),
        },
    }
}

/// A socket of datagrams, with what serving takes. Contracts see the socket, and the datagrams that are put aside.
pub struct Datagrams<P: Port + Drop> {
    port: P,
    exchanges: Vec<Exchange>,
    aside: VecDeque<Exchange>,
    // Whether a datagram may wait that no event will report.
    receives_again: bool,
    // When it was last looked whether one waits, in microseconds of the server's clock.
    looked: u64,
}

impl<P: Port + Drop> Drop for Datagrams<P> {
    fn drop(self) {
        let Datagrams {
            port: _,
            exchanges: _,
            aside: _,
            receives_again: _,
            looked: _,
        } = self;
    }
}

impl<P: Port + Drop> Model for Datagrams<P> {
    ghost use Rattle.std.specs.Prelude.{◌≡◌, length};
    ghost use Rattle.slp_sockets.specs.Exchanging.{Mailbox, datagrams};

    ghost Value = { Mailbox P };

    ghost view = { λ d. record { port = d.port; aside = datagrams d.aside.items } };

    ghost invariant = { λ d. length d.exchanges.items ≡ 16 };
}

impl<P: Port + Drop> Datagrams<P> {
    pub fn new(alloc: Global, port: P) -> Result<Datagrams<P>, AllocError>
        ensures { IfOk result (λ d. d ≡ record { port = port; aside = [] }) }
    {
        let mut exchanges = Vec::with_capacity(alloc, TOGETHER)?;
        for _ in 0..TOGETHER {
            exchanges.push(Exchange::new(alloc)?)?;
        }
        Ok(Datagrams {
            port,
            exchanges,
            aside: VecDeque::new(alloc),
            receives_again: false,
            looked: 0,
        })
    }

    /// Serves what has come, 16 datagrams at most, or puts it aside: what the socket has then, or `Io` where the socket itself failed. Where over 48 are put
    /// aside, the others wait in the socket.
    pub fn serve<S: Serve>(&mut self, server: &mut S) -> Result<Rest, LoopFault>
        ensures { (hs : List Happening) × Runs P.may self.old.port hs self.new.port × TriesRound S.manner server.old self.old.aside hs result server.new self.new.aside }
    {
        if self.aside.len() > MOST_ASIDE {
            return Ok(Rest::Later);
        }
        serve_round(
            self.exchanges.as_mut_slice(),
            &mut self.aside,
            &mut self.port,
            server,
        )
    }

    /// Serves those that were put aside, in their order, up to the first that would wait still, or that took long.
    pub fn take_up<S: Serve>(&mut self, server: &mut S)
        ensures { (hs : List Happening) × Runs P.may self.old.port hs self.new.port × IsTakenUp S.manner server.old self.old.aside hs server.new self.new.aside }
    {
        take_up_all(&mut self.aside, &mut self.port, server);
    }

    /// Hands those in front that are put aside over, where to serve them would take long, while there is room.
    pub(crate) fn give<S: Serve>(&mut self, server: &mut S, giver: &mut Giver)
        ensures server { server.new ≡ server.old }
        ensures port { self.new.port ≡ self.old.port }
        ensures given { (ds : List Datagram) × AreMailed S.manner self.old.aside (given_by giver.old) ds (given_by giver.new) self.new.aside }
    {
        give_all(&mut self.aside, server, giver);
    }

    /// Takes over what comes next.
    pub(crate) fn take_next(&mut self, taker: &mut Taker) -> Taken
        ensures port { self.new.port ≡ self.old.port }
        ensures taken { TakesNext self.old.aside (taken_by taker.old) result self.new.aside (taken_by taker.new) }
    {
        take_next(&mut self.aside, taker)
    }

    /// Whether any are put aside.
    pub fn has_aside(&self) -> bool
        ensures { IsTrue result ↔ (self.now.aside ≢ []) }
    {
        !self.aside.is_empty()
    }

    /// Whether one is put aside that would wait no more.
    pub fn has_ready<S: Serve>(&self, server: &S) -> bool {
        match self.aside.front() {
            Some(first) => !server.waits(first.message()),
            None => false,
        }
    }
}

impl Datagrams<UdpSocket> {
    /// Has what serving left reported again, or notes that no event will report it. `Io` where the socket itself failed.
    pub fn note(
        &mut self,
        told: Result<Rest, LoopFault>,
        registry: &Registry,
    ) -> Result<(), LoopFault>
        requires { IfErr told (λ e. e ≡ Failing) }
        ensures { IfErr result (λ e. e ≡ Failing) }
    {
        let rest = told?;
        self.receives_again = match rest {
            Rest::Nothing => false,
            Rest::More => registry
                .reregister(&mut self.port, DATAGRAMS, Interest::READABLE)
                .is_err(),
            Rest::Later => true,
        };
        Ok(())
    }

    /// Serves what could not be received at the last try.
    pub fn serve_again<S: Serve>(
        &mut self,
        registry: &Registry,
        server: &mut S,
    ) -> Result<(), LoopFault>
        ensures fault { IfErr result (λ e. e ≡ Failing) }
        ensures served { ServesRound S.manner server.old server.new ⊎ (server.new ≡ server.old) }
    {
        if !self.receives_again {
            return Ok(());
        }
        let told = self.serve(server);
        self.note(told, registry)
    }

    /// Begins a turn, whose events tell whether one waits.
    pub fn look<S: Serve>(&mut self, server: &S)
        ensures { self.new ≡ self.old }
    {
        self.looked = server.micros();
    }

    /// Serves what came meanwhile, where the last look was a millisecond ago: so no datagram waits for all the streams of a turn.
    pub fn serve_between<S: Serve>(
        &mut self,
        registry: &Registry,
        server: &mut S,
    ) -> Result<(), LoopFault>
        ensures fault { IfErr result (λ e. e ≡ Failing) }
        ensures served { ServesRound S.manner server.old server.new ⊎ (server.new ≡ server.old) }
    {
        let now = server.micros();
        if now.saturating_sub(self.looked) <= LATE {
            return Ok(());
        }
        self.looked = now;
        let told = self.serve(server);
        self.note(told, registry)
    }
}
