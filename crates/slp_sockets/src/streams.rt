ghost use Rattle.std.specs.Prelude.{◌≡◌, ◌⊎◌, ◌≤◌, ◌<◌, ◌+◌, ◌↔◌, ℕ, List, [], true, false, Some, pos, IfErr, IfOk, IsTrue, IsFalse, MatchResult};
ghost use Rattle.std_io.specs.IoError.{raw_os_error};
ghost use Rattle.slab.specs.Slab.{slab_len};
ghost use Rattle.slp_sockets.specs.Holding.{HasNoOther, IsStillest, KeepsOthers, NoneSits, least_stay, longest_stay, moment_of};
ghost use Rattle.slp_sockets.specs.Holding as holding;
ghost use Rattle.slp_sockets.specs.Handing.{AreGiven, Joins, given_by};
ghost use Rattle.slp_sockets.specs.Linking.{has_message};
ghost use Rattle.slp_sockets.specs.Sitting.{seat, seats};
ghost use Rattle.slp_sockets.specs.Sockets.{IsLost};
ghost use Rattle.slp_sockets.specs.Turning.{AdvancesAt, Admits, ComeOrGo, Keeps, Resumes, ServesAt};
ghost use Rattle.slp_sockets.specs.Turning as turning;
ghost use Rattle.slp_sockets.specs.declared.fault.LoopFault.TheVariants.{Io as Failing};

use crate::connection::Next;
use crate::fault::{LoopFault, is_socket_lost};
use crate::lane::{Giver, give_streams};
use crate::peer::Peer;
use crate::serve::Serve;
use addresses::Addr;
use libc::EMFILE;
use mio::net::{TcpListener, TcpStream};
use mio::{Interest, Registry, Token};
use slab::Slab;
use std::alloc::{AllocError, Global};
use std::io::{self, ErrorKind};
use std::marker::Model;
use std::net::SocketAddr;
use std::sync::atomic::{AtomicBool, Ordering};

/// The token of the listener. A connection's is its key.
pub const LISTENER: Token = Token(0xffff_ffff_ffff_ffff);

/// How many connections an event may bring. What is left is reported again, so that the streams that are there get their turn.
const ACCEPTED_AT_ONCE: usize = 64;

/// For how many seconds a stream may sit there: no message comes whole on it, and none of the bytes that wait is written.
const LONGEST_STAY: u32 = 300;

/// The same where every place is taken, and another peer comes.
const LEAST_STAY: u32 = 60;

/// The streams of a loop, of which there are never more than the limit.
pub struct Streams {
    alloc: Global,
    // None where streams come from another loop alone.
    listener: Option<TcpListener>,
    peers: Slab<Peer<TcpStream>>,
    limit: usize,
    // Whether a connection may wait that no event will report.
    accepts_again: bool,
    // Whether a message of a stream was put aside since they were last resumed.
    has_aside: bool,
    // The moment of the loop's own clock, and the one at which it was looked which streams sit there.
    moment: u32,
    looked: u32,
}

impl Drop for Streams {
    fn drop(self) {
        let Streams {
            alloc: _,
            listener: _,
            peers: _,
            limit: _,
            accepts_again: _,
            has_aside: _,
            moment: _,
            looked: _,
        } = self;
    }
}

impl Model for Streams {
    ghost use Rattle.std.specs.Prelude.{◌≤◌};
    ghost use Rattle.slab.specs.Slab.{slab_len};
    ghost use Rattle.slp_sockets.specs.Holding.{Held, NoneSits, longest_stay};
    ghost use Rattle.slp_sockets.specs.Sitting.{seats};

    ghost Value = { Held };

    ghost view = { λ s. record { limit = s.limit; held = slab_len s.peers; moment = s.moment; seats = seats s.peers } };

    ghost invariant = { λ s. (slab_len s.peers ≤ s.limit) × (s.limit ≤ s.peers.capacity) × (s.looked ≤ s.moment) × NoneSits longest_stay s.looked (seats s.peers) };
}

impl Streams {
    pub fn new(
        alloc: Global,
        listener: Option<TcpListener>,
        limit: usize,
    ) -> Result<Streams, AllocError>
        ensures limit { IfOk result (λ s. s.limit ≡ limit) }
        ensures held { IfOk result (λ s. s.held ≡ 0) }
    {
        Ok(Streams {
            alloc,
            listener,
            peers: Slab::with_capacity(alloc, limit)?,
            limit,
            accepts_again: false,
            has_aside: false,
            moment: 0,
            looked: 0,
        })
    }

    /// The loop's own clock goes on to this moment, in seconds.
    pub fn go_on_to(&mut self, moment: u32)
        ensures later { moment ≤ self.new.moment }
        ensures no_other { (self.new.moment ≡ self.old.moment) ⊎ (self.new.moment ≡ moment) }
        ensures kept { self.new ≡ record self.old { moment = self.new.moment } }
    {
        self.moment = self.moment.max(moment);
    }

    /// Closes each stream that has sat there for 300 seconds.
    pub fn close_still(&mut self)
        ensures none { NoneSits longest_stay self.new.moment self.new.seats }
        ensures kept { KeepsOthers longest_stay self.old.moment self.old.seats self.new.seats }
        ensures only { HasNoOther self.old.seats self.new.seats }
        ensures moment { self.new.moment ≡ self.old.moment }
        ensures limit { self.new.limit ≡ self.old.limit }
    {
        if self.looked == self.moment {
            return;
        }
        close_all_still(&mut self.peers, self.moment);
        self.looked = self.moment;
    }

    // Closes the stream that has sat there longest, where that is 60 seconds, and answers whether there is a place now.
    fn give_place(&mut self) -> bool
        ensures room { IsTrue result → self.new.held < self.new.limit }
        ensures closed { IsTrue result → self.new.held + 1 ≡ self.old.held }
        ensures gives { IsFalse result → NoneSits least_stay self.new.moment self.new.seats }
        ensures moment { self.new.moment ≡ self.old.moment }
        ensures kept { KeepsOthers least_stay self.old.moment self.old.seats self.new.seats }
        ensures only { HasNoOther self.old.seats self.new.seats }
        ensures limit { self.new.limit ≡ self.old.limit }
    {
        let key = stillest(&self.peers);
        close_where_still(&mut self.peers, key, self.moment, LEAST_STAY)
    }

    // Whether there is a place, if need be that of a stream that sits there.
    fn has_place(&mut self) -> bool
        ensures room { IsTrue result → self.new.held < self.new.limit }
        ensures taken { IsFalse result → (self.old.limit ≤ self.old.held) × NoneSits least_stay self.new.moment self.new.seats }
        ensures kept { KeepsOthers least_stay self.old.moment self.old.seats self.new.seats }
        ensures only { HasNoOther self.old.seats self.new.seats }
        ensures moment { self.new.moment ≡ self.old.moment }
        ensures limit { self.new.limit ≡ self.old.limit }
    {
        self.peers.len() < self.limit || self.give_place()
    }

    /// The most streams that there may be.
    pub fn limit(&self) -> usize
        ensures { result ≡ self.now.limit }
    {
        self.limit
    }

    /// The address of the listener, where there is one.
    pub fn address(&self) -> io::Result<SocketAddr> {
        match &self.listener {
            Some(listener) => listener.local_addr(),
            None => Err(io::Error::from(ErrorKind::AddrNotAvailable)),
        }
    }

    // The next stream that waits.
    fn next(&self) -> io::Result<(TcpStream, SocketAddr)> {
        match &self.listener {
            Some(listener) => listener.accept(),
            None => Err(io::Error::from(ErrorKind::WouldBlock)),
        }
    }

    // Has streams that wait still reported again.
    fn wait_again(&mut self, registry: &Registry) -> io::Result<()>
        ensures { self.new ≡ self.old }
    {
        match &mut self.listener {
            Some(listener) => registry.reregister(listener, LISTENER, Interest::READABLE),
            None => Ok(()),
        }
    }

    pub fn len(&self) -> usize
        ensures held { result ≡ self.now.held }
        ensures within { result ≤ self.now.limit }
    {
        self.peers.len()
    }

    // Keeps a stream that comes, or closes it where no place is to be had or it cannot be waited for.
    fn keep(&mut self, registry: &Registry, mut peer: Peer<TcpStream>)
        requires now { peer.moved ≡ self.old.moment }
        ensures limit { self.new.limit ≡ self.old.limit }
        ensures moment { self.new.moment ≡ self.old.moment }
        ensures keeps { Keeps (seat peer) self.old.seats self.new.seats }
        ensures kept { KeepsOthers least_stay self.old.moment self.old.seats self.new.seats }
    {
        if !self.has_place() {
            return;
        }
        if peer.wait(registry, self.peers.vacant_key()).is_err() {
            return;
        }
        self.peers.insert_reserved(peer);
    }

    // Keeps a new stream, or closes it unread.
    fn admit(&mut self, registry: &Registry, stream: TcpStream, from: SocketAddr)
        ensures limit { self.new.limit ≡ self.old.limit }
        ensures moment { self.new.moment ≡ self.old.moment }
        ensures admits { Admits from self.old.moment self.old.seats self.new.seats }
        ensures kept { KeepsOthers least_stay self.old.moment self.old.seats self.new.seats }
    {
        let SocketAddr::V4(v4) = from else {
            return;
        };
        // Without it a short reply may wait; where it is refused, it is only slower.
        let _ = stream.set_nodelay(true);
        let asker = Addr(v4.ip().to_bits());
        let peer = Peer::new(self.alloc, stream, asker, self.moment);
        self.keep(registry, peer);
    }

    // What is told where a stream could not be accepted: whether the listener itself failed. Where no descriptor is left, the stream that has sat there longest gives
    // its own, where that is 60 seconds.
    fn unaccepted(&mut self, error: &io::Error) -> Result<(), LoopFault>
        ensures told { MatchResult result (λ _. ¬ IsLost (raw_os_error error.now)) (λ e. IsLost (raw_os_error error.now) × (e ≡ Failing)) }
        ensures gives { raw_os_error error.now ≡ Some (pos 24) → (self.new.held + 1 ≡ self.old.held) ⊎ NoneSits least_stay self.new.moment self.new.seats }
        ensures limit { self.new.limit ≡ self.old.limit }
        ensures moment { self.new.moment ≡ self.old.moment }
        ensures only { HasNoOther self.old.seats self.new.seats }
        ensures kept { KeepsOthers least_stay self.old.moment self.old.seats self.new.seats }
    {
        if is_socket_lost(error) {
            return Err(LoopFault::Io);
        }
        if error.raw_os_error() == Some(EMFILE) {
            self.give_place();
        }
        Ok(())
    }

    /// Accepts what waits. `Io` where the listener itself failed.
    pub fn accept(&mut self, registry: &Registry) -> Result<(), LoopFault>
        ensures fault { IfErr result (λ e. e ≡ Failing) }
        ensures limit { self.new.limit ≡ self.old.limit }
        ensures moment { self.new.moment ≡ self.old.moment }
        ensures come { ComeOrGo self.old.seats self.new.seats }
        ensures kept { KeepsOthers least_stay self.old.moment self.old.seats self.new.seats }
    {
        self.accepts_again = false;
        for _ in 0..ACCEPTED_AT_ONCE {
            match self.next() {
                Ok((stream, from)) => self.admit(registry, stream, from),
                Err(e) => match e.kind() {
                    ErrorKind::WouldBlock => return Ok(()),
                    ErrorKind::Interrupted | ErrorKind::ConnectionAborted => {}
                    _ => {
                        self.accepts_again = true;
                        return self.unaccepted(&e);
                    }
                },
            }
        }
        self.accepts_again = self.wait_again(registry).is_err();
        Ok(())
    }

    /// Accepts where the last try found no means to.
    pub fn accept_again(&mut self, registry: &Registry) -> Result<(), LoopFault>
        ensures fault { IfErr result (λ e. e ≡ Failing) }
        ensures limit { self.new.limit ≡ self.old.limit }
        ensures moment { self.new.moment ≡ self.old.moment }
        ensures come { ComeOrGo self.old.seats self.new.seats }
        ensures kept { KeepsOthers least_stay self.old.moment self.old.seats self.new.seats }
    {
        if self.accepts_again {
            self.accept(registry)
        } else {
            Ok(())
        }
    }

    /// Lets a connection go on, and drops it where it is closed or failed. An event may be one of an
    /// earlier connection with this key: then nothing is there to be read.
    pub fn advance<S: Serve>(
        &mut self,
        registry: &Registry,
        key: usize,
        server: &mut S,
    ) -> Result<(), LoopFault>
        ensures limit { self.new.limit ≡ self.old.limit }
        ensures served { ServesAt S.manner key (record { seats = self.old.seats; server = server.old }) (record { seats = self.new.seats; server = server.new }) }
    {
        let told = advance_at(&mut self.peers, server, registry, key, self.moment);
        self.has_aside = self.has_aside | is_aside(&self.peers, key);
        if !is_closed(told) {
            return Ok(());
        }
        drop(self.peers.try_remove(key));
        lack_of(told)
    }

    /// Goes on with a stream that was handed over, or closes it where no place is to be had or it cannot be waited for.
    pub fn take_in(&mut self, registry: &Registry, mut peer: Peer<TcpStream>)
        requires front { has_message peer.connection ≡ true }
        ensures limit { self.new.limit ≡ self.old.limit }
        ensures moment { self.new.moment ≡ self.old.moment }
        ensures joins { Joins self.old.seats self.new.seats }
        ensures kept { KeepsOthers least_stay self.old.moment self.old.seats self.new.seats }
    {
        peer.come(self.moment);
        self.keep(registry, peer);
    }

    /// Hands those streams over whose message in front another loop is to serve, while there is room.
    pub fn give<S: Serve>(&mut self, registry: &Registry, server: &mut S, giver: &mut Giver)
        ensures server { server.new ≡ server.old }
        ensures limit { self.new.limit ≡ self.old.limit }
        ensures moment { self.new.moment ≡ self.old.moment }
        ensures only { HasNoOther self.old.seats self.new.seats }
        ensures given { (keys : List ℕ) × AreGiven S.manner (record { seats = self.old.seats; gifts = given_by giver.old }) keys (record { seats = self.new.seats; gifts = given_by giver.new }) }
    {
        if !self.has_aside {
            return;
        }
        give_streams(&mut self.peers, registry, server, giver);
    }

    /// Whether a message of a stream was put aside since they were last resumed.
    pub fn has_aside(&self) -> bool {
        self.has_aside
    }

    /// Lets those streams go on of which a message was put aside, until the flag is set.
    pub fn resume<S: Serve>(&mut self, registry: &Registry, server: &mut S, stop: &AtomicBool)
        ensures limit { self.new.limit ≡ self.old.limit }
        ensures served { Resumes S.manner (record { seats = self.old.seats; server = server.old }) (record { seats = self.new.seats; server = server.new }) }
    {
        if !std::mem::take(&mut self.has_aside) {
            return;
        }
        for key in 0..self.peers.capacity() {
            if may_resume(&self.peers, key, stop) {
                let _ = self.advance(registry, key, server);
            }
        }
    }
}

// Whether the message in front of the stream with a key was put aside.
fn is_aside(peers: &Slab<Peer<TcpStream>>, key: usize) -> bool {
    match peers.get(key) {
        Some(peer) => peer.is_aside(),
        None => false,
    }
}

// Whether that stream goes on: unless the loop is to end.
fn may_resume(peers: &Slab<Peer<TcpStream>>, key: usize, stop: &AtomicBool) -> bool {
    is_aside(peers, key) && !stop.load(Ordering::SeqCst)
}

// Whether a stream is closed, by what its steps came to.
fn is_closed(told: Result<Next, LoopFault>) -> bool
    ensures { result ≡ turning.is_closed told }
{
    match told {
        Ok(Next::More | Next::Blocked) => false,
        Ok(Next::Closed) | Err(_) => true,
    }
}

// What a turn is told of it: that memory was wanting.
fn lack_of(told: Result<Next, LoopFault>) -> Result<(), LoopFault>
    ensures { result ≡ turning.lack_of told }
{
    match told {
        Err(LoopFault::NoMemory) => Err(LoopFault::NoMemory),
        Ok(_) | Err(LoopFault::Io) => Ok(()),
    }
}

// When the stream with a key moved last.
fn moved_at(peers: &Slab<Peer<TcpStream>>, key: usize) -> Option<u32>
    ensures { result ≡ moment_of (seats peers.now) key }
{
    match peers.get(key) {
        Some(peer) => Some(peer.moved()),
        None => None,
    }
}

// Closes the stream with a key where it has sat there for this many seconds, and answers whether it has.
fn close_where_still(peers: &mut Slab<Peer<TcpStream>>, key: usize, now: u32, stay: u32) -> bool
    requires { 0 < stay }
    ensures closed { (at : ℕ) → moment_of (seats peers.new) key ≡ Some at → now < at + stay }
    ensures same { IsFalse result → peers.new ≡ peers.old }
    ensures kept { KeepsOthers stay now (seats peers.old) (seats peers.new) }
    ensures only { HasNoOther (seats peers.old) (seats peers.new) }
    ensures room { IsTrue result → slab_len peers.new + 1 ≡ slab_len peers.old }
    ensures len { slab_len peers.new ≤ slab_len peers.old }
    ensures capacity { peers.new.capacity ≡ peers.old.capacity }
{
    let Some(at) = moved_at(&*peers, key) else {
        return false;
    };
    if now.saturating_sub(at) < stay {
        return false;
    }
    drop(peers.try_remove(key));
    true
}

// Closes each stream that has sat there for the longest time.
fn close_all_still(peers: &mut Slab<Peer<TcpStream>>, now: u32)
    ensures none { NoneSits longest_stay now (seats peers.new) }
    ensures kept { KeepsOthers longest_stay now (seats peers.old) (seats peers.new) }
    ensures only { HasNoOther (seats peers.old) (seats peers.new) }
    ensures len { slab_len peers.new ≤ slab_len peers.old }
    ensures capacity { peers.new.capacity ≡ peers.old.capacity }
{
    for key in 0..peers.capacity() {
        close_where_still(peers, key, now, LONGEST_STAY);
    }
}

// The stiller of two streams: the one that was found, and since when it sits there, and one with a key.
fn stiller(found: (usize, Option<u32>), key: usize, moved: Option<u32>) -> (usize, Option<u32>)
    ensures { result ≡ holding.stiller found key moved }
{
    let Some(at) = moved else {
        return found;
    };
    match found.1 {
        Some(first) if at >= first => found,
        _ => (key, Some(at)),
    }
}

// The key of the stream that has sat there longest; 0 where there is none.
fn stillest(peers: &Slab<Peer<TcpStream>>) -> usize
    ensures { IsStillest result (seats peers.now) }
{
    let mut found = (0, None);
    for key in 0..peers.capacity() {
        found = stiller(found, key, moved_at(peers, key));
    }
    found.0
}

// Lets the stream with this key go on, at a moment.
fn advance_at<S: Serve>(
    peers: &mut Slab<Peer<TcpStream>>,
    server: &mut S,
    registry: &Registry,
    key: usize,
    now: u32,
) -> Result<Next, LoopFault>
    ensures len { slab_len peers.new ≡ slab_len peers.old }
    ensures capacity { peers.new.capacity ≡ peers.old.capacity }
    ensures served { AdvancesAt S.manner now key (record { seats = seats peers.old; server = server.old }) result (record { seats = seats peers.new; server = server.new }) }
{
    match peers.get_mut(key) {
        Some(peer) => peer.go_on(server, registry, key, now),
        None => Ok(Next::Blocked),
    }
}
