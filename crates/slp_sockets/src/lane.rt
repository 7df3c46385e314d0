//! The way from a loop to the one beside it, on which what would take long is handed over.
ghost use Rattle.std.specs.Prelude.{◌≡◌, ◌⊎◌, ◌≤◌, ◌<◌, ◌++◌, ◌∷◌, ℕ, List, [], true, Some, IfOk, IsTrue, MatchOption};
ghost use Rattle.rtrb.specs.Ring.{known_free, received, sent};
ghost use Rattle.slab.specs.Slab.{slab_len};
ghost use Rattle.slp_sockets.specs.Fronts.{BringsMessage};
ghost use Rattle.slp_sockets.specs.Handing.{AreGiven, HandsOver, IsGivenAt, Joins, TakesOver, given_by, given_in, taken_by, taken_in};
ghost use Rattle.slp_sockets.specs.Holding.{Seat, HasNoOther, seat_at};
ghost use Rattle.slp_sockets.specs.Linking.{has_message};
ghost use Rattle.slp_sockets.specs.Sitting.{seats};

use crate::datagrams::{Datagrams, Taken};
use crate::exchange::Exchange;
use crate::fault::LoopFault;
use crate::opening::opened;
use crate::peer::Peer;
use crate::serve::Serve;
use crate::streams::Streams;
use mio::net::{TcpStream, UdpSocket};
use mio::{Registry, Token, Waker};
use rtrb::{Consumer, Producer, Protocol, RingBuffer};
use slab::Slab;
use std::alloc::Global;

/// The token of what wakes the loop at the end.
const LANE: Token = Token(0xffff_ffff_ffff_fffd);

/// How much may be on the way.
const ON_THE_WAY: usize = 64;

/// What is handed over.
#[derive(Drop)]
pub(crate) enum Handed {
    Mail(Exchange),
    // A stream with what was read of it and is not served, and what is not written yet.
    Stream(Peer<TcpStream>),
}

/// That a stream which is handed over has a whole message in front.
pub(crate) struct Fronted;

impl Protocol<Handed> for Fronted {
    ghost use Rattle.slp_sockets.specs.Fronts.{BringsMessage};

    ghost allows = { λ before handed. BringsMessage handed };
}

/// The end at which a loop hands over.
#[derive(Drop)]
pub(crate) struct Giver {
    pub producer: Producer<Handed, Global, Fronted>,
    waker: Waker,
}

impl Giver {
    /// Whether more may be handed over now: there is room, and a loop that takes it.
    pub fn has_room(&mut self) -> bool
        ensures room { IsTrue result → 0 < known_free self.new.producer }
        ensures kept { sent self.new.producer ≡ sent self.old.producer }
    {
        !self.producer.is_abandoned() && !self.producer.is_full()
    }

    /// Hands something over.
    pub fn give(&mut self, handed: Handed)
        requires room { 0 < known_free self.old.producer }
        requires front { BringsMessage handed }
        ensures { sent self.new.producer ≡ sent self.old.producer ++ handed ∷ [] }
    {
        self.producer.push_reserved(handed);
        // A loop that can't be waked looks at its next turn.
        let _ = self.waker.wake();
    }
}

/// The end at which a loop takes over.
#[derive(Drop)]
pub(crate) struct Taker {
    pub consumer: Consumer<Handed, Global, Fronted>,
}

impl Taker {
    /// Whether something is there to be taken over.
    pub fn has_next(&mut self) -> bool
        ensures { received self.new.consumer ≡ received self.old.consumer }
    {
        !self.consumer.is_empty()
    }

    /// Takes over what comes next.
    pub fn take(&mut self) -> Option<Handed>
        ensures { MatchOption result (received self.new.consumer ≡ received self.old.consumer) (λ h. (received self.new.consumer ≡ received self.old.consumer ++ h ∷ []) × BringsMessage h) }
    {
        self.consumer.pop().ok()
    }
}

/// A way to the loop that waits by this registry.
pub(crate) fn lane_to(alloc: Global, registry: &Registry) -> Result<(Giver, Taker), LoopFault>
    ensures { IfOk result (λ r. (sent r.0.producer ≡ []) × (received r.1.consumer ≡ [])) }
{
    let waker = opened(Waker::new(registry, LANE))?;
    match RingBuffer::with_protocol::<Global, Fronted>(alloc, ON_THE_WAY) {
        Ok((producer, consumer)) => Ok((Giver { producer, waker }, Taker { consumer })),
        Err(fault) => {
            drop(waker);
            Err(fault.into())
        }
    }
}

// Whether another loop is to serve the message in front of the stream with a key.
fn is_long_at<S: Serve>(peers: &Slab<Peer<TcpStream>>, key: usize, server: &mut S) -> bool
    ensures kept { server.new ≡ server.old }
    ensures long { IsTrue result → (s : Seat) × (seat_at (seats peers.now) key ≡ Some s) × (has_message s.link ≡ true) × S.manner.may_last s.link.unserved }
{
    match peers.get(key) {
        Some(peer) => peer.is_long(server),
        None => false,
    }
}

// Hands the stream with a key over, where another loop is to serve its message in front and there is room.
fn give_at<S: Serve>(
    peers: &mut Slab<Peer<TcpStream>>,
    registry: &Registry,
    key: usize,
    server: &mut S,
    giver: &mut Giver,
)
    ensures server { server.new ≡ server.old }
    ensures len { slab_len peers.new ≤ slab_len peers.old }
    ensures capacity { peers.new.capacity ≡ peers.old.capacity }
    ensures only { HasNoOther (seats peers.old) (seats peers.new) }
    ensures given { IsGivenAt S.manner key (record { seats = seats peers.old; gifts = given_by giver.old }) (record { seats = seats peers.new; gifts = given_by giver.new })
        ⊎ ((seats peers.new ≡ seats peers.old) × (given_by giver.new ≡ given_by giver.old)) }
{
    if !is_long_at(&*peers, key, server) || !giver.has_room() {
        return;
    }
    match peers.try_remove(key) {
        Some(mut peer) => {
            peer.wait_no_more(registry);
            giver.give(Handed::Stream(peer));
        }
        None => unreachable!(),
    }
}

/// Hands each stream over whose message in front another loop is to serve, while there is room.
pub(crate) fn give_streams<S: Serve>(
    peers: &mut Slab<Peer<TcpStream>>,
    registry: &Registry,
    server: &mut S,
    giver: &mut Giver,
)
    ensures server { server.new ≡ server.old }
    ensures len { slab_len peers.new ≤ slab_len peers.old }
    ensures capacity { peers.new.capacity ≡ peers.old.capacity }
    ensures only { HasNoOther (seats peers.old) (seats peers.new) }
    ensures given { (keys : List ℕ) × AreGiven S.manner (record { seats = seats peers.old; gifts = given_by giver.old }) keys (record { seats = seats peers.new; gifts = given_by giver.new }) }
{
    for key in 0..peers.capacity() {
        give_at(peers, registry, key, server, giver);
    }
}

/// Hands over what the loop beside is to serve, where there is one.
pub(crate) fn hand_over<S: Serve>(
    registry: &Registry,
    gives: &mut Option<Giver>,
    datagrams: &mut Datagrams<UdpSocket>,
    streams: &mut Streams,
    server: &mut S,
)
    ensures server { server.new ≡ server.old }
    ensures limit { streams.new.limit ≡ streams.old.limit }
    ensures only { HasNoOther streams.old.seats streams.new.seats }
    ensures given { HandsOver S.manner datagrams.old.aside (record { seats = streams.old.seats; gifts = given_in gives.old }) datagrams.new.aside (record { seats = streams.new.seats; gifts = given_in gives.new }) }
{
    if let Some(giver) = gives {
        datagrams.give(server, giver);
        streams.give(registry, server, giver);
    }
}

/// Whether the loop beside handed something over that was not taken over yet.
pub(crate) fn has_next(takes: &mut Option<Taker>) -> bool
    ensures { taken_in takes.new ≡ taken_in takes.old }
{
    match takes {
        Some(taker) => taker.has_next(),
        None => false,
    }
}

/// Takes over what the loop beside handed over: datagrams are put aside, and streams go on here.
pub(crate) fn take_over(
    registry: &Registry,
    takes: &mut Option<Taker>,
    datagrams: &mut Datagrams<UdpSocket>,
    streams: &mut Streams,
)
    ensures limit { streams.new.limit ≡ streams.old.limit }
    ensures joins { Joins streams.old.seats streams.new.seats }
    ensures taken { TakesOver datagrams.old.aside (taken_in takes.old) datagrams.new.aside (taken_in takes.new) }
{
    if let Some(taker) = takes {
        take_all(registry, taker, datagrams, streams);
    }
}

// Takes over all that was handed over.
fn take_all(
    registry: &Registry,
    taker: &mut Taker,
    datagrams: &mut Datagrams<UdpSocket>,
    streams: &mut Streams,
)
    ensures limit { streams.new.limit ≡ streams.old.limit }
    ensures joins { Joins streams.old.seats streams.new.seats }
    ensures taken { TakesOver datagrams.old.aside (taken_by taker.old) datagrams.new.aside (taken_by taker.new) }
{
    for _ in 0..ON_THE_WAY {
        match datagrams.take_next(taker) {
            Taken::Nothing => return,
            Taken::Mail => {}
            Taken::Stream(peer) => streams.take_in(registry, peer),
        }
    }
}
