//! Connections with readers and writers that do as they are told.
ghost use Rattle.std.specs.Prelude.{◌≡◌};

use crate::assertion::assert_holds;
use crate::programs::fakes::{Sink, Source};
use crate::programs::messages::{EMPTY_REPLY, REQUEST, numbered};
use addresses::Addr;
use slp_answer::{Answer, Sent};
use slp_sockets::{Connection, LoopFault, Next, Serve, settle};
use slp_text::NoMemory;
use std::alloc::Global;
use std::io::ErrorKind;
use std::test::Fail;

/// 127.0.0.1.
const LOOPBACK: Addr = Addr(0x7f00_0001);

/// Answers each message by the header of a reply with the message's number, and then by these bytes.
#[derive(Drop)]
struct Replying<'a> {
    rest: &'a [u8],
}

impl<'a> Serve for Replying<'a> {
    ghost manner = { record {
      steps = λ before asker message limit outcome answer after. after ≡ before;
      settles = λ before after. after ≡ before;
      may_wait = λ bytes. ⊥;
      may_last = λ message. ⊥;
    } };

    fn waits(&self, _bytes: &[u8]) -> bool {
        false
    }

    fn may_last(&self, _message: &[u8]) -> bool {
        false
    }

    fn is_long(&mut self, _message: &[u8]) -> bool {
        false
    }

    fn micros(&self) -> u64 {
        0
    }

    fn serve(
        &mut self,
        _asker: Addr,
        message: &[u8],
        _limit: usize,
        answer: &mut Answer,
    ) -> Result<Sent, NoMemory> {
        answer.bytes.clear();
        answer.bytes.extend_from_slice(&EMPTY_REPLY[..10])?;
        answer
            .bytes
            .extend_from_slice(message.get(10..12).unwrap_or(&[]))?;
        answer.bytes.extend_from_slice(self.rest)?;
        Ok(Sent::Bytes(0))
    }

    fn settle(&mut self) {}
}

// A source of bytes in pieces of so many, after which the input ends.
fn source(bytes: &[u8], piece: usize) -> Source<'_> {
    Source {
        rest: bytes,
        piece,
        calls: 0,
        trouble: None,
        ends: true,
    }
}

fn sink(alloc: Global, piece: usize) -> Sink {
    Sink {
        bytes: Vec::new(alloc),
        piece,
        calls: 0,
        trouble: None,
    }
}

// Both calls in turn until neither answers `More`.
fn drive(
    connection: &mut Connection,
    source: &mut Source<'_>,
    sink: &mut Sink,
) -> Result<Next, LoopFault> {
    let mut server = Replying {
        rest: &EMPTY_REPLY[12..],
    };
    for _ in 0..1_000 {
        let read = connection.on_readable(source, &mut server)?;
        let settled = settle(&mut server);
        let written = connection.on_writable(sink, settled)?;
        if written == Next::Closed {
            return Ok(Next::Closed);
        }
        if read == Next::Blocked && written == Next::Blocked {
            return Ok(Next::Blocked);
        }
    }
    Ok(Next::More)
}

// Whether a connection answers so, one time after the other.
fn answers(
    alloc: Global,
    from: &mut Source<'_>,
    to: &mut Sink,
    answers: &[Result<Next, LoopFault>],
) -> bool {
    let mut connection = Connection::new(alloc, LOOPBACK);
    let mut holds = true;
    for answer in answers {
        holds = drive(&mut connection, from, to) == *answer && holds;
    }
    holds
}

#[test]
fn pieces_come_and_go(rt: HostRuntime) -> Result<(), Fail> {
    let requests = numbered(rt.alloc(), &REQUEST, 3)?;
    let replies = numbered(rt.alloc(), &EMPTY_REPLY, 3)?;
    let mut from = source(requests.as_slice(), 3);
    let mut to = sink(rt.alloc(), 1);
    let holds = answers(rt.alloc(), &mut from, &mut to, &[Ok(Next::Closed)]);
    assert_holds(&rt, holds, "the stream ends");
    assert_holds(
        &rt,
        to.bytes.as_slice() == replies.as_slice(),
        "the replies are whole",
    );
    Ok(())
}

#[test]
fn a_reply_is_written_at_once_before_the_next_message_is_served(
    rt: HostRuntime,
) -> Result<(), Fail> {
    let requests = numbered(rt.alloc(), &REQUEST, 3)?;
    let mut from = source(requests.as_slice(), 144);
    let mut to = sink(rt.alloc(), 100);
    let holds = answers(rt.alloc(), &mut from, &mut to, &[Ok(Next::Closed)]);
    assert_holds(&rt, holds && to.calls == 3, "a write for each");
    assert_holds(&rt, from.calls == 2, "one read, and one that meets the end");
    Ok(())
}

const FAILED: [Result<Next, LoopFault>; 2] = [Err(LoopFault::Io), Ok(Next::Closed)];

// Three messages of 48 bytes are 21 reads of 7 bytes, and one that meets the end. The nth message is whole after 7n reads.
#[test]
fn a_reader_fails_at_each_read(rt: HostRuntime) -> Result<(), Fail> {
    let requests = numbered(rt.alloc(), &REQUEST, 3)?;
    for place in 0..22u8 {
        let replies = numbered(rt.alloc(), &EMPTY_REPLY, place / 7)?;
        let mut from = source(requests.as_slice(), 7);
        from.trouble = Some((usize::from(place), ErrorKind::ConnectionReset));
        let mut to = sink(rt.alloc(), 100);
        let holds = answers(rt.alloc(), &mut from, &mut to, &FAILED);
        assert_holds(
            &rt,
            holds && to.bytes.as_slice() == replies.as_slice(),
            "what was whole before is answered",
        );
    }
    Ok(())
}

// Three replies of 20 bytes are 60 writes of one byte.
#[test]
fn a_writer_fails_after_each_byte(rt: HostRuntime) -> Result<(), Fail> {
    let requests = numbered(rt.alloc(), &REQUEST, 3)?;
    let replies = numbered(rt.alloc(), &EMPTY_REPLY, 3)?;
    for place in 0..60usize {
        let mut from = source(requests.as_slice(), 48);
        let mut to = sink(rt.alloc(), 1);
        to.trouble = Some((place, ErrorKind::BrokenPipe));
        let holds = answers(rt.alloc(), &mut from, &mut to, &FAILED);
        assert_holds(
            &rt,
            holds && replies.get(..place) == Some(to.bytes.as_slice()),
            "what was written is the front",
        );
    }
    Ok(())
}

// Whether a reader that would block is waited for, and one that a signal interrupts is read again.
fn is_met(alloc: Global, kind: ErrorKind, next: Next) -> bool {
    let mut from = source(&REQUEST, 3);
    from.trouble = Some((0, kind));
    let mut connection = Connection::new(alloc, LOOPBACK);
    connection.on_readable(&mut from, &mut Replying { rest: &[] }) == Ok(next)
}

#[test]
fn a_wait_or_a_signal_loses_nothing(rt: HostRuntime) -> Result<(), Fail> {
    assert_holds(
        &rt,
        is_met(rt.alloc(), ErrorKind::WouldBlock, Next::Blocked)
            && is_met(rt.alloc(), ErrorKind::Interrupted, Next::More),
        "what is done next",
    );
    let requests = numbered(rt.alloc(), &REQUEST, 3)?;
    let replies = numbered(rt.alloc(), &EMPTY_REPLY, 3)?;
    for kind in [ErrorKind::WouldBlock, ErrorKind::Interrupted] {
        for place in 0..60usize {
            let mut from = source(requests.as_slice(), 7);
            from.trouble = Some((place, kind));
            let mut to = sink(rt.alloc(), 1);
            to.trouble = Some((place, kind));
            answers(rt.alloc(), &mut from, &mut to, &[Ok(Next::More); 4]);
            assert_holds(
                &rt,
                to.bytes.as_slice() == replies.as_slice(),
                "the replies are whole",
            );
        }
    }
    Ok(())
}

/// How many bytes a peer takes at once, and how often it was read by then: at first nothing is taken. Each read brings a
/// message, whose reply has 4,096 bytes, so that 32 are 131,072 bytes.
const TAKEN: [(usize, usize); 5] = [(0, 33), (4_095, 33), (1, 34), (4_096, 35), (135_168, 68)];

// Whether no more is read after so many reads, where a peer has taken so many bytes more.
fn is_read_up_to(
    connection: &mut Connection,
    server: &mut Replying<'_>,
    from: &mut Source<'_>,
    to: &mut Sink,
    (taken, reads): (usize, usize),
) -> bool {
    to.piece = taken;
    let settled = settle(server);
    let mut next = connection.on_writable(to, settled).and(Ok(Next::More));
    for _ in 0..100 {
        if next == Ok(Next::More) {
            next = connection.on_readable(from, server);
        }
    }
    next == Ok(Next::Blocked) && from.calls == reads
}

#[test]
fn a_peer_that_takes_nothing_is_not_read(rt: HostRuntime) -> Result<(), Fail> {
    let requests = numbered(rt.alloc(), &REQUEST, 100)?;
    let rest = vec![in rt.alloc(); 0; 4_084]?;
    let mut server = Replying {
        rest: rest.as_slice(),
    };
    let mut from = source(requests.as_slice(), 48);
    let mut to = sink(rt.alloc(), 0);
    let mut connection = Connection::new(rt.alloc(), LOOPBACK);
    for row in TAKEN {
        assert_holds(
            &rt,
            is_read_up_to(&mut connection, &mut server, &mut from, &mut to, row),
            "while more than 131,072 bytes wait",
        );
    }
    Ok(())
}
