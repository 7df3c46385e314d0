ghost use Rattle.std.specs.Prelude.{◌≡◌, ℕ, List, None, MatchResult, OnOk};
ghost use Rattle.std.specs.Io.KnownBytes.{Appends};
ghost use Rattle.replay_program.specs.Sessions.{TakesPiece, Drains, Writes};
ghost use Rattle.replay_program.specs.Worlds.{bad_length_text};
ghost use Rattle.replay_program.specs.declared.fault.RunFault.TheVariants as fault;

use crate::agent::Agent;
use crate::exchange::meet;
use crate::fault::RunFault;
use crate::session::{LONGEST_ON_STREAM, Session};
use slp_answer::Answer;
use slp_stream::{FrameFault, Framer};
use std::alloc::Global;
use std::io;
use std::io::Write;

// Writes that a stream is cut no further.
fn print_bad_length<W: Write>(fault: FrameFault, writer: &mut W) -> io::Result<()>
    ensures { OnOk result (Appends (W.contents writer.old) (W.contents writer.new) (bad_length_text fault)) }
{
    match fault {
        FrameFault::TooLong => writer.write_all(b"! too-long\n"),
        FrameFault::TooShort => writer.write_all(b"! too-short\n"),
        FrameFault::NoMemory => Ok(()),
    }
}

// Answers the whole messages of a stream one after the other, and tells a bad length after them.
fn drain<W: Write>(
    agent: &mut Agent,
    stream: &mut Framer,
    alloc: Global,
    answer: &mut Answer,
    writer: &mut W,
) -> Result<(), RunFault>
    requires going { stream.old.refused ≡ None }
    ensures { MatchResult result
        (λ _. (now : List ℕ) × Appends (W.contents writer.old) (W.contents writer.new) now × Drains agent.old stream.old now agent.new stream.new)
        (λ e. e ≡ fault.Write) }
{
    while let Some(next) = stream.next() {
        match next {
            Ok(message) => meet(agent, alloc, message, LONGEST_ON_STREAM, answer, writer)?,
            Err(fault) => {
                return match print_bad_length(fault, writer) {
                    Ok(()) => Ok(()),
                    Err(_) => Err(RunFault::Write),
                };
            }
        }
    }
    Ok(())
}

/// Takes the next bytes of the stream: each message that they end is answered, and the rest kept.
pub fn take_piece<W: Write>(
    session: &mut Session,
    alloc: Global,
    bytes: &[u8],
    answer: &mut Answer,
    writer: &mut W,
) -> Result<(), RunFault>
    ensures { Writes (W.contents writer.old) (W.contents writer.new) (λ now. TakesPiece session.old bytes.now now session.new) result }
{
    match session.stream.feed(bytes) {
        Ok(()) => drain(
            &mut session.agent,
            &mut session.stream,
            alloc,
            answer,
            writer,
        ),
        Err(FrameFault::NoMemory) => Err(RunFault::NoMemory),
        Err(_) => match writer.write_all(b"! closed\n") {
            Ok(()) => Ok(()),
            Err(_) => Err(RunFault::Write),
        },
    }
}
