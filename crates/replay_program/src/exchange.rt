ghost use Rattle.std.specs.Prelude.{◌≡◌, ◌≤◌, ℕ, List, MatchResult};
ghost use Rattle.std.specs.Io.KnownBytes.{Appends};
ghost use Rattle.replay_program.specs.Sessions.{Meets};
ghost use Rattle.replay_program.specs.declared.fault.RunFault.TheVariants as fault;

use crate::agent::Agent;
use crate::fault::RunFault;
use crate::output::{print, print_refusal};
use slp_answer::Answer;
use slp_text::NoMemory;
use std::alloc::Global;
use std::io::Write;

/// Answers a message in at most `limit` bytes, and writes what came of it.
pub fn meet<W: Write>(
    agent: &mut Agent,
    alloc: Global,
    bytes: &[u8],
    limit: usize,
    answer: &mut Answer,
    writer: &mut W,
) -> Result<(), RunFault>
    requires datagram { 1400 ≤ limit }
    requires stream { limit ≤ 65535 }
    ensures { MatchResult result
        (λ _. (now : List ℕ) × Appends (W.contents writer.old) (W.contents writer.new) now × Meets limit agent.old bytes.now now agent.new)
        (λ e. e ≡ fault.Write) }
{
    let written = match agent.take(alloc, bytes, limit, answer) {
        Ok(_sent) => print(answer.bytes.as_slice(), answer.audit.as_slice(), writer),
        Err(NoMemory) => print_refusal(bytes, agent.asker, writer),
    };
    match written {
        Ok(()) => Ok(()),
        Err(_) => Err(RunFault::Write),
    }
}
