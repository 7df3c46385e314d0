ghost use Rattle.std.specs.Prelude.{◌≤◌, ◌<◌, [], length};
ghost use Rattle.replay_program.specs.Reads.{StandsAfter};
ghost use Rattle.replay_program.specs.Gives.{Gives};

use crate::fault::RunFault;
use crate::line_input::{feed, finish};
use crate::progress::Progress;
use slp_answer::Answer;
use std::alloc::Global;
use std::io::{ErrorKind, Read, Write};

/// How often a run reads. After that it ends with `Read`.
pub const READS: u32 = 1_000_000_000;

/// The bytes that one read asks for.
const CHUNK: usize = 65_536;

/// Replays scripts.
#[derive(Drop)]
pub struct Replay {
    answer: Answer,
}

fn run_through<R: Read, W: Write>(
    alloc: Global,
    chunk: &mut [u8],
    progress: &mut Progress,
    answer: &mut Answer,
    reader: &mut R,
    writer: &mut W,
) -> Result<(), RunFault>
    requires some { 0 < length chunk.old }
    requires small { length chunk.old ≤ 65536 }
    requires begun { StandsAfter [] [] [] progress.old }
    ensures { Gives (R.remaining reader.old) (R.remaining reader.new) (W.contents writer.old) (W.contents writer.new) result }
{
    let mut line = Vec::new(alloc);
    for turn in 0..READS {
        if writer.flush().is_err() {
            return Err(RunFault::Write);
        }
        match reader.read(chunk) {
            Ok(0) => return finish(progress, line.as_slice(), alloc, answer, writer),
            Ok(n) => feed(progress, &mut line, alloc, &chunk[..n], answer, writer)?,
            Err(e) => {
                if e.kind() != ErrorKind::Interrupted {
                    return Err(RunFault::Read);
                }
            }
        }
    }
    Err(RunFault::Read)
}

impl Replay {
    ghost use Rattle.replay_program.specs.Gives.{Gives, KnownGives};

    /// A replay.
    pub fn new(alloc: Global) -> Replay {
        Replay {
            answer: Answer::new(alloc),
        }
    }

    /// Runs all that the reader gives as a script, from the opening setup on. Each command's output is
    /// written before the reader is read again, and memory does not grow with the script. On `Read`,
    /// `Line` and `NoMemory` the output of all earlier commands is written.
    pub fn run<R: Read, W: Write>(
        &mut self,
        alloc: Global,
        reader: &mut R,
        writer: &mut W,
    ) -> Result<(), RunFault>
        ensures gives { Gives (R.remaining reader.old) (R.remaining reader.new) (W.contents writer.old) (W.contents writer.new) result }
        // Where it is known what the reader has, that is the script.
        ensures known { KnownGives (R.remaining reader.old) (W.contents writer.old) (W.contents writer.new) result }
    {
        let Ok(mut chunk) = vec![in alloc; 0u8; CHUNK] else {
            return Err(RunFault::NoMemory);
        };
        let mut progress = Progress::begin(alloc)?;
        run_through(
            alloc,
            chunk.as_mut_slice(),
            &mut progress,
            &mut self.answer,
            reader,
            writer,
        )
    }
}
