ghost use Rattle.std.specs.Prelude.{◌≡◌, ◌<◌, ◌⊎◌, ◌++◌, ◌∷◌, [], codes, length, IfOk};
ghost use Rattle.std.specs.Io.KnownBytes.{Appends};
ghost use Rattle.replay_program.specs.Reports.{Reports};

use crate::fault::RunFault;
use crate::replay::Replay;
use std::alloc::Global;
use std::io;
use std::io::{Read, Write};

/// The status of a call with words that are not understood.
const USAGE: u8 = 64;

// Replays a script, and answers the status.
fn replay<R: Read, W: Write>(alloc: Global, reader: &mut R, writer: &mut W) -> io::Result<u8>
    ensures { IfOk result (Reports (R.remaining reader.old) (R.remaining reader.new) (W.contents writer.old) (W.contents writer.new)) }
{
    match Replay::new(alloc).run(alloc, reader, writer) {
        Ok(()) => Ok(0),
        Err(RunFault::Read) => Ok(1),
        Err(RunFault::Write) => Ok(2),
        Err(RunFault::Line(n)) => {
            writeln!(writer, "! line {n}")?;
            Ok(3)
        }
        Err(RunFault::NoMemory) => Ok(4),
    }
}

/// The program `slpreplay`: its words without its own name, its input and its output. What it answers
/// is the status: 0, the number of the fault, or 64 where there are words.
pub fn replay_run<R: Read, W: Write>(
    alloc: Global,
    words: &[String],
    reader: &mut R,
    writer: &mut W,
) -> u8
    ensures usage { 0 < length words.now → (result ≡ 2) ⊎ ((result ≡ 64) × Appends (W.contents writer.old) (W.contents writer.new) (codes "usage: slpreplay" ++ 10 ∷ [])) }
    ensures runs { length words.now ≡ 0 → Reports (R.remaining reader.old) (R.remaining reader.new) (W.contents writer.old) (W.contents writer.new) result }
{
    let told = if words.is_empty() {
        replay(alloc, reader, writer)
    } else {
        match writer.write_all(b"usage: slpreplay\n") {
            Ok(()) => Ok(USAGE),
            Err(fault) => Err(fault),
        }
    };
    match told {
        Ok(status) => match writer.flush() {
            Ok(()) => status,
            Err(_) => 2,
        },
        Err(_) => 2,
    }
}
