//! Replays a script of datagrams from standard input, and prints each reply and audit line.
#![tactic(auto)]

ghost use Rattle.std.specs.Prelude.{◌≡◌, ◌<◌, ◌⊎◌, ◌++◌, ◌∷◌, [], codes, length};
ghost use Rattle.std.specs.Io.KnownBytes.{Appends};
ghost use Rattle.std.specs.Process.{exit_status};
ghost use Rattle.replay_program.specs.Reports.{Reports};

use replay_program::replay_run;
use std::alloc::Global;
use std::env;
use std::io::{self, BufWriter, Read, Write};
use std::process::ExitCode;

/// The status where no memory is found before the first line of the script is read.
const NO_MEMORY: u8 = 4;
/// The status of wrong usage, where an argument is not text.
const USAGE: u8 = 64;
/// The status where writing fails.
const UNWRITTEN: u8 = 2;

// Leaves with the status that the replay answers.
fn leave<R: Read, W: Write>(
    alloc: Global,
    words: &[String],
    reader: &mut R,
    writer: &mut W,
) -> ExitCode
    ensures usage { 0 < length words.now → (exit_status result ≡ 2) ⊎ ((exit_status result ≡ 64) × Appends (W.contents writer.old) (W.contents writer.new) (codes "usage: slpreplay" ++ 10 ∷ [])) }
    ensures runs { length words.now ≡ 0 → Reports (R.remaining reader.old) (R.remaining reader.new) (W.contents writer.old) (W.contents writer.new) (exit_status result) }
{
    ExitCode::from(replay_run(alloc, words, reader, writer))
}

fn replay(rt: &HostRuntime) -> io::Result<ExitCode> {
    let mut words = Vec::new(rt.alloc());
    for word in env::args(rt)?.skip(1) {
        words.push(word)?;
    }
    let mut reader = rt.reader();
    let mut writer = BufWriter::new(rt.alloc(), io::writer(rt))?;
    Ok(leave(rt.alloc(), words.as_slice(), &mut reader, &mut writer))
}

fn usage(rt: &HostRuntime) -> ExitCode
    ensures { (exit_status result ≡ 64) ⊎ (exit_status result ≡ 2) }
{
    match io::writer(rt).write_all(b"usage: slpreplay\n") {
        Ok(()) => ExitCode::from(USAGE),
        Err(_) => ExitCode::from(UNWRITTEN),
    }
}

fn main(rt: HostRuntime) -> ExitCode {
    match replay(&rt) {
        Ok(left) => left,
        Err(fault) => match fault.kind() {
            io::ErrorKind::InvalidData => usage(&rt),
            _ => ExitCode::from(NO_MEMORY),
        },
    }
}
