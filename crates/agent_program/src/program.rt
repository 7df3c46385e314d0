ghost use Rattle.std.specs.Prelude.{◌≡◌, ◌≢◌, [], map, string_bytes, None, OnOk};
ghost use Rattle.std.specs.IoError.{error_kind};
ghost use Rattle.std.specs.Io.KnownBytes.{Appends};
ghost use Rattle.std.specs.declared.io.ErrorKind.TheVariants.{InvalidData};
ghost use Rattle.agent_program.specs.Usage.{usage_text};
ghost use Rattle.site_opening.specs.Words.{path_in};

use crate::starting::{Ends, start_loops};
use published_view::CountingGate;
use site_opening::config_path;
use std::alloc::Global;
use std::io::{self, ErrorKind, Read, Write};
use std::net::Net;
use std::rt::Files;
use std::sync::{Mutex, Wait};
use std::thread::Threads;
use std::time::Clock;

/// The status of a call with words that are not understood.
const USAGE: u8 = 64;

/// How the program is called.
const USAGE_TEXT: &str = "usage: slpda CONFIG\n";

/// The status where no memory is found before the configuration is read.
const NO_MEMORY: u8 = 3;

/// The status where the words of a call cannot be read, and what is then written: how the program is called where they are not
/// text, else nothing.
pub fn unread_words(fault: &io::Error) -> (u8, &'static str)
    ensures text { error_kind fault.now ≡ InvalidData → (result.0 ≡ 64) × (result.1.now ≡ usage_text) }
    ensures other { error_kind fault.now ≢ InvalidData → (result.0 ≡ 3) × (result.1.now ≡ []) }
{
    if fault.kind() == ErrorKind::InvalidData {
        (USAGE, USAGE_TEXT)
    } else {
        (NO_MEMORY, "")
    }
}

// Writes how the program is called.
fn print_usage<W: Write>(writer: &mut W) -> io::Result<()>
    ensures { OnOk result (Appends (W.contents writer.old) (W.contents writer.new) usage_text) }
{
    writer.write_all(USAGE_TEXT.as_bytes())?;
    writer.flush()
}

/// The program `slpda`: its words without its own name, its input and its output. It serves until the input
/// ends or says `stop`, and answers the status of `start_loops`, or 64 where there is not one
/// word, or it begins with `-`.
pub fn agent_run<R, I, W>(
    rt: &R,
    alloc: Global,
    words: &[String],
    reader: &mut I,
    writer: &mut W,
) -> u8
where
    R: Threads + Wait + Net + Clock + Files + Sync,
    I: Read + Send,
    W: Write + Send,
    ensures usage { path_in (map string_bytes words.now) ≡ None → result ≡ 64 }
{
    let Some(path) = config_path(words) else {
        let _ = print_usage(writer);
        return USAGE;
    };
    let (input, output) = (Mutex::new(reader), Mutex::new(writer));
    let gate = CountingGate::new();
    let ends = Ends {
        input: &input,
        output: &output,
        gate: &gate,
    };
    start_loops(rt, alloc, path, &ends)
}
