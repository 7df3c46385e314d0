ghost use Rattle.std.specs.Prelude.{◌≡◌, ◌≢◌, ◌⊎◌, ℕ, List, [], map, string_bytes, IsOk, IfOk, OnOk, Some, None};
ghost use Rattle.std.specs.IoError.{error_kind};
ghost use Rattle.std.specs.Io.KnownBytes.{Appends};
ghost use Rattle.std.specs.declared.io.ErrorKind.TheVariants.{InvalidData};
ghost use Rattle.site_opening.specs.Openings.{SiteTexts, start_of};
ghost use Rattle.site_opening.specs.Words.{path_in};
ghost use Rattle.site_check.specs.Checks.{AppendsCheck, IsChecked, usage_text};
ghost use Rattle.site_check.specs.SiteLines.{status_ending, status_line};

use crate::fault::CheckFault;
use crate::site::look_at_site;
use shown_text::print_text;
use site_opening::config_path;
use std::alloc::Global;
use std::io::{self, ErrorKind, Write};
use std::rt::Files;

/// The status of a call with words that are not understood.
const USAGE: u8 = 64;

/// How the program is called, and its version, which is that of all programs.
const USAGE_TEXT: &str = "usage: slpcheck CONFIG (slpda 0.9.0)\n";

/// The status where memory ran out.
const NO_MEMORY: u8 = 3;

// Writes what a server would do, by its status.
fn print_ending<W: Write>(status: u8, writer: &mut W) -> io::Result<()>
    ensures { OnOk result (Appends (W.contents writer.old) (W.contents writer.new) (status_ending status)) }
{
    if status == 0 {
        return writeln!(writer, ": ok");
    }
    // It says nothing of a server, which may find memory.
    if status == NO_MEMORY {
        return writeln!(writer, ": there was no memory for the check");
    }
    writeln!(writer, ": slpda would not start (status {status})")
}

// The same, with the path of the configuration.
fn print_status<W: Write>(path: &str, status: u8, writer: &mut W) -> io::Result<()>
    ensures { OnOk result (Appends (W.contents writer.old) (W.contents writer.new) (status_line path.now status)) }
{
    print_text(path, writer)?;
    print_ending(status, writer)
}

// Writes what is found in a site, and answers its status.
fn check<R: Files, W: Write>(
    rt: &R,
    alloc: Global,
    path: &str,
    writer: &mut W,
) -> Result<u8, CheckFault>
    ensures status { IfOk result IsChecked }
    ensures written { IfOk result (AppendsCheck (W.contents writer.old) (W.contents writer.new) path.now) }
{
    let status = look_at_site(rt, alloc, path, writer)?;
    print_status(path, status, writer)?;
    writer.flush()?;
    Ok(status)
}

// Writes how the program is called.
fn print_usage<W: Write>(writer: &mut W) -> io::Result<()>
    ensures { OnOk result (Appends (W.contents writer.old) (W.contents writer.new) usage_text) }
{
    writer.write_all(USAGE_TEXT.as_bytes())
}

/// The status where the words of a call cannot be read, and what is then written: how the program is called where they are not
/// text, else nothing.
pub fn unread_words(fault: &io::Error) -> (u8, &'static str)
    ensures text { error_kind fault.now ≡ InvalidData → (result.0 ≡ 64) × (result.1.now ≡ usage_text) }
    ensures other { error_kind fault.now ≢ InvalidData → (result.0 ≡ 3) × (result.1.now ≡ []) }
{
    if fault.kind() == ErrorKind::InvalidData {
        (USAGE, USAGE_TEXT)
    } else {
        (NO_MEMORY, "")
    }
}

/// The program `slpcheck`: its words without its own name, and its output. It writes what is wrong with the files of a site, and
/// answers the status with which `slpda` would not start on them: 1 where a file can't be read, 2 where one is refused, 3 where the check
/// itself found no memory; 0 where it would start, sockets and memory apart. It is 64 where there is not one word, or it begins with `-`, and 1 where
/// the output failed.
pub fn check_run<R: Files, W: Write>(rt: &R, alloc: Global, words: &[String], writer: &mut W) -> u8
    ensures usage { path_in (map string_bytes words.now) ≡ None → result ≡ 64 }
    ensures checked { (path : List ℕ) → path_in (map string_bytes words.now) ≡ Some path
        → (result ≡ 1) ⊎ (result ≡ 3) ⊎ (IsChecked result × AppendsCheck (W.contents writer.old) (W.contents writer.new) path result) }
    ensures taken { result ≡ 0 → (texts : SiteTexts) × IsOk (start_of texts) }
{
    let Some(path) = config_path(words) else {
        let _ = print_usage(writer);
        let _ = writer.flush();
        return USAGE;
    };
    match check(rt, alloc, path, writer) {
        Ok(status) => status,
        Err(CheckFault::Output) => 1,
        Err(CheckFault::NoMemory) => {
            let _ = print_status(path, NO_MEMORY, writer);
            let _ = writer.flush();
            NO_MEMORY
        }
    }
}
