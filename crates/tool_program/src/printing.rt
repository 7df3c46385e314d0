//! What is printed of a reply, and of none.
ghost use Rattle.std.specs.Prelude.{◌≡◌, ◌∷◌, ◌++◌, [], flat_map, OnOk};
ghost use Rattle.slp_text.specs.Ascii.{line_feed};
ghost use Rattle.std.specs.Io.KnownBytes.{Appends};
ghost use Rattle.tool_program.specs.Printing as spec;

use agent_clients::{ClientFault, Items};
use shown_text::{print_byte, print_text};
use slp_messages::UrlEntry;
use std::io::{self, Write};

// Prints a URL and the seconds that are left of its lifetime.
fn print_url<W: Write>(entry: &UrlEntry, writer: &mut W) -> io::Result<()>
    ensures { OnOk result (Appends (W.contents writer.old) (W.contents writer.new) (spec.url_line entry.now)) }
{
    print_text(entry.url.as_str(), writer)?;
    writeln!(writer, " {}", entry.lifetime)
}

// Prints a line for each URL.
fn print_urls<W: Write>(entries: &[UrlEntry], writer: &mut W) -> io::Result<()>
    ensures { OnOk result (Appends (W.contents writer.old) (W.contents writer.new) (flat_map spec.url_line entries.now)) }
{
    for entry in entries {
        print_url(entry, writer)?;
    }
    Ok(())
}

// Prints a text and the end of its line.
fn print_line<W: Write>(text: &str, writer: &mut W) -> io::Result<()>
    ensures { OnOk result (Appends (W.contents writer.old) (W.contents writer.new) (spec.text_line text.now)) }
{
    print_text(text, writer)?;
    writer.write_all(b"\n")
}

// Prints a byte of a list, of which each part ends a line.
fn print_listed<W: Write>(byte: u8, writer: &mut W) -> io::Result<()>
    ensures { OnOk result (Appends (W.contents writer.old) (W.contents writer.new) (spec.listed_byte byte)) }
{
    if byte == b',' {
        writer.write_all(b"\n")
    } else {
        print_byte(byte, writer)
    }
}

// Prints the bytes of a list, but not the end of its last line.
fn print_parts<W: Write>(list: &str, writer: &mut W) -> io::Result<()>
    ensures { OnOk result (Appends (W.contents writer.old) (W.contents writer.new) (flat_map spec.listed_byte list.now)) }
{
    for byte in list.as_bytes() {
        print_listed(*byte, writer)?;
    }
    Ok(())
}

// Prints each part of a list on a line; of an empty list nothing.
fn print_list<W: Write>(list: &str, writer: &mut W) -> io::Result<()>
    ensures { OnOk result (Appends (W.contents writer.old) (W.contents writer.new) (spec.list_lines list.now)) }
{
    if list.is_empty() {
        return Ok(());
    }
    print_parts(list, writer)?;
    writer.write_all(b"\n")
}

/// Prints what a reply holds: a line for each URL or type, one for attributes or for a directory agent, and
/// `ok` for an acknowledgement.
pub(crate) fn print_items<W: Write>(items: &Items, writer: &mut W) -> io::Result<()>
    ensures { OnOk result (Appends (W.contents writer.old) (W.contents writer.new) (spec.items_text items.now)) }
{
    match items {
        Items::Urls(entries) => print_urls(entries.as_slice(), writer),
        Items::Types(list) => print_list(list.as_str(), writer),
        Items::Acknowledged => writer.write_all(b"ok\n"),
        Items::Attributes(text) | Items::Advert { url: text, .. } => {
            print_line(text.as_str(), writer)
        }
    }
}

/// Prints why there is no reply.
pub(crate) fn print_fault<W: Write>(fault: ClientFault, writer: &mut W) -> io::Result<()>
    ensures { OnOk result (Appends (W.contents writer.old) (W.contents writer.new) (spec.fault_text fault)) }
{
    match fault {
        ClientFault::Io => writer.write_all(b"! io\n"),
        ClientFault::GaveUp => writer.write_all(b"! no answer\n"),
        ClientFault::Code(code) => writeln!(writer, "! code {code}"),
        ClientFault::NoMemory => writer.write_all(b"! memory\n"),
        ClientFault::Partial => writer.write_all(b"! partial\n"),
        ClientFault::TooLong => writer.write_all(b"! too long\n"),
    }
}

/// The status of a call that has no reply.
pub(crate) fn fault_status(fault: ClientFault) -> u8
    ensures { result ≡ spec.fault_status fault }
{
    match fault {
        ClientFault::Io => 1,
        ClientFault::GaveUp => 2,
        ClientFault::Code(_) => 3,
        ClientFault::NoMemory => 4,
        ClientFault::Partial => 5,
        ClientFault::TooLong => 6,
    }
}
