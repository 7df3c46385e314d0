ghost use Rattle.std.specs.Prelude.{◌≤◌, length, OnOk};
ghost use Rattle.std.specs.Io.KnownBytes.{Appends};
ghost use Rattle.hex.specs.Hex.{encode_lower};
ghost use Rattle.replay_program.specs.Worlds.{no_memory_text, answer_text};

use addresses::Addr;
use slp_answer::refusal;
use std::io;
use std::io::Write;

/// The bytes whose digits are made at once.
const PIECE: usize = 64;

// Writes the digits of at most 64 bytes.
fn print_piece<W: Write>(bytes: &[u8], writer: &mut W) -> io::Result<()>
    requires { length bytes.now ≤ 64 }
    ensures { OnOk result (Appends (W.contents writer.old) (W.contents writer.new) (encode_lower bytes.now)) }
{
    let mut room = [0; 2 * PIECE];
    let digits = &mut room[..2 * bytes.len()];
    match hex::encode_to_slice(bytes, digits) {
        Ok(()) => writer.write_all(digits),
        Err(_) => unreachable!(),
    }
}

// Writes the digits of bytes. Takes no memory.
fn print_digits<W: Write>(bytes: &[u8], writer: &mut W) -> io::Result<()>
    ensures { OnOk result (Appends (W.contents writer.old) (W.contents writer.new) (encode_lower bytes.now)) }
{
    let mut rest = bytes;
    while rest.len() > PIECE {
        let (piece, more) = rest.split_at(PIECE);
        print_piece(piece, writer)?;
        rest = more;
    }
    print_piece(rest, writer)
}

/// Writes what came of a message: the digits of the reply or a dash, and the audit line, if any.
pub fn print<W: Write>(reply: &[u8], line: &[u8], writer: &mut W) -> io::Result<()>
    ensures { OnOk result (Appends (W.contents writer.old) (W.contents writer.new) (answer_text reply.now line.now)) }
{
    writer.write_all(b"> ")?;
    if reply.is_empty() {
        writer.write_all(b"-")?;
    } else {
        print_digits(reply, writer)?;
    }
    writer.write_all(b"\n")?;
    writer.write_all(line)
}

/// Writes what comes of a message that found no memory. Takes none itself.
pub fn print_refusal<W: Write>(bytes: &[u8], asker: Addr, writer: &mut W) -> io::Result<()>
    ensures { OnOk result (Appends (W.contents writer.old) (W.contents writer.new) (no_memory_text asker bytes.now)) }
{
    let mut reply = [0u8; 80];
    let mut line = [0u8; 128];
    let (sent, told) = refusal(bytes, asker, &mut reply, &mut line);
    print(&reply[..sent], &line[..told], writer)
}
