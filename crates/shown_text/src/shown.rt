ghost use Rattle.std.specs.Prelude.{◌≡◌, OnOk};
ghost use Rattle.std.specs.Io.KnownBytes.{Appends};
ghost use Rattle.shown_text.specs.Shown as spec;

use slp_text::capital_digit;
use std::io::{self, Write};

/// Prints a byte of a text. A control character, which no text of good will has, is printed as its
/// escape, so that each line stays one.
pub fn print_byte<W: Write>(byte: u8, writer: &mut W) -> io::Result<()>
    ensures { OnOk result (Appends (W.contents writer.old) (W.contents writer.new) (spec.shown_byte byte)) }
{
    if byte < b' ' || byte == 0x7f {
        let (first, second) = (capital_digit(byte / 16), capital_digit(byte % 16));
        writer.write_all(&[b'\\', first as u8, second as u8])
    } else {
        writer.write_all(&[byte])
    }
}

/// Prints a text on one line.
pub fn print_text<W: Write>(text: &str, writer: &mut W) -> io::Result<()>
    ensures { OnOk result (Appends (W.contents writer.old) (W.contents writer.new) (spec.shown text.now)) }
{
    for byte in text.as_bytes() {
        print_byte(*byte, writer)?;
    }
    Ok(())
}
