ghost use Rattle.std.specs.Prelude.{◌≡◌, ◌++◌, IfOk, OnErr, flat_map, string_bytes};
ghost use Rattle.std.specs.Fmt.{signed_decimal};
ghost use Rattle.slp_text.specs.Steps.{BeginsWith};
ghost use Rattle.attr_values.specs.Values.{escaped_byte, value_text};
ghost use Rattle.attr_values.specs.declared.value.Value.TheVariants as value;

use crate::value::Value;
use itoa::Buffer;
use slp_text::{NoMemory, Place, capital_digit, escape_into};

// Appends a byte as an escape; where memory runs out some of it may stand after what was there.
fn push_byte(byte: u8, out: &mut String) -> Result<(), NoMemory>
    ensures ok { IfOk result (λ _. string_bytes out.new ≡ string_bytes out.old ++ escaped_byte byte) }
    ensures err { BeginsWith (string_bytes out.old) (string_bytes out.new) }
{
    out.push('\\')?;
    out.push(capital_digit(byte / 16))?;
    out.push(capital_digit(byte % 16))?;
    Ok(())
}

// The same of all bytes.
fn append_bytes(bytes: &[u8], out: &mut String) -> Result<(), NoMemory>
    ensures ok { IfOk result (λ _. string_bytes out.new ≡ string_bytes out.old ++ flat_map escaped_byte bytes.now) }
    ensures err { BeginsWith (string_bytes out.old) (string_bytes out.new) }
{
    for byte in bytes {
        push_byte(*byte, out)?;
    }
    Ok(())
}

// Appends opaque bytes as they are written; where memory runs out some of it may stand after what was there.
fn append_opaque(bytes: &[u8], out: &mut String) -> Result<(), NoMemory>
    ensures ok { IfOk result (λ _. string_bytes out.new ≡ string_bytes out.old ++ value_text (value.Opaque bytes.now)) }
    ensures err { BeginsWith (string_bytes out.old) (string_bytes out.new) }
{
    out.push_str("\\FF")?;
    append_bytes(bytes, out)
}

// The same, and where memory runs out nothing is appended.
fn opaque_into(bytes: &[u8], out: &mut String) -> Result<(), NoMemory>
    ensures ok { IfOk result (λ _. string_bytes out.new ≡ string_bytes out.old ++ value_text (value.Opaque bytes.now)) }
    ensures err { OnErr result (string_bytes out.new ≡ string_bytes out.old) }
{
    let before = out.len();
    let done = append_opaque(bytes, out);
    if done.is_err() {
        out.truncate(before);
    }
    done
}

// Appends a number as it is written. Where memory runs out nothing is appended.
fn number_into(number: i32, out: &mut String) -> Result<(), NoMemory>
    ensures ok { IfOk result (λ _. string_bytes out.new ≡ string_bytes out.old ++ signed_decimal number) }
    ensures err { OnErr result (string_bytes out.new ≡ string_bytes out.old) }
{
    let mut digits = Buffer::new();
    out.push_str(digits.format(number))?;
    Ok(())
}

impl Value {
    /// Appends the value as it is written. Where memory runs out nothing is appended.
    pub fn print_into(&self, out: &mut String) -> Result<(), NoMemory>
        ensures ok { IfOk result (λ _. string_bytes out.new ≡ string_bytes out.old ++ value_text self.now) }
        ensures err { OnErr result (string_bytes out.new ≡ string_bytes out.old) }
    {
        match self {
            Value::Bool(true) => Ok(out.push_str("true")?),
            Value::Bool(false) => Ok(out.push_str("false")?),
            Value::Int(number) => number_into(*number, out),
            Value::Opaque(bytes) => opaque_into(bytes.as_slice(), out),
            Value::Text(text) => escape_into(text.as_str(), Place::Value, out),
        }
    }
}
