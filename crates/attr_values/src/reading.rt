ghost use Rattle.std.specs.Prelude.{◌≡◌, ◌==◌, IfOk, OnErr, chars, string_bytes};
ghost use Rattle.slp_text.specs.Ascii.{backslash};
ghost use Rattle.slp_text.specs.Escapes.{unescaped_text_at};
ghost use Rattle.slp_text.specs.Keys.{squeezed_text};
ghost use Rattle.slp_text.specs.declared.escapes.Place.TheVariants as place;
ghost use Rattle.attr_values.specs.Kinds.{IsValue};
ghost use Rattle.attr_values.specs.Reading.{IsReading};
ghost use Rattle.attr_values.specs.Rests.{rest_after, rest_of};
ghost use Rattle.attr_values.specs.Values as spec;
ghost use Rattle.attr_values.specs.Values.{is_f, opaque_bytes, value_by, value_of};
ghost use Rattle.attr_values.specs.declared.fault.AttrFault.TheVariants as fault;
ghost use Rattle.attr_values.specs.declared.value.Value.TheVariants as value;

use crate::fault::{AttrFault, value_fault};
use crate::integer::integer_of;
use crate::value::Value;
use slp_text::{Place, Row, Text, key, squeeze, trim, unescape_all, unescape_at};
use std::alloc::Global;

// What comes after a backslash, with which a text begins.
fn after_backslash(text: &str) -> Option<&str>
    ensures { rest_of result ≡ rest_after (λ c. c == backslash) (chars text.now) }
{
    text.strip_prefix('\\')
}

// What comes after an `F` of either case, with which a text begins.
fn after_f(text: &str) -> Option<&str>
    ensures { rest_of result ≡ rest_after is_f (chars text.now) }
{
    text.strip_prefix(['F', 'f'])
}

/// What comes after the `\FF`, of either case, with which opaque values begin. Takes no memory.
pub fn opaque_rest(text: &str) -> Option<&str>
    ensures { rest_of result ≡ spec.opaque_rest (chars text.now) }
{
    let escape = after_backslash(text)?;
    let digit = after_f(escape)?;
    after_f(digit)
}

// The opaque value that has this after its `\FF`.
fn opaque_value(alloc: Global, rest: &str) -> Result<Value, AttrFault>
    ensures value { IsReading result (value_by value.Opaque (opaque_bytes (chars rest.now))) }
    ensures kind { IfOk result IsValue }
{
    match unescape_all(alloc, rest) {
        Ok(bytes) => Ok(Value::Opaque(Row::wrap(bytes))),
        Err(e) => Err(value_fault(e)),
    }
}

// The value that an unescaped and squeezed text is by its form.
fn value_of_form(alloc: Global, text: String) -> Result<Value, AttrFault>
    requires { squeezed_text (chars (string_bytes text)) ≡ chars (string_bytes text) }
    ensures value { IfOk result (λ v. v ≡ spec.value_of_form (chars (string_bytes text))) }
    ensures kind { IfOk result IsValue }
    ensures memory { OnErr result (result ≡ Err fault.NoMemory) }
{
    let folded = match key(alloc, text.as_str()) {
        Ok(folded) => folded,
        Err(e) => return Err(value_fault(e)),
    };
    let word = folded.as_str();
    if word == "true" {
        return Ok(Value::Bool(true));
    }
    if word == "false" {
        return Ok(Value::Bool(false));
    }
    match integer_of(text.as_str()) {
        Some(number) => Ok(Value::Int(number)),
        None => Ok(Value::Text(Text::wrap(text))),
    }
}

// The value of a text that is not opaque.
fn spelled_value(alloc: Global, text: &str) -> Result<Value, AttrFault>
    ensures value { IsReading result (value_by (λ read. spec.value_of_form (squeezed_text read)) (unescaped_text_at place.Value (chars text.now))) }
    ensures kind { IfOk result IsValue }
{
    let read = match unescape_at(alloc, text, Place::Value) {
        Ok(read) => read,
        Err(e) => return Err(value_fault(e)),
    };
    let squeezed = squeeze(alloc, read.as_str())?;
    value_of_form(alloc, squeezed)
}

/// The value that a text is (RFC 2608, section 5), each typed by itself: opaque bytes where it begins with
/// `\FF`, else `true` or `false` by its key, a whole number, or a text with its escapes read. A reserved
/// character that stands raw is `BadList`, an escape that is not one `BadEscape`; the first fault from the
/// left is answered.
pub fn read_value(alloc: Global, text: &str) -> Result<Value, AttrFault>
    ensures value { IsReading result (value_of (chars text.now)) }
    ensures kind { IfOk result IsValue }
{
    match opaque_rest(trim(text)) {
        Some(rest) => opaque_value(alloc, rest),
        None => spelled_value(alloc, text),
    }
}
