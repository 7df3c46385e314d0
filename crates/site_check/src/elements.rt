//! Which elements of an array are wrong.
ghost use Rattle.std.specs.Prelude.{◌≡◌, ◌<◌, ◌^◌, ◌+◌, [], is_some, length, map, unwrap_or, option_and_then, OnOk};
ghost use Rattle.std.specs.Io.KnownBytes.{Appends};
ghost use Rattle.std.specs.Option.{option_map};
ghost use Rattle.toml.specs.View.{table_view, view};
ghost use Rattle.toml_tables.specs.Tables.{array_values};
ghost use Rattle.rule_files.specs.RuleFiles.{prefix_in};
ghost use Rattle.site_check.specs.Elements as spec;
ghost use Rattle.site_check.specs.Elements.{again_line, prefix_line, prefix_lines, socket_in, socket_line, socket_lines};
ghost use Rattle.site_check.specs.Lines.{place_in};

use crate::problem::{Place, Problem, report};
use addresses::{Addr, Prefix};
use std::io::{self, Write};
use toml::{Table, Value};
use toml_tables::{array_values, value_at};

/// The elements of a value; none where it is no array.
pub(crate) fn elements_of<'a>(value: Option<&'a Value>) -> &'a [Value]
    ensures { map view result.now ≡ unwrap_or (option_and_then array_values (option_map (λ v. view v.now) value.entry)) [] }
{
    match value {
        Some(value) => match array_values(value) {
            Some(values) => values,
            None => &[],
        },
        None => &[],
    }
}

/// The elements of the array at a key; none where there is none.
pub(crate) fn elements_at<'a>(table: &'a Table, key: &str) -> &'a [Value]
    ensures { map view result.now ≡ spec.elements_at key.now (table_view table.now) }
{
    elements_of(value_at(table, key))
}

// Whether a value is a prefix.
fn is_prefix(value: &Value) -> bool
    ensures { result ≡ is_some (prefix_in (view value.now)) }
{
    match value.as_str() {
        Some(text) => Prefix::parse(text.as_bytes()).is_some(),
        None => false,
    }
}

// Writes that a value, which has this index, is no prefix.
fn explain_prefix<W: Write>(
    place: Place<'_>,
    values: &[Value],
    indexed: (usize, &Value),
    writer: &mut W,
) -> io::Result<()>
    requires { indexed.0 < length values.now }
    ensures { OnOk result (Appends (W.contents writer.old) (W.contents writer.new) (prefix_line (place_in place.entry) (indexed.entry.0, view indexed.entry.1.now))) }
{
    let (index, value) = indexed;
    if is_prefix(value) {
        return Ok(());
    }
    let problem = Problem::Element(index + 1, "from", "not a prefix \"a.b.c.d/n\"");
    report(place, problem, writer)
}

/// Writes which elements of `from` are no prefixes.
pub(crate) fn explain_from<W: Write>(
    place: Place<'_>,
    values: &[Value],
    writer: &mut W,
) -> io::Result<()>
    ensures { OnOk result (Appends (W.contents writer.old) (W.contents writer.new) (prefix_lines (place_in place.entry) (map view values.now))) }
{
    for (i, value) in values.iter().enumerate() {
        explain_prefix(place, values, (i, value), writer)?;
    }
    Ok(())
}

// The address and the port that a value is.
fn socket(value: &Value) -> Option<(Addr, u16)>
    ensures { result ≡ socket_in (view value.now) }
{
    Addr::parse_with_port(value.as_str()?.as_bytes())
}

// Whether a value is this address and port.
fn is_at(place: &(Addr, u16), value: &Value) -> bool
    ensures { result ≡ spec.is_at place.now (view value.now) }
{
    match socket(value) {
        Some(other) => place.0 == other.0 && place.1 == other.1,
        None => false,
    }
}

// Writes which of some earlier values is this address and port, if one is.
fn explain_again<W: Write>(
    file: &str,
    number: usize,
    earlier: &[Value],
    place: &(Addr, u16),
    writer: &mut W,
) -> io::Result<()>
    ensures { OnOk result (Appends (W.contents writer.old) (W.contents writer.new) (again_line file.now number (map view earlier.now) place.now)) }
{
    for (i, other) in earlier.iter().enumerate() {
        if is_at(place, other) {
            return report(
                Place::File(file),
                Problem::Again(number, "listen", i + 1),
                writer,
            );
        }
    }
    Ok(())
}

// Writes that a value, which has this index, is no address with a port, or one that stands there before.
fn explain_socket<W: Write>(
    file: &str,
    values: &[Value],
    indexed: (usize, &Value),
    writer: &mut W,
) -> io::Result<()>
    requires { indexed.0 < length values.now }
    ensures { OnOk result (Appends (W.contents writer.old) (W.contents writer.new) (socket_line file.now (map view values.now) (indexed.entry.0, view indexed.entry.1.now))) }
{
    let (index, value) = indexed;
    match socket(value) {
        Some(place) => explain_again(file, index + 1, &values[..index], &place, writer),
        None => {
            let problem = Problem::Element(index + 1, "listen", "not a text \"a.b.c.d:port\"");
            report(Place::File(file), problem, writer)
        }
    }
}

/// Writes which elements of `listen` are no addresses with ports, and which stand there before.
pub(crate) fn explain_listen<W: Write>(
    file: &str,
    values: &[Value],
    writer: &mut W,
) -> io::Result<()>
    ensures { OnOk result (Appends (W.contents writer.old) (W.contents writer.new) (socket_lines file.now (map view values.now))) }
{
    for (i, value) in values.iter().enumerate() {
        explain_socket(file, values, (i, value), writer)?;
    }
    Ok(())
}
