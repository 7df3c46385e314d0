ghost use Rattle.std.specs.Prelude.{◌≡◌, ◌==◌, chars, map, string_bytes, IfOk};
ghost use Rattle.std.specs.List.{list_all};
ghost use Rattle.std.specs.Option.{option_map};
ghost use Rattle.std.specs.Result.{result_ok};
ghost use Rattle.attr_values.specs.Rests.{rest_after, rest_of};
ghost use Rattle.attr_values.specs.Values.{value_of};
ghost use Rattle.attr_operands.specs.Operands.{operand_of};
ghost use Rattle.slp_text.specs.Keys as keys;
ghost use Rattle.srv_template.specs.Conformity.{takes};
ghost use Rattle.template_files.specs.Joining.{joined_with};
ghost use Rattle.template_files.specs.Reading as spec;
ghost use Rattle.template_files.specs.Reading.{before_help, from_help, number_sign, spoken, values_in};
ghost use Rattle.template_files.specs.Stops.{texts_of};

use attr_list::{AttrFault, Value, cut_at, read_value};
use attr_operands::Operand;
use slp_text::{NoMemory, trim_start};
use srv_template::ValueKind;
use std::alloc::Global;

// What comes after the `#` with which a line begins, after white space.
fn help_in(line: &str) -> Option<&str>
    ensures { rest_of result ≡ rest_after (λ c. c == number_sign) (keys.trim_start (chars line.now)) }
{
    trim_start(line).strip_prefix('#')
}

/// Whether `#` comes first in a line, after white space.
pub fn is_help(line: &str) -> bool
    ensures { result ≡ spec.is_help line.now }
{
    help_in(line).is_some()
}

/// The lines before the first line of help, and those from it on.
pub fn split_at_help<'a, 'b>(lines: &'b [&'a str]) -> (&'b [&'a str], &'b [&'a str])
    ensures before { texts_of result.0.now ≡ before_help (texts_of lines.now) }
    ensures after { texts_of result.1.now ≡ from_help (texts_of lines.now) }
{
    for i in 0..lines.len() {
        if is_help(lines[i]) {
            return (&lines[..i], &lines[i..]);
        }
    }
    (lines, &[])
}

// Appends a line, after a SPACE where others have begun.
fn append_line(line: &str, begun: bool, text: &mut String) -> Result<(), NoMemory>
    ensures { IfOk result (λ _. string_bytes text.new ≡ joined_with begun (string_bytes text.old) line.now) }
{
    if begun {
        text.push(' ')?;
    }
    text.push_str(line)?;
    Ok(())
}

// The lines that are no help, joined by a SPACE.
fn join(alloc: Global, lines: &[&str]) -> Result<String, NoMemory>
    ensures { IfOk result (λ t. string_bytes t ≡ spec.joined (spoken (texts_of lines.now))) }
{
    let mut text = String::new(alloc);
    let mut begun = false;
    for line in lines {
        if !is_help(line) {
            append_line(line, begun, &mut text)?;
            begun = true;
        }
    }
    Ok(text)
}

// Whether a text is white space alone.
fn is_white(text: &str) -> bool
    ensures { result ≡ list_all keys.is_white (chars text.now) }
{
    trim_start(text).is_empty()
}

// The value that a text is, if it is one.
fn value_in(alloc: Global, text: &str) -> Result<Option<Value>, NoMemory>
    ensures { IfOk result (λ o. o ≡ result_ok (value_of (chars text.now))) }
{
    match read_value(alloc, text) {
        Ok(value) => Ok(Some(value)),
        Err(AttrFault::NoMemory) => Err(NoMemory),
        Err(_) => Ok(None),
    }
}

// The values that a text lists, if each is one; an empty last one is none.
fn read_values(alloc: Global, text: &str) -> Result<Option<Vec<Value>>, NoMemory>
    ensures { IfOk result (λ o. option_map (λ v. v.items) o ≡ result_ok (values_in text.now)) }
{
    let mut values = Vec::new(alloc);
    let mut rest = Some(text);
    while let Some(list) = rest {
        let (part, more) = cut_at(list, ',');
        if more.is_some() || !is_white(part) {
            match value_in(alloc, part)? {
                Some(value) => values.push(value)?,
                None => return Ok(None),
            }
        }
        rest = more;
    }
    Ok(Some(values))
}

fn all_fit(kind: ValueKind, values: &[Value]) -> bool
    ensures { result ≡ list_all (takes kind) values.now }
{
    values.iter().all(|value| kind.takes(value))
}

/// The values that lines list, if each is one.
pub(crate) fn listed_values(alloc: Global, lines: &[&str]) -> Result<Option<Vec<Value>>, NoMemory>
    ensures { IfOk result (λ o. option_map (λ v. v.items) o ≡ result_ok (values_in (spec.joined (spoken (texts_of lines.now))))) }
{
    let text = join(alloc, lines)?;
    read_values(alloc, text.as_str())
}

/// The values that lines list, if each is one of the kind.
pub fn values_for(
    alloc: Global,
    kind: ValueKind,
    lines: &[&str],
) -> Result<Option<Vec<Value>>, NoMemory>
    ensures { IfOk result (λ o. option_map (λ v. v.items) o ≡ spec.values_for kind (texts_of lines.now)) }
{
    let Some(values) = listed_values(alloc, lines)? else {
        return Ok(None);
    };
    if all_fit(kind, &values) {
        Ok(Some(values))
    } else {
        Ok(None)
    }
}

/// What values are compared with, to be the same as one of these.
pub fn operands(alloc: Global, values: Vec<Value>) -> Result<Vec<Operand>, NoMemory>
    ensures { IfOk result (λ v. v.items ≡ map operand_of values.items) }
{
    let mut operands = Vec::with_capacity(alloc, values.len())?;
    for value in values {
        operands.push(Operand::of(alloc, value)?)?;
    }
    Ok(operands)
}
