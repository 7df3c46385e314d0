ghost use Rattle.std.specs.Prelude.{◌≡◌, [], chars, IfOk, Ok};
ghost use Rattle.std.specs.Option.{option_map};
ghost use Rattle.std.specs.Result.{result_ok};
ghost use Rattle.attr_list.specs.Reading.{tag_or};
ghost use Rattle.attr_values.specs.Rests.{rest_of};
ghost use Rattle.attr_values.specs.declared.fault.AttrFault.TheVariants.{BadTag};
ghost use Rattle.service_url.specs.Types.{named_service};
ghost use Rattle.slp_text.specs.Reading.{read_map};
ghost use Rattle.slp_text.specs.Keys.{folded_text};
ghost use Rattle.slp_text.specs.Words.{bytes_eq};
ghost use Rattle.template_files.specs.Reading as spec;
ghost use Rattle.template_files.specs.Reading.{blocks_of, definition_at, definition_with, definitions_after, definitions_from, part_in, template_of_lines, value_after};
ghost use Rattle.template_files.specs.Stops.{texts_of, IsRead};

use crate::lines::{Stop, after_blanks, split_at_blank};
use crate::values::{is_help, operands, split_at_help, values_for};
use crate::words::{Flags, read_words};
use attr_list::{AttrFault, cut_at, read_tag};
use service_url::{UrlFault, parse_service_name};
use slp_text::{Key, NoMemory, Row, Text, is_white_byte};
use srv_template::{Definition, Template, ValueKind};
use std::alloc::Global;
use std::collections::BTreeSet;

fn begins_white(line: &str) -> bool
    ensures { result ≡ spec.begins_white line.now }
{
    match line.as_bytes().first() {
        Some(first) => is_white_byte(*first),
        None => false,
    }
}

// Whether the key of a text is a word.
fn is_word(alloc: Global, text: &str, word: &str) -> Result<bool, NoMemory>
    ensures { IfOk result (λ b. b ≡ bytes_eq (folded_text (chars text.now)) word.now) }
{
    let folded = Key::of(alloc, text)?;
    Ok(folded.as_str() == word)
}

// What comes after the `=` of a line that is this name, `=` and a value.
fn value_of<'a>(alloc: Global, name: &str, line: &'a str) -> Result<Option<&'a str>, NoMemory>
    ensures { IfOk result (λ o. rest_of o ≡ value_after name.now line.now) }
{
    if begins_white(line) {
        return Ok(None);
    }
    let (before, after) = cut_at(line, '=');
    if is_word(alloc, before, name)? {
        Ok(after)
    } else {
        Ok(None)
    }
}

// The name of the type that a text names, if it names one.
fn type_name(alloc: Global, text: &str) -> Result<Option<Text>, NoMemory>
    ensures { IfOk result (λ o. o ≡ result_ok (named_service text.now)) }
{
    match parse_service_name(alloc, text) {
        Ok(name) => Ok(Some(name)),
        Err(UrlFault::NoMemory) => Err(NoMemory),
        Err(_) => Ok(None),
    }
}

// The name of the type that the line of the type gives.
fn read_type_line(alloc: Global, line: &str) -> Result<Option<Text>, NoMemory>
    ensures { IfOk result (λ o. o ≡ spec.type_in line.now) }
{
    match value_of(alloc, "template-type", line)? {
        Some(value) => type_name(alloc, value),
        None => Ok(None),
    }
}

// The tag that a text is, if it is one.
pub(crate) fn read_definition_tag(alloc: Global, text: &str) -> Result<Option<Key>, NoMemory>
    ensures { IfOk result (λ o. o ≡ result_ok (tag_or BadTag (chars text.now))) }
{
    match read_tag(alloc, text, AttrFault::BadTag) {
        Ok(tag) => Ok(Some(tag)),
        Err(AttrFault::NoMemory) => Err(NoMemory),
        Err(_) => Ok(None),
    }
}

// The definition of a tag, a kind and flags, by the lines after the first.
fn read_body(
    alloc: Global,
    tag: Key,
    named: (ValueKind, Flags),
    body: &[&str],
) -> Result<Option<Definition>, NoMemory>
    ensures { IfOk result (λ o. o ≡ definition_with tag (texts_of body.now) named) }
{
    let (kind, flags) = named;
    let (defaults, rest) = split_at_help(body);
    if values_for(alloc, kind, defaults)?.is_none() {
        return Ok(None);
    }
    let Some(values) = values_for(alloc, kind, rest)? else {
        return Ok(None);
    };
    let allowed = operands(alloc, values)?;
    Ok(Some(Definition {
        tag,
        kind,
        multiple: flags.multiple,
        optional: flags.optional,
        allowed: Row::wrap(allowed),
    }))
}

// The definition that its first line and the others give, if they give one.
pub(crate) fn read_definition(
    alloc: Global,
    first: &str,
    body: &[&str],
) -> Result<Option<Definition>, NoMemory>
    ensures { IfOk result (λ o. o ≡ definition_at first.now (texts_of body.now)) }
{
    if is_help(first) {
        return Ok(None);
    }
    let (text, Some(after)) = cut_at(first, '=') else {
        return Ok(None);
    };
    let Some(tag) = read_definition_tag(alloc, text)? else {
        return Ok(None);
    };
    match read_words(alloc, after)? {
        Some(named) => read_body(alloc, tag, named, body),
        None => Ok(None),
    }
}

// The definitions of the blocks of lines between blank ones.
pub(crate) fn read_definitions(alloc: Global, lines: &[&str]) -> Result<Vec<Definition>, Stop>
    ensures { IsRead (read_map (λ v. v.items) result) (definitions_from [] (blocks_of (texts_of lines.now))) }
{
    let mut definitions = Vec::new(alloc);
    let mut tags = BTreeSet::new(alloc);
    let mut rest = after_blanks(lines);
    while let Some((first, more)) = rest.split_first() {
        let (body, after) = split_at_blank(more);
        let definition = match read_definition(alloc, first, body)? {
            Some(definition) => definition,
            None => return Err(Stop::Left(rest.len())),
        };
        let tag = definition.tag.copy(alloc)?;
        if !tags.insert(tag)? {
            return Err(Stop::Left(rest.len()));
        }
        definitions.push(definition)?;
        rest = after_blanks(after);
    }
    Ok(definitions)
}

// The name of the type, and the lines after the one that gives it.
pub(crate) fn read_type<'a, 'b>(
    alloc: Global,
    lines: &'b [&'a str],
) -> Result<(Text, &'b [&'a str]), Stop>
    ensures { IsRead (read_map (λ p. (p.0, texts_of p.1.now)) result) (part_in spec.type_in (texts_of lines.now)) }
{
    let rest = after_blanks(lines);
    let Some((first, more)) = rest.split_first() else {
        return Err(Stop::Left(0));
    };
    match read_type_line(alloc, first)? {
        Some(name) => Ok((name, more)),
        None => Err(Stop::Left(rest.len())),
    }
}

// The lines after the one that begins the part of this name.
pub(crate) fn after_part<'a, 'b>(
    alloc: Global,
    name: &str,
    lines: &'b [&'a str],
) -> Result<&'b [&'a str], Stop>
    ensures { IsRead (read_map (λ p. texts_of p.now) result) (read_map (λ p. p.1) (part_in (value_after name.now) (texts_of lines.now))) }
{
    let rest = after_blanks(lines);
    let Some((first, more)) = rest.split_first() else {
        return Err(Stop::Left(0));
    };
    match value_of(alloc, name, first)? {
        Some(_) => Ok(more),
        None => Err(Stop::Left(rest.len())),
    }
}

// The definitions, after the version, the description and the syntax of URLs.
fn read_parts(alloc: Global, lines: &[&str]) -> Result<Vec<Definition>, Stop>
    ensures { IsRead (read_map (λ v. v.items) result) (definitions_after (texts_of lines.now)) }
{
    let version = after_part(alloc, "template-version", lines)?;
    let description = after_part(alloc, "template-description", version)?;
    let syntax = after_part(alloc, "template-url-syntax", split_at_blank(description).1)?;
    read_definitions(alloc, split_at_blank(syntax).1)
}

/// The template of some lines.
pub fn read_template(alloc: Global, lines: &[&str]) -> Result<Template, Stop>
    ensures { IsRead result (template_of_lines (texts_of lines.now)) }
{
    let (name, rest) = read_type(alloc, lines)?;
    let definitions = read_parts(alloc, rest)?;
    let template = Template::new(alloc, name, definitions)?;
    Ok(template)
}
