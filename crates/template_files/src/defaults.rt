//! Which default values a template refuses itself.
ghost use Rattle.std.specs.Prelude.{◌≡◌, ◌++◌, option_to_list, IfOk};
ghost use Rattle.std.specs.Str.Lines.{lines};
ghost use Rattle.slp_text.specs.Reading.{read_map};
ghost use Rattle.template_files.specs.Defaults as spec;
ghost use Rattle.template_files.specs.Defaults.{refused_among, tag_refusing_lines};
ghost use Rattle.template_files.specs.Stops.{texts_of, IsRead};

use crate::lines::{Stop, after_blanks, split_at_blank};
use crate::reading::{after_part, read_definition, read_type};
use crate::values::{split_at_help, values_for};
use slp_text::{Key, NoMemory};
use srv_template::Definition;
use std::alloc::Global;

// The tag of a definition that refuses the values which these lines list.
fn tag_refusing(
    alloc: Global,
    definition: Definition,
    lines: &[&str],
) -> Result<Option<Key>, NoMemory>
    ensures { IfOk result (λ o. o ≡ tag_refusing_lines (texts_of lines.now) definition) }
{
    let Some(values) = values_for(alloc, definition.kind, lines)? else {
        return Ok(None);
    };
    if definition.values_fault(&values).is_none() {
        return Ok(None);
    }
    let tag = definition.tag.copy(alloc)?;
    Ok(Some(tag))
}

// The tag of the definition that its first line and the others give, where it refuses its own default values.
fn refused_default(alloc: Global, first: &str, body: &[&str]) -> Result<Option<Key>, NoMemory>
    ensures { IfOk result (λ o. o ≡ spec.refused_default first.now (texts_of body.now)) }
{
    match read_definition(alloc, first, body)? {
        Some(definition) => tag_refusing(alloc, definition, split_at_help(body).0),
        None => Ok(None),
    }
}

// Appends a tag, if there is one.
fn push_tag(tag: Option<Key>, tags: &mut Vec<Key>) -> Result<(), NoMemory>
    ensures { IfOk result (λ _. tags.new.items ≡ tags.old.items ++ option_to_list tag) }
{
    if let Some(tag) = tag {
        tags.push(tag)?;
    }
    Ok(())
}

// The tags of the definitions in lines that refuse their own default values.
fn refused_in(alloc: Global, lines: &[&str]) -> Result<Vec<Key>, NoMemory>
    ensures { IfOk result (λ v. v.items ≡ refused_among (texts_of lines.now)) }
{
    let mut tags = Vec::new(alloc);
    let mut rest = after_blanks(lines);
    while let Some((first, more)) = rest.split_first() {
        let (body, after) = split_at_blank(more);
        let tag = refused_default(alloc, first, body)?;
        push_tag(tag, &mut tags)?;
        rest = after_blanks(after);
    }
    Ok(tags)
}

// The lines of a template from the blank one on that ends the syntax of URLs.
fn definition_lines<'a, 'b>(alloc: Global, lines: &'b [&'a str]) -> Result<&'b [&'a str], Stop>
    ensures { IsRead (read_map (λ p. texts_of p.now) result) (spec.definition_lines (texts_of lines.now)) }
{
    let (_, rest) = read_type(alloc, lines)?;
    let version = after_part(alloc, "template-version", rest)?;
    let description = after_part(alloc, "template-description", version)?;
    let syntax = after_part(alloc, "template-url-syntax", split_at_blank(description).1)?;
    Ok(split_at_blank(syntax).1)
}

fn refused_of(alloc: Global, lines: &[&str]) -> Result<Vec<Key>, NoMemory>
    ensures { IfOk result (λ v. v.items ≡ spec.refused_defaults (texts_of lines.now)) }
{
    match definition_lines(alloc, lines) {
        Ok(definitions) => refused_in(alloc, definitions),
        Err(Stop::Left(_)) => Ok(Vec::new(alloc)),
        Err(Stop::NoMemory) => Err(NoMemory),
    }
}

/// The tags of a template whose default values its own definitions refuse: more than one where one is allowed, or one that
/// is none of those that are allowed (RFC 2609, section 4.2.2).
pub fn refused_defaults(alloc: Global, text: &str) -> Result<Vec<Key>, NoMemory>
    ensures { IfOk result (λ v. v.items ≡ spec.refused_defaults (lines text.now)) }
{
    let lines: Vec<&str> = text.lines().collect(alloc)?;
    refused_of(alloc, &lines)
}
