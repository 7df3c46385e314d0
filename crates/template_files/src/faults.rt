//! Why a definition is refused.
ghost use Rattle.std.specs.Prelude.{◌≡◌, chars, IfOk};
ghost use Rattle.std.specs.List.{list_all, list_any};
ghost use Rattle.template_files.specs.Faults as spec;
ghost use Rattle.template_files.specs.Faults.{refusal_of};
ghost use Rattle.template_files.specs.Reading.{spoken, words_of};
ghost use Rattle.template_files.specs.Stops.{texts_of};

use crate::lines::split_at_blank;
use crate::reading::{read_definition, read_definition_tag};
use crate::values::{is_help, listed_values, split_at_help, values_for};
use crate::words::{flags_of, kind_of, split_words};
use attr_list::cut_at;
use slp_text::{Key, NoMemory};
use srv_template::ValueKind;
use std::alloc::Global;

/// Why a definition is refused, in the order in which it is asked (RFC 2609, section 4.2).
#[derive(Clone, Copy, Debug, PartialEq, Eq)]
pub enum DefinitionFault {
    /// Its first line has no `=`, or is help.
    Form,
    /// What stands before the `=` is no tag.
    Tag,
    /// What stands after the `=` does not begin with a kind.
    Kind,
    /// A flag is none of M, O, L and X.
    Flag,
    /// A flag stands twice.
    FlagTwice,
    /// A keyword has values.
    KeywordValues,
    /// Values have a raw `=`: it is one, or the first line of the next definition.
    NoBlankLine,
    /// A default value is none in its form.
    DefaultUnread,
    /// A default value is of another kind.
    DefaultKind,
    /// An allowed value is none in its form.
    AllowedUnread,
    /// An allowed value is of another kind.
    AllowedKind,
    /// It can be read, and an earlier definition is of its tag.
    Twice,
}

fn has_equals(line: &str) -> bool
    ensures { result ≡ spec.has_equals line.now }
{
    cut_at(line, '=').1.is_some()
}

// Whether a line that is no help has a `=`.
fn have_equals(lines: &[&str]) -> bool
    ensures { result ≡ list_any spec.has_equals (spoken (texts_of lines.now)) }
{
    lines.iter().any(|line| !is_help(line) && has_equals(line))
}

// Why the values that lines list are refused: one of them is not read, or of another kind.
fn values_fault(
    alloc: Global,
    kind: ValueKind,
    unread: DefinitionFault,
    other: DefinitionFault,
    lines: &[&str],
) -> Result<DefinitionFault, NoMemory>
    ensures { IfOk result (λ f. f ≡ spec.values_fault kind unread other (texts_of lines.now)) }
{
    if kind.is_keyword() {
        return Ok(DefinitionFault::KeywordValues);
    }
    if have_equals(lines) {
        return Ok(DefinitionFault::NoBlankLine);
    }
    match listed_values(alloc, lines)? {
        Some(_) => Ok(other),
        None => Ok(unread),
    }
}

// Why the lines after the first are refused.
fn body_fault(alloc: Global, kind: ValueKind, body: &[&str]) -> Result<DefinitionFault, NoMemory>
    ensures { IfOk result (λ f. f ≡ spec.body_fault kind (texts_of body.now)) }
{
    let (defaults, rest) = split_at_help(body);
    let (unread, other, lines) = if values_for(alloc, kind, defaults)?.is_some() {
        (
            DefinitionFault::AllowedUnread,
            DefinitionFault::AllowedKind,
            rest,
        )
    } else {
        (
            DefinitionFault::DefaultUnread,
            DefinitionFault::DefaultKind,
            defaults,
        )
    };
    values_fault(alloc, kind, unread, other, lines)
}

fn is_flag(word: &str) -> bool
    ensures { result ≡ spec.is_flag word.now }
{
    word == "m" || word == "o" || word == "l" || word == "x"
}

fn are_flags(words: &[&str]) -> bool
    ensures { result ≡ list_all spec.is_flag (texts_of words.now) }
{
    words.iter().all(|word| is_flag(word))
}

// Why flags are refused.
fn flags_fault(words: &[&str]) -> DefinitionFault
    ensures { result ≡ spec.flags_fault (texts_of words.now) }
{
    if are_flags(words) {
        DefinitionFault::FlagTwice
    } else {
        DefinitionFault::Flag
    }
}

// Why the words after the `=`, or the lines after the first, are refused.
fn words_fault(alloc: Global, words: &[&str], body: &[&str]) -> Result<DefinitionFault, NoMemory>
    ensures { IfOk result (λ f. f ≡ spec.words_fault (texts_of words.now) (texts_of body.now)) }
{
    let Some((first, rest)) = words.split_first() else {
        return Ok(DefinitionFault::Kind);
    };
    let Some(kind) = kind_of(first) else {
        return Ok(DefinitionFault::Kind);
    };
    if flags_of(rest).is_none() {
        return Ok(flags_fault(rest));
    }
    body_fault(alloc, kind, body)
}

// Why what stands after the `=`, or the lines after the first, are refused.
fn text_fault(alloc: Global, text: &str, body: &[&str]) -> Result<DefinitionFault, NoMemory>
    ensures { IfOk result (λ f. f ≡ spec.words_fault (words_of (chars text.now)) (texts_of body.now)) }
{
    let folded = Key::of(alloc, text)?;
    let words = split_words(alloc, folded.as_str())?;
    words_fault(alloc, &words, body)
}

// Why a definition of no earlier tag is refused.
fn definition_fault(alloc: Global, first: &str, body: &[&str]) -> Result<DefinitionFault, NoMemory>
    ensures { IfOk result (λ f. f ≡ spec.definition_fault first.now (texts_of body.now)) }
{
    if is_help(first) {
        return Ok(DefinitionFault::Form);
    }
    let (text, Some(after)) = cut_at(first, '=') else {
        return Ok(DefinitionFault::Form);
    };
    match read_definition_tag(alloc, text)? {
        Some(_) => text_fault(alloc, after, body),
        None => Ok(DefinitionFault::Tag),
    }
}

fn refusal_at(alloc: Global, first: &str, body: &[&str]) -> Result<DefinitionFault, NoMemory>
    ensures { IfOk result (λ f. f ≡ spec.refusal_at first.now (texts_of body.now)) }
{
    match read_definition(alloc, first, body)? {
        Some(_) => Ok(DefinitionFault::Twice),
        None => definition_fault(alloc, first, body),
    }
}

/// Why the definition is refused with which lines begin.
pub(crate) fn refusal(alloc: Global, lines: &[&str]) -> Result<DefinitionFault, NoMemory>
    ensures { IfOk result (λ f. f ≡ refusal_of (texts_of lines.now)) }
{
    match lines.split_first() {
        Some((first, more)) => refusal_at(alloc, first, split_at_blank(more).0),
        None => Ok(DefinitionFault::Form),
    }
}
