ghost use Rattle.std.specs.Prelude.{◌≡◌, chars, map, string_bytes, if◌then◌else◌, Some, None, Ok};
ghost use Rattle.std.specs.List.{slice_split};
ghost use Rattle.slp_text.specs.Escapes.{unescaped_bytes};
ghost use Rattle.slp_text.specs.Keys.{squeezed_text};
ghost use Rattle.slp_text.specs.Reading.{read_all, read_map};
ghost use Rattle.slp_tags.specs.Tags.{is_star};
ghost use Rattle.attr_list.specs.Pieces.{part_before};
ghost use Rattle.attr_values.specs.Rests.{rest_of};
ghost use Rattle.attr_values.specs.Values.{opaque_bytes, value_of_form};
ghost use Rattle.search_filter.specs.Operands as spec;
ghost use Rattle.search_filter.specs.Operands.{characters_in, condition_in, item_by, item_in, operand_in, operator_in, opaque_by, pattern_in, star_after, star_fault, starred, tag_in};
ghost use Rattle.attr_operands.specs.Operands.{operand_of};
ghost use Rattle.search_filter.specs.Outcomes.{IsReading, IsSameFault};
ghost use Rattle.search_filter.specs.declared.fault.FilterFault.TheVariants as fault;

use crate::fault::FilterFault;
use crate::item::{Condition, Item};
use attr_list::{AttrFault, cut_at, read_tag};
use attr_operands::Operand;
use attr_values::{integer_of, opaque_rest};
use slp_text::{Key, Row, TextFault, key, squeeze, trim, unescape_all, unescape_any};
use std::alloc::Global;
use text_patterns::Pattern;

/// How an item compares.
#[derive(Clone, Copy, Debug, PartialEq, Eq)]
enum Operator {
    Equal,
    Alike,
    AtLeast,
    AtMost,
}

// Whether a character stands in a text.
fn has(text: &str, mark: char) -> bool
    ensures { result ≡ spec.has mark (chars text.now) }
{
    cut_at(text, mark).1.is_some()
}

fn is_nothing(text: &str) -> bool
    ensures { result ≡ spec.is_nothing (chars text.now) }
{
    text.is_empty()
}

// What stands before a mark with which a text ends, and which stands nowhere else.
fn before_end(text: &str, mark: char) -> Option<&str>
    ensures { rest_of result ≡ (if spec.ends_at mark (chars text.now) then Some (part_before mark (chars text.now)) else None) }
{
    let (before, after) = cut_at(text, mark);
    let Some(after) = after else {
        return None;
    };
    if is_nothing(after) {
        Some(before)
    } else {
        None
    }
}

// The text of the tag, and the operator, of what stands before the first `=`.
fn read_operator(text: &str) -> (&str, Operator)
    ensures { (chars result.0.now, result.1) ≡ operator_in (chars text.now) }
{
    if let Some(tag) = before_end(text, '~') {
        return (tag, Operator::Alike);
    }
    if let Some(tag) = before_end(text, '>') {
        return (tag, Operator::AtLeast);
    }
    if let Some(tag) = before_end(text, '<') {
        return (tag, Operator::AtMost);
    }
    (text, Operator::Equal)
}

// Whether a key ends with a `:`.
fn ends_with_colon(tag: &Key) -> bool
    ensures { result ≡ spec.ends_with_colon tag.now }
{
    match tag.as_str().as_bytes().last() {
        Some(b) => *b == b':',
        None => false,
    }
}

// The key of a tag.
fn read_key(alloc: Global, text: &str) -> Result<Key, FilterFault>
    ensures { IsReading result (tag_in (chars text.now)) }
{
    let tag = read_tag(alloc, text, AttrFault::BadTag)?;
    if ends_with_colon(&tag) {
        return Err(FilterFault::Syntax);
    }
    Ok(tag)
}

// What an opaque operand has after its `\FF`.
fn opaque_operand(alloc: Global, rest: &str) -> Result<Operand, FilterFault>
    ensures { IsReading result (opaque_by (opaque_bytes (chars rest.now))) }
{
    let bytes = unescape_all(alloc, rest)?;
    Ok(Operand::Opaque(Row::wrap(bytes)))
}

// A text with its escapes read, each of any byte.
fn read_characters(alloc: Global, text: &str) -> Result<String, FilterFault>
    ensures { IsReading (read_map (λ s. chars (string_bytes s)) result) (characters_in (chars text.now)) }
{
    match unescape_any(alloc, text) {
        Ok(read) => Ok(read),
        Err(e) => Err(FilterFault::from(e)),
    }
}

// The operand that an unescaped and squeezed text is by its form.
fn operand_of_form(alloc: Global, text: &str) -> Result<Operand, FilterFault>
    requires { squeezed_text (chars text.now) ≡ chars text.now }
    ensures { IsReading result (Ok (operand_of (value_of_form (chars text.now)))) }
{
    let folded = key(alloc, text)?;
    let word = folded.as_str();
    if word == "true" {
        return Ok(Operand::Bool(true));
    }
    if word == "false" {
        return Ok(Operand::Bool(false));
    }
    match integer_of(text) {
        Some(number) => Ok(Operand::Int(number)),
        None => Ok(Operand::Text(folded)),
    }
}

// An operand that is not opaque.
fn spelled_operand(alloc: Global, text: &str) -> Result<Operand, FilterFault>
    ensures { IsReading result (spec.spelled_operand (chars text.now)) }
{
    let read = read_characters(alloc, text)?;
    let squeezed = squeeze(alloc, read.as_str())?;
    operand_of_form(alloc, squeezed.as_str())
}

// An operand without a raw `*`.
fn read_operand(alloc: Global, text: &str) -> Result<Operand, FilterFault>
    ensures { IsReading result (operand_in (chars text.now)) }
{
    if has(text, '\0') {
        return Err(FilterFault::Syntax);
    }
    match opaque_rest(trim(text)) {
        Some(rest) => opaque_operand(alloc, rest),
        None => spelled_operand(alloc, text),
    }
}

// The pieces of a text between its raw `*`s.
fn read_pieces(alloc: Global, text: &str) -> Result<Vec<String>, FilterFault>
    ensures { IsReading (read_map (λ v. map (λ s. chars (string_bytes s)) v.items) result) (read_all characters_in (slice_split is_star (chars text.now))) }
{
    let mut pieces = Vec::new(alloc);
    let mut rest = Some(text);
    while let Some(list) = rest {
        let (piece, more) = cut_at(list, '*');
        let read = read_characters(alloc, piece)?;
        pieces.push(read)?;
        rest = more;
    }
    Ok(pieces)
}

// Whether a text is a `*` alone.
fn is_star_alone(text: &str) -> bool
    ensures { result ≡ spec.is_star_alone (chars text.now) }
{
    match before_end(text, '*') {
        Some(before) => is_nothing(before),
        None => false,
    }
}

// The pattern that an operand with a raw `*` asks for.
fn read_pattern(alloc: Global, text: &str) -> Result<Condition, FilterFault>
    ensures { IsReading result (pattern_in (chars text.now)) }
{
    let pieces = read_pieces(alloc, text)?;
    let pattern = Pattern::new(alloc, &pieces)?;
    Ok(Condition::Like(pattern))
}

// What is asked by an operand with a raw `*`.
fn read_starred(alloc: Global, text: &str) -> Result<Condition, FilterFault>
    ensures { IsReading result (starred (chars text.now)) }
{
    let trimmed = trim(text);
    if is_star_alone(trimmed) {
        return Ok(Condition::Present);
    }
    if has(text, '\0') {
        return Err(FilterFault::Syntax);
    }
    match opaque_rest(trimmed) {
        Some(_) => Err(FilterFault::Syntax),
        None => read_pattern(alloc, text),
    }
}

// The fault of a `*` after these opaque bytes.
fn star_after_opaque(alloc: Global, rest: &str) -> FilterFault
    ensures { IsSameFault result (star_after (opaque_bytes (chars rest.now))) }
{
    match unescape_all(alloc, rest) {
        Ok(_) => FilterFault::Wildcard,
        Err(e) => FilterFault::from(e),
    }
}

// The fault of a `*` after this text.
fn star_after_text(alloc: Global, text: &str) -> FilterFault
    ensures { IsSameFault result (star_after (unescaped_bytes text.now)) }
{
    match unescape_any(alloc, text) {
        Ok(_) => FilterFault::Wildcard,
        Err(TextFault::NotUtf8) => FilterFault::Wildcard,
        Err(e) => FilterFault::from(e),
    }
}

// The fault of a `*` that may not stand, of what stands before it.
fn star_in(alloc: Global, before: &str) -> FilterFault
    ensures { IsSameFault result (star_fault (chars before.now)) }
{
    if has(before, '\0') {
        return FilterFault::Syntax;
    }
    match opaque_rest(trim(before)) {
        Some(rest) => star_after_opaque(alloc, rest),
        None => star_after_text(alloc, before),
    }
}

// What is asked by an operator and an operand.
fn read_condition(alloc: Global, operator: Operator, text: &str) -> Result<Condition, FilterFault>
    ensures { IsReading result (condition_in operator (chars text.now)) }
{
    if let (before, Some(_)) = cut_at(text, '*') {
        return match operator {
            Operator::Equal => read_starred(alloc, text),
            _ => Err(star_in(alloc, before)),
        };
    }
    let operand = read_operand(alloc, text)?;
    match operator {
        Operator::Equal | Operator::Alike => Ok(Condition::Equal(operand)),
        Operator::AtLeast => Ok(Condition::AtLeast(operand)),
        Operator::AtMost => Ok(Condition::AtMost(operand)),
    }
}

// The item of what stands before the first `=`, and after it.
fn item_of(alloc: Global, before: &str, operand: &str) -> Result<Item, FilterFault>
    ensures { IsReading result (item_by (operator_in (chars before.now)) (chars operand.now)) }
{
    let (text, operator) = read_operator(before);
    let tag = read_key(alloc, text)?;
    let condition = read_condition(alloc, operator, operand)?;
    Ok(Item { tag, condition })
}

/// The item that a text spells.
pub fn read_item(alloc: Global, text: &str) -> Result<Item, FilterFault>
    ensures { IsReading result (item_in (chars text.now)) }
{
    match cut_at(text, '=') {
        (before, Some(operand)) => item_of(alloc, before, operand),
        (_, None) => Err(FilterFault::Syntax),
    }
}
