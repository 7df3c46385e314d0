ghost use Rattle.std.specs.Prelude.{◌≡◌, [], chars, map, IfOk, None};
ghost use Rattle.std.specs.List.{AllByRecursion, slice_split};
ghost use Rattle.slp_text.specs.Reading.{read_all, read_map};
ghost use Rattle.slp_text.specs.Lists.{is_comma};
ghost use Rattle.attr_values.specs.Kinds.{IsValue};
ghost use Rattle.attr_values.specs.Reading.{IsFault, IsReading};
ghost use Rattle.attr_values.specs.Rests.{rest_of};
ghost use Rattle.attr_values.specs.Values.{value_of};
ghost use Rattle.attr_list.specs.Pieces.{element_in, next_after, opened_rest, part_after, part_before, unvalued_reading, IsElement, IsPiece, IsShorter, IsTagKey};
ghost use Rattle.attr_list.specs.Reading.{elements_of, fault_in_tag, read_from, tag_or, InElement, InTag, InValue};

use crate::elements::Element;
use attr_values::{AttrFault, Value, read_value};
use slp_text::{Key, Place, TextFault, key, trim_start, unescape_at};
use std::alloc::Global;

// An element, and what comes after its comma, if it has one.
#[derive(Drop)]
struct Piece<'a> {
    element: Element,
    rest: Option<&'a str>,
}

/// What stands before the first of a mark, and what comes after it, if it is there. Takes no memory.
pub fn cut_at(text: &str, mark: char) -> (&str, Option<&str>)
    ensures before { chars result.0.now ≡ part_before mark (chars text.now) }
    ensures after { rest_of result.1 ≡ part_after mark (chars text.now) }
{
    match text.split_once(mark) {
        Some((before, after)) => (before, Some(after)),
        None => (text, None),
    }
}

/// What comes after a `(` with which a text begins, after white space. Takes no memory.
pub fn opened(text: &str) -> Option<&str>
    ensures { rest_of result ≡ opened_rest (chars text.now) }
{
    trim_start(text).strip_prefix('(')
}

// What comes after the comma at the end of an element, if one is there.
fn next_element(text: &str) -> Result<Option<&str>, AttrFault>
    ensures { read_map rest_of result ≡ next_after (chars text.now) }
{
    let rest = trim_start(text);
    if rest.is_empty() {
        return Ok(None);
    }
    match rest.strip_prefix(',') {
        Some(next) => Ok(Some(next)),
        None => Err(AttrFault::BadList),
    }
}

// The fault of a tag: what is reserved stands raw.
fn tag_fault(e: TextFault) -> AttrFault
    ensures { result ≡ fault_in_tag e }
{
    match e {
        TextFault::BadEscape => AttrFault::BadEscape,
        TextFault::Reserved | TextFault::NotUtf8 => AttrFault::BadTag,
        TextFault::NoMemory => AttrFault::NoMemory,
    }
}

/// The key of a tag, with its escapes read; an empty one is the given fault.
pub fn read_tag(alloc: Global, text: &str, empty: AttrFault) -> Result<Key, AttrFault>
    ensures value { IsReading result (tag_or empty (chars text.now)) }
    ensures kind { IfOk result IsTagKey }
{
    let read = match unescape_at(alloc, text, Place::Tag) {
        Ok(read) => read,
        Err(e) => return Err(tag_fault(e)),
    };
    let tag = match key(alloc, read.as_str()) {
        Ok(tag) => tag,
        Err(e) => return Err(tag_fault(e)),
    };
    if tag.as_str().is_empty() {
        return Err(empty);
    }
    Ok(tag)
}

// The values of a tag, with a comma between each two.
fn read_values(alloc: Global, text: &str) -> Result<Vec<Value>, AttrFault>
    ensures value { IsReading (read_map (λ v. v.items) result) (read_all value_of (slice_split is_comma (chars text.now))) }
    ensures kind { IfOk result (λ v. AllByRecursion IsValue v.items) }
{
    let mut values = Vec::new(alloc);
    let mut rest = Some(text);
    while let Some(list) = rest {
        let (text, more) = cut_at(list, ',');
        let value = read_value(alloc, text)?;
        values.push(value)?;
        rest = more;
    }
    Ok(values)
}

// The element of a list that begins with a tag alone.
fn read_keyword(alloc: Global, list: &str) -> Result<Piece<'_>, AttrFault>
    requires { opened_rest (chars list.now) ≡ None }
    ensures value { IsPiece result (read_from (InElement []) (chars list.now)) }
    ensures kind { IfOk result (λ p. IsElement (element_in p.element)) }
    ensures shorter { IfOk result (λ p. IsShorter (rest_of p.rest) (chars list.now)) }
{
    let (text, rest) = cut_at(list, ',');
    let tag = read_tag(alloc, text, AttrFault::BadList)?;
    let element = Element {
        tag,
        values: Vec::new(alloc),
    };
    Ok(Piece { element, rest })
}

// The fault of what comes after a `(` and has no `=`.
fn unvalued(alloc: Global, text: &str) -> AttrFault
    ensures { IsFault result (unvalued_reading (chars text.now)) }
{
    match read_tag(alloc, text, AttrFault::BadList) {
        Ok(_) => AttrFault::BadList,
        Err(e) => e,
    }
}

// The element of a tag that was read, and what comes after its `=`.
fn read_valued(alloc: Global, tag: Key, list: &str) -> Result<Piece<'_>, AttrFault>
    requires { IsTagKey tag }
    ensures value { IsPiece result (read_from (InValue tag [] []) (chars list.now)) }
    ensures kind { IfOk result (λ p. IsElement (element_in p.element)) }
    ensures shorter { IfOk result (λ p. IsShorter (rest_of p.rest) (chars list.now)) }
{
    let (text, after) = cut_at(list, ')');
    let values = read_values(alloc, text)?;
    let Some(after) = after else {
        return Err(AttrFault::BadList);
    };
    let rest = next_element(after)?;
    let element = Element { tag, values };
    Ok(Piece { element, rest })
}

// The element of what comes after a `(`.
fn read_opened(alloc: Global, list: &str) -> Result<Piece<'_>, AttrFault>
    ensures value { IsPiece result (read_from (InTag []) (chars list.now)) }
    ensures kind { IfOk result (λ p. IsElement (element_in p.element)) }
    ensures shorter { IfOk result (λ p. IsShorter (rest_of p.rest) (chars list.now)) }
{
    let (text, after) = cut_at(list, '=');
    let Some(after) = after else {
        return Err(unvalued(alloc, text));
    };
    let tag = read_tag(alloc, text, AttrFault::BadTag)?;
    read_valued(alloc, tag, after)
}

// The first element of a list that has one.
fn read_element(alloc: Global, list: &str) -> Result<Piece<'_>, AttrFault>
    ensures value { IsPiece result (read_from (InElement []) (chars list.now)) }
    ensures kind { IfOk result (λ p. IsElement (element_in p.element)) }
    ensures shorter { IfOk result (λ p. IsShorter (rest_of p.rest) (chars list.now)) }
{
    match opened(list) {
        Some(inside) => read_opened(alloc, inside),
        None => read_keyword(alloc, list),
    }
}

/// The elements of a list.
pub fn read_elements(alloc: Global, text: &str) -> Result<Vec<Element>, AttrFault>
    ensures value { IsReading (read_map (λ v. map element_in v.items) result) (elements_of (chars text.now)) }
    ensures kind { IfOk result (λ v. AllByRecursion (λ e. IsElement (element_in e)) v.items) }
{
    let mut elements = Vec::new(alloc);
    if trim_start(text).is_empty() {
        return Ok(elements);
    }
    let mut rest = Some(text);
    while let Some(list) = rest {
        let piece = read_element(alloc, list)?;
        elements.push(piece.element)?;
        rest = piece.rest;
    }
    Ok(elements)
}
