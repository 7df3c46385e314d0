ghost use Rattle.std.specs.Prelude.{◌≡◌, ◌==◌, ◌+◌, ◌<◌, ◌≤◌, List, [], ◌∷◌, length, chars, IfOk, IsUtf8, MatchOption};
ghost use Rattle.slp_text.specs.Ascii.{left_parenthesis};
ghost use Rattle.attr_list.specs.Pieces.{part_before};
ghost use Rattle.slp_text.specs.Reading.{read_map};
ghost use Rattle.attr_values.specs.Rests.{rest_after, rest_of};
ghost use Rattle.search_filter.specs.Filters.{all, any, depth, item};
ghost use Rattle.search_filter.specs.Outcomes.{IsFault, IsReading};
ghost use Rattle.search_filter.specs.Reading.{Begun, Between, Frame, InItem, broken, connected_or_fault, deepest, filter_in, opened_frame, takes_another, whole_item};
ghost use Rattle.search_filter.specs.Trees.{closed_rest, filter_of, filters_in, IsAlone, IsConnected, IsFrontReading, IsLeftOf};
ghost use Rattle.search_filter.specs.declared.item.Item.{Item};
ghost use Rattle.search_filter.specs.declared.parsing.Connective.TheVariants as connective_is;

use crate::fault::FilterFault;
use crate::item::Item;
use crate::reading::read_item;
use crate::tree::Tree;
use attr_list::{cut_at, opened};
use slp_text::trim_start;
use std::alloc::Global;

// How many levels there may be.
const DEEPEST: usize = 32;

/// What connects the filters in a filter.
#[derive(Clone, Copy, Debug, PartialEq, Eq)]
enum Connective {
    And,
    Or,
    Not,
}

// A filter that was read, and what comes after it.
#[derive(Drop)]
struct Front<'a> {
    tree: Tree,
    rest: &'a str,
}

// What comes after a mark with which a text begins.
fn after_mark(text: &str, mark: char) -> Option<&str>
    ensures { rest_of result ≡ rest_after (λ c. c == mark) (chars text.now) }
{
    text.strip_prefix(mark)
}

// What comes after a `)` with which a text begins, after white space.
fn closed(text: &str) -> Option<&str>
    ensures { rest_of result ≡ closed_rest (chars text.now) }
{
    after_mark(trim_start(text), ')')
}

// What connects the filters in a filter whose `(` was read, and what comes after it; an item has nothing.
fn connective_in(text: &str) -> Option<(Connective, &str)>
    ensures { MatchOption result (IsAlone (chars text.now)) (λ p. IsConnected (chars text.now) p.0 (chars p.1.now)) }
{
    if let Some(rest) = after_mark(text, '&') {
        return Some((Connective::And, rest));
    }
    if let Some(rest) = after_mark(text, '|') {
        return Some((Connective::Or, rest));
    }
    if let Some(rest) = after_mark(text, '!') {
        return Some((Connective::Not, rest));
    }
    None
}

// Whether one filter more may come after these.
fn takes_more(connective: Connective, filters: &Vec<Tree>) -> bool
    ensures { result ≡ takes_another connective (filters_in filters.now.items) }
{
    match connective {
        Connective::And | Connective::Or => true,
        Connective::Not => filters.is_empty(),
    }
}

fn item_of(asked: Item) -> Tree
    ensures { filter_of result ≡ item asked }
{
    Tree::Item(asked)
}

fn all_of(filters: Vec<Tree>) -> Tree
    ensures { filter_of result ≡ all (filters_in filters.items) }
{
    Tree::All(filters)
}

fn any_of(filters: Vec<Tree>) -> Tree
    ensures { filter_of result ≡ any (filters_in filters.items) }
{
    Tree::Any(filters)
}

// The filter that these make: of one at least, and of just one after `!`.
fn connect(alloc: Global, connective: Connective, filters: Vec<Tree>) -> Result<Tree, FilterFault>
    ensures { IsReading (read_map filter_of result) (connected_or_fault connective (filters_in filters.items)) }
{
    if filters.is_empty() {
        return Err(FilterFault::Syntax);
    }
    match connective {
        Connective::And => Ok(all_of(filters)),
        Connective::Or => Ok(any_of(filters)),
        Connective::Not => negate(alloc, filters),
    }
}

// The negation of the one filter.
fn negate(alloc: Global, filters: Vec<Tree>) -> Result<Tree, FilterFault>
    ensures { IsReading (read_map filter_of result) (connected_or_fault connective_is.Not (filters_in filters.items)) }
{
    if filters.len() != 1 {
        return Err(FilterFault::Syntax);
    }
    let mut filters = filters;
    match filters.pop() {
        Some(filter) => Ok(Tree::Not(Box::new(alloc, filter)?)),
        None => Err(FilterFault::Syntax),
    }
}

// The fault of an item that has no `)`.
fn broken_item(alloc: Global, text: &str) -> FilterFault
    ensures { IsFault {A = Item} result (broken (chars text.now)) }
{
    match read_item(alloc, text) {
        Ok(_) => FilterFault::Syntax,
        Err(e) => e,
    }
}

// The fault of what has no `)`, where an item ends at a `(`, too.
fn unclosed(alloc: Global, text: &str) -> FilterFault
    ensures { IsFault {A = Item} result (broken (part_before left_parenthesis (chars text.now))) }
{
    broken_item(alloc, cut_at(text, '(').0)
}

// The item of what stands before a `)`.
fn read_whole_item(alloc: Global, text: &str) -> Result<Item, FilterFault>
    ensures { IsReading result (whole_item (chars text.now)) }
{
    match cut_at(text, '(') {
        (before, Some(_)) => Err(broken_item(alloc, before)),
        (_, None) => read_item(alloc, text),
    }
}

// The item that comes after a `(`.
fn read_alone(alloc: Global, text: &str) -> Result<Front<'_>, FilterFault>
    ensures front { (outer : List Frame) → length outer < deepest → IsFrontReading (λ frames. InItem frames []) (chars text.now) outer result }
    ensures shorter { IfOk result (IsLeftOf (chars text.now)) }
    ensures text { IfOk result (λ f. IsUtf8 f.rest.now) }
{
    let (inside, after) = cut_at(text, ')');
    match after {
        Some(rest) => {
            let item = read_whole_item(alloc, inside)?;
            Ok(Front {
                tree: item_of(item),
                rest,
            })
        }
        None => Err(unclosed(alloc, inside)),
    }
}

// The filter that comes after a `(` of a level.
#[cycle(filter)]
fn read_filter(alloc: Global, text: &str, level: usize) -> Result<Front<'_>, FilterFault>
    requires { level ≤ deepest }
    ensures front { (outer : List Frame) → length outer + 1 ≡ level → IsFrontReading Begun (chars text.now) outer result }
    ensures shorter { IfOk result (IsLeftOf (chars text.now)) }
    ensures text { IfOk result (λ f. IsUtf8 f.rest.now) }
{
    match connective_in(text) {
        Some((connective, rest)) => read_connected(alloc, connective, rest, level),
        None => read_alone(alloc, text),
    }
}

// The filter of a level whose `(` and connective were read.
#[cycle(filter)]
fn read_connected(
    alloc: Global,
    connective: Connective,
    text: &str,
    level: usize,
) -> Result<Front<'_>, FilterFault>
    requires { level ≤ deepest }
    ensures front { (outer : List Frame) → length outer + 1 ≡ level → IsFrontReading (λ frames. Between (opened_frame connective ∷ frames)) (chars text.now) outer result }
    ensures shorter { IfOk result (IsLeftOf (chars text.now)) }
    ensures text { IfOk result (λ f. IsUtf8 f.rest.now) }
{
    let mut filters = Vec::new(alloc);
    let mut rest = text;
    while let Some(inside) = opened(rest) {
        if !takes_more(connective, &filters) {
            return Err(FilterFault::Syntax);
        }
        if level == DEEPEST {
            return Err(FilterFault::TooDeep);
        }
        let front = read_filter(alloc, inside, level + 1)?;
        filters.push(front.tree)?;
        rest = front.rest;
    }
    let Some(after) = closed(rest) else {
        return Err(FilterFault::Syntax);
    };
    let tree = connect(alloc, connective, filters)?;
    Ok(Front { tree, rest: after })
}

// The filter that a text spells.
pub fn read_whole(alloc: Global, text: &str) -> Result<Tree, FilterFault>
    ensures value { IsReading (read_map filter_of result) (filter_in text.now) }
    ensures shallow { IfOk result (λ tree. depth (filter_of tree) ≤ deepest) }
{
    let Some(inside) = opened(text) else {
        return Err(FilterFault::Syntax);
    };
    let front = read_filter(alloc, inside, 1)?;
    if trim_start(front.rest).is_empty() {
        Ok(front.tree)
    } else {
        drop(front.tree);
        Err(FilterFault::Syntax)
    }
}
