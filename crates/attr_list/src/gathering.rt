ghost use Rattle.std.specs.Prelude.{◌≡◌, ℕ, List, [], map, fold, IfOk};
ghost use Rattle.std.specs.List.{AllByRecursion};
ghost use Rattle.std.specs.List.Sorted.{IsStrictlySortedBy};
ghost use Rattle.slp_text.specs.Words.{bytes_cmp};
ghost use Rattle.attr_list.specs.Gathering.{gathered_values, joined_with, pair_of};
ghost use Rattle.attr_list.specs.Lists as spec;
ghost use Rattle.attr_list.specs.Lists.{attributes_of, distinct_values};
ghost use Rattle.attr_list.specs.Pieces.{element_in, IsElement};
ghost use Rattle.attr_list.specs.Stored.{pairs_in};

use crate::attrs::{Attribute, Attrs};
use crate::elements::Element;
use crate::held::Held;
use crate::values::Values;
use attr_values::Value;
use slp_text::{Key, NoMemory};
use std::alloc::Global;

// Adds an element: its values to those of the last, where both have one tag.
fn add(element: Element, joined: &mut Vec<Element>) -> Result<(), NoMemory>
    ensures { IfOk result (λ _. map element_in joined.new.items ≡ joined_with (map element_in joined.old.items) (element_in element)) }
{
    let Some(mut last) = joined.pop() else {
        joined.push(element)?;
        return Ok(());
    };
    if last.tag != element.tag {
        joined.push(last)?;
        joined.push(element)?;
        return Ok(());
    }
    let Element { tag: _, mut values } = element;
    last.values.append(&mut values)?;
    joined.push(last)?;
    Ok(())
}

// The elements, with neighbours of one tag as one.
fn join_neighbours(alloc: Global, elements: Vec<Element>) -> Result<Vec<Element>, NoMemory>
    ensures { IfOk result (λ v. map element_in v.items ≡ fold joined_with [] (map element_in elements.items)) }
{
    let mut joined = Vec::with_capacity(alloc, elements.len())?;
    for element in elements {
        add(element, &mut joined)?;
    }
    Ok(joined)
}

// The elements in the order of their tags, those of one tag as one.
fn gather(alloc: Global, elements: Vec<Element>) -> Result<Vec<Element>, NoMemory>
    ensures values { IfOk result (λ v. (tag : List ℕ) → gathered_values (map element_in v.items) tag ≡ gathered_values (map element_in elements.items) tag) }
    ensures rises { IfOk result (λ v. IsStrictlySortedBy bytes_cmp (map (λ e. e.tag) v.items)) }
{
    let mut ordered = elements;
    ordered.sort_by(|a, b| a.tag.cmp(&b.tag))?;
    join_neighbours(alloc, ordered)
}

// What a tag holds of which these are all values: each once, and none of a keyword.
fn held_of(alloc: Global, values: Vec<Value>) -> Result<Held, NoMemory>
    ensures { IfOk result (λ h. h ≡ spec.held_of (distinct_values values.items)) }
{
    if values.is_empty() {
        return Ok(Held::Keyword);
    }
    Ok(Held::Values(Values::distinct(alloc, values)?))
}

// What each element holds.
fn settle(alloc: Global, elements: Vec<Element>) -> Result<Vec<Attribute>, NoMemory>
    ensures { IfOk result (λ v. pairs_in v.items ≡ map pair_of (map element_in elements.items)) }
{
    let mut settled = Vec::with_capacity(alloc, elements.len())?;
    for element in elements {
        let Element { tag, values } = element;
        let held = held_of(alloc, values)?;
        settled.push(Attribute { tag, held })?;
    }
    Ok(settled)
}

/// The attributes that elements give: each tag holds all its values, in their order, each once. It takes
/// time for the number of elements and values and its logarithm.
pub fn join(alloc: Global, elements: Vec<Element>) -> Result<Attrs, NoMemory>
    requires { AllByRecursion (λ e. IsElement (element_in e)) elements.items }
    ensures { IfOk result (λ a. a ≡ attributes_of (map element_in elements.items)) }
{
    if elements.is_empty() {
        return Ok(Attrs::of(Vec::new(alloc)));
    }
    let gathered = gather(alloc, elements)?;
    let entries = settle(alloc, gathered)?;
    Ok(Attrs::of(entries))
}
