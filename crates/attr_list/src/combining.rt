ghost use Rattle.std.specs.Prelude.{◌≡◌, ◌++◌, ℕ, Bool, List, map, IfOk, OnErr};
ghost use Rattle.std.specs.List.{AllByRecursion};
ghost use Rattle.std.specs.FinMap as fin;
ghost use Rattle.slp_tags.specs.Tags.{selects};
ghost use Rattle.attr_values.specs.declared.fault.AttrFault.TheVariants as fault;
ghost use Rattle.attr_list.specs.Maps.{attributes_without, elements_in, joined_attributes, kept_attributes, selected_attributes, union_of, updated_attributes};
ghost use Rattle.attr_list.specs.Pieces.{element_in, IsElement};
ghost use Rattle.attr_list.specs.Stored.{element_stored, kept_stored, selected_elements, AreStored};
ghost use Rattle.attr_list.specs.Tests.{AcceptsAs};

use crate::attrs::{Attribute, Attrs};
use crate::elements::Element;
use crate::gathering::join;
use crate::merging::merge;
use crate::values::copies;
use attr_values::AttrFault;
use slp_tags::TagList;
use slp_text::{Key, NoMemory};
use std::alloc::Global;

// Those attributes whose tags a test accepts.
fn pick<F: Fn(&Key) -> bool>(
    alloc: Global,
    entries: &[Attribute],
    accepts: &F,
) -> Result<Vec<Attribute>, NoMemory>
    requires { F.IsAlwaysCallable accepts.now }
    ensures value { (p : List ℕ → Bool) → AcceptsAs F.Fn accepts.now p → IfOk result (λ v. v.items ≡ kept_stored p entries.now) }
    ensures stored { IfOk result (λ v. AreStored entries.now → AreStored v.items) }
{
    let mut picked = Vec::new(alloc);
    for entry in entries {
        if accepts(&entry.tag) {
            picked.push(entry.copy(alloc)?)?;
        }
    }
    Ok(picked)
}

// An attribute as an element of a list.
fn element_of(alloc: Global, entry: &Attribute) -> Result<Element, NoMemory>
    ensures { IfOk result (λ e. element_in e ≡ element_stored entry.now) }
{
    let tag = entry.tag.copy(alloc)?;
    let values = copies(alloc, entry.held.values())?;
    Ok(Element { tag, values })
}

// Appends attributes as elements of a list.
fn append_elements(
    alloc: Global,
    entries: &[Attribute],
    elements: &mut Vec<Element>,
) -> Result<(), NoMemory>
    ensures { IfOk result (λ _. map element_in elements.new.items ≡ map element_in elements.old.items ++ map element_stored entries.now) }
{
    for entry in entries {
        elements.push(element_of(alloc, entry)?)?;
    }
    Ok(())
}

// The same of those attributes whose tags a list of tags selects.
fn append_selected(
    alloc: Global,
    attributes: &Attrs,
    tags: &TagList,
    elements: &mut Vec<Element>,
) -> Result<(), NoMemory>
    ensures added { IfOk result (λ _. map element_in elements.new.items ≡ map element_in elements.old.items ++ selected_elements tags.now (elements_in attributes.now)) }
    ensures sound { IfOk result (λ _. AllByRecursion IsElement (map element_in elements.old.items) → AllByRecursion IsElement (map element_in elements.new.items)) }
{
    for entry in attributes.entries() {
        if tags.selects(&entry.tag) {
            elements.push(element_of(alloc, entry)?)?;
        }
    }
    Ok(())
}

impl Attrs {
    /// What a list of tags selects of all these, joined as the elements of one list are, in their order. Only
    /// what is selected is copied, and it is joined once. Want of memory is the only fault.
    pub fn joined(alloc: Global, all: &[&Attrs], tags: &TagList) -> Result<Attrs, AttrFault>
        ensures value { IfOk result (λ a. a ≡ selected_attributes (joined_attributes (map (λ p. p.now) all.now)) tags.now) }
        ensures memory { OnErr result (result ≡ Err fault.NoMemory) }
    {
        let mut elements = Vec::new(alloc);
        for attributes in all {
            append_selected(alloc, attributes, tags, &mut elements)?;
        }
        let attributes = join(alloc, elements)?;
        Ok(attributes)
    }

    /// The attributes with the tags of others as they are there. Want of memory is the only fault.
    pub fn updated(&self, alloc: Global, more: &Attrs) -> Result<Attrs, AttrFault>
        ensures value { IfOk result (λ a. a ≡ updated_attributes self.now more.now) }
        ensures memory { OnErr result (result ≡ Err fault.NoMemory) }
    {
        let entries = merge(alloc, self.entries(), more.entries())?;
        Ok(Attrs::of(entries))
    }

    /// Both joined as the elements of one list are, these first. Want of memory is the only fault.
    pub fn union(&self, alloc: Global, more: &Attrs) -> Result<Attrs, AttrFault>
        ensures value { IfOk result (λ a. a ≡ union_of self.now more.now) }
        ensures memory { OnErr result (result ≡ Err fault.NoMemory) }
    {
        let mut elements = Vec::new(alloc);
        append_elements(alloc, self.entries(), &mut elements)?;
        append_elements(alloc, more.entries(), &mut elements)?;
        let attributes = join(alloc, elements)?;
        Ok(attributes)
    }

    /// The attributes whose tags a test accepts. Want of memory is the only fault.
    pub fn kept<F: Fn(&Key) -> bool>(&self, alloc: Global, accepts: &F) -> Result<Attrs, AttrFault>
        requires { F.IsAlwaysCallable accepts.now }
        ensures value { (p : List ℕ → Bool) → AcceptsAs F.Fn accepts.now p → IfOk result (λ a. a ≡ kept_attributes self.now p) }
        ensures memory { OnErr result (result ≡ Err fault.NoMemory) }
    {
        let entries = pick(alloc, self.entries(), accepts)?;
        Ok(Attrs::of(entries))
    }

    /// The attributes whose tags a list of tags does not select. Want of memory is the only fault.
    pub fn without(&self, alloc: Global, tags: &TagList) -> Result<Attrs, AttrFault>
        ensures value { IfOk result (λ a. a ≡ attributes_without self.now tags.now) }
        ensures memory { OnErr result (result ≡ Err fault.NoMemory) }
    {
        let entries = pick(alloc, self.entries(), &|tag: &Key| !tags.selects(tag))?;
        Ok(Attrs::of(entries))
    }

    /// The attributes whose tags a list of tags selects. Want of memory is the only fault.
    pub fn select(&self, alloc: Global, tags: &TagList) -> Result<Attrs, AttrFault>
        ensures value { IfOk result (λ a. a ≡ selected_attributes self.now tags.now) }
        ensures memory { OnErr result (result ≡ Err fault.NoMemory) }
    {
        let entries = pick(alloc, self.entries(), &|tag: &Key| tags.selects(tag))?;
        Ok(Attrs::of(entries))
    }
}
