ghost use Rattle.std.specs.Prelude.{◌≡◌, slice_get, IfOk};
ghost use Rattle.std.specs.FinMap as fin;
ghost use Rattle.std.specs.Option.{option_copied, option_map};
ghost use Rattle.attr_list.specs.Lists.{Attributes};
ghost use Rattle.attr_list.specs.Texts.{AreAttributes};

use crate::held::Held;
use slp_text::{Key, NoMemory};
use std::alloc::Global;
use std::marker::Model;

// A tag, and what it holds.
pub struct Attribute {
    pub tag: Key,
    pub held: Held,
}

impl Drop for Attribute {
    #[inline(always)]
    fn drop(self) {
        let Attribute { tag: _, held: _ } = self;
    }
}

/// Attributes, which contracts see as a finite map from the keys of their tags.
pub struct Attrs {
    entries: Vec<Attribute>,
}

impl Drop for Attrs {
    #[inline(always)]
    fn drop(self) {
        let Attrs { entries: _ } = self;
    }
}

impl Model for Attrs {
    ghost use Rattle.attr_list.specs.Codes.{attributes_code};
    ghost use Rattle.attr_list.specs.Lists.{Attributes};
    ghost use Rattle.attr_list.specs.Stored.{attributes_stored, AreStored};

    ghost Value = { Attributes };

    ghost coded = { attributes_code };

    ghost view = { λ a. attributes_stored a.entries.items };

    ghost invariant = { λ a. AreStored a.entries.items };
}

impl Attribute {
    // An equal attribute.
    pub fn copy(&self, alloc: Global) -> Result<Attribute, NoMemory>
        ensures { IfOk result (λ a. a ≡ self.now) }
    {
        let tag = self.tag.copy(alloc)?;
        let held = self.held.copy(alloc)?;
        Ok(Attribute { tag, held })
    }
}

// Equal attributes, in the same order.
fn copies(alloc: Global, entries: &[Attribute]) -> Result<Vec<Attribute>, NoMemory>
    ensures { IfOk result (λ copied. copied.items ≡ entries.now) }
{
    let mut copied = Vec::with_capacity(alloc, entries.len())?;
    for entry in entries {
        copied.push(entry.copy(alloc)?)?;
    }
    Ok(copied)
}

/// So few tags are compared one after the other, since most differ in length.
const FEW: usize = 8;

impl Attrs {
    ghost use Rattle.std.specs.Prelude.{ℕ, List};
    ghost use Rattle.slp_text.specs.Words.{bytes_cmp};
    ghost use Rattle.attr_list.specs.Stored.{attributes_stored, AreStored, pairs_in};

    // Those that stand in key order, each tag once.
    pub(crate) fn of(entries: Vec<Attribute>) -> Attrs
        requires { AreStored entries.items }
        ensures { result ≡ attributes_stored entries.items }
    {
        Attrs { entries }
    }

    // The attributes in key order.
    pub(crate) fn entries(&self) -> &[Attribute]
        ensures value { fin.entries self.now ≡ pairs_in result.now }
        ensures stored { AreStored result.now }
    {
        &self.entries
    }

    /// How many tags there are. Takes no memory.
    pub fn len(&self) -> usize
        ensures value { result ≡ fin.len self.now }
        ensures kind { AreAttributes self.now }
    {
        self.entries.len()
    }

    /// The attribute at a place, counted from 0 in key order. Takes no memory.
    pub fn at(&self, place: usize) -> Option<(&Key, &Held)>
        ensures { option_map (λ p. (p.0.now, p.1.now)) result ≡ slice_get (fin.entries self.now) place }
    {
        match self.entries.get(place) {
            Some(entry) => Some((&entry.tag, &entry.held)),
            None => None,
        }
    }

    // What a tag holds of attributes that are searched from the front.
    fn found<'a>(entries: &'a [Attribute], tag: &Key) -> Option<&'a Held>
        ensures { option_copied result ≡ fin.find bytes_cmp tag.now (pairs_in entries.now) }
    {
        for place in 0..entries.len() {
            let entry = &entries[place];
            if *tag == entry.tag {
                return Some(&entry.held);
            }
        }
        None
    }

    // What a tag holds, if it is there, by halves.
    fn halved(&self, tag: &Key) -> Option<&Held>
        ensures { option_copied result ≡ fin.get self.now tag.now }
    {
        match self.entries.binary_search_by(|entry| entry.tag.cmp(tag)) {
            Ok(place) => Some(&self.entries[place].held),
            Err(_) => None,
        }
    }

    /// What a tag holds, if it is there. It takes time for the logarithm of the length, and no memory.
    pub fn get(&self, tag: &Key) -> Option<&Held>
        ensures { option_copied result ≡ fin.get self.now tag.now }
    {
        if self.entries.len() > FEW {
            return self.halved(tag);
        }
        Attrs::found(&self.entries, tag)
    }

    /// Equal attributes.
    pub fn copy(&self, alloc: Global) -> Result<Attrs, NoMemory>
        ensures { IfOk result (λ a. a ≡ self.now) }
    {
        let entries = copies(alloc, &self.entries)?;
        Ok(Attrs { entries })
    }
}
