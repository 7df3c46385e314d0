//! The values of each tag, in the order of the lists.
ghost use Rattle.std.specs.Prelude.{◌≡◌, ◌++◌, ℕ, List, map, IfOk};
ghost use Rattle.std.specs.BTreeMap.{IsOrdered};
ghost use Rattle.slp_text.specs.Words.{bytes_cmp};
ghost use Rattle.attr_list.specs.Gathering.{gathered_values};
ghost use Rattle.attr_union.specs.Gathering.{pairs_of, values_at, values_with};
ghost use Rattle.attr_union.specs.Unions.{joined_pair, piece_element};

use crate::lent::{LentTag, LentValue};
use attr_list::{Held, Value};
use slp_text::{Key, NoMemory};
use std::alloc::Global;
use std::collections::BTreeMap;

// A tag, and what it holds in one of the lists.
#[derive(Clone, Copy)]
pub struct Piece<'a> {
    pub tag: &'a Key,
    pub held: &'a Held,
}

// A tag, and all values that it has in the lists, in their order; a value may be there more than once.
pub struct Joined<'a> {
    pub tag: LentTag<'a>,
    pub values: Vec<LentValue<'a>>,
}

impl<'a> Drop for Joined<'a> {
    fn drop(self) {
        let Joined { tag: _, values: _ } = self;
    }
}

// Appends values, lent.
fn lend<'a>(values: &'a [Value], all: &mut Vec<LentValue<'a>>) -> Result<(), NoMemory>
    ensures { IfOk result (λ _. all.new.items ≡ all.old.items ++ values.now) }
{
    for value in values {
        all.push(LentValue { value })?;
    }
    Ok(())
}

// Adds what a tag holds in a list to what it has of those before.
fn add<'a>(
    alloc: Global,
    piece: Piece<'a>,
    named: &mut BTreeMap<LentTag<'a>, Vec<LentValue<'a>>>,
) -> Result<(), NoMemory>
    ensures { IfOk result (λ _. (tag : List ℕ) → values_at named.new tag ≡ values_with (values_at named.old) (piece_element piece.entry) tag) }
{
    let tag = LentTag { key: piece.tag };
    match named.get_mut(&tag) {
        Some(all) => {
            lend(piece.held.values(), all)?;
            Ok(())
        }
        None => {
            let mut all = Vec::new(alloc);
            lend(piece.held.values(), &mut all)?;
            named.insert(tag, all)?;
            Ok(())
        }
    }
}

/// All values of each tag. It takes time for the number of pieces and values, and the logarithm of that of tags.
pub fn gather<'a>(
    alloc: Global,
    pieces: Vec<Piece<'a>>,
) -> Result<BTreeMap<LentTag<'a>, Vec<LentValue<'a>>>, NoMemory>
    ensures { IfOk result (λ m. (tag : List ℕ) → values_at m tag ≡ gathered_values (map piece_element pieces.entry.items) tag) }
{
    let mut named = BTreeMap::new(alloc);
    for piece in pieces {
        add(alloc, piece, &mut named)?;
    }
    Ok(named)
}

/// The tags with their values, in key order.
pub fn settle<'a>(
    alloc: Global,
    named: BTreeMap<LentTag<'a>, Vec<LentValue<'a>>>,
) -> Result<Vec<Joined<'a>>, NoMemory>
    ensures value { IfOk result (λ v. map joined_pair v.items ≡ pairs_of named.entry) }
    ensures ordered { IsOrdered bytes_cmp named.entry }
{
    let mut settled = Vec::new(alloc);
    for (tag, values) in named {
        settled.push(Joined { tag, values })?;
    }
    Ok(settled)
}
