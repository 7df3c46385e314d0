ghost use Rattle.std.specs.Prelude.{◌≡◌, ◌++◌, ◌∷◌, [], ℕ, Bool, List, filter, map, IfOk};
ghost use Rattle.std.specs.List.{AllByRecursion};
ghost use Rattle.attr_list.specs.Lists.{attributes_of};
ghost use Rattle.attr_list.specs.Maps.{elements_in, kept_attributes};
ghost use Rattle.attr_list.specs.Pieces.{IsElement};
ghost use Rattle.attr_list.specs.Tests.{AcceptsAs};
ghost use Rattle.attr_union.specs.Unions.{piece_element};

use crate::gathering::{Piece, gather, settle};
use crate::union::AttrUnion;
use attr_list::Attrs;
use slp_text::{Key, NoMemory};
use std::alloc::Global;
use std::marker::Model;

/// Attributes that are gathered to be joined, list by list, which contracts see as the elements of one list. They are
/// lent.
#[derive(Drop)]
pub struct Gathering<'a> {
    pieces: Vec<Piece<'a>>,
}

impl<'a> Model for Gathering<'a> {
    ghost use Rattle.std.specs.Prelude.{List, map};
    ghost use Rattle.std.specs.List.{AllByRecursion};
    ghost use Rattle.attr_list.specs.Elements.{Element};
    ghost use Rattle.attr_list.specs.Pieces.{IsElement};
    ghost use Rattle.attr_union.specs.Unions.{piece_element};

    ghost Value = { List Element };

    ghost view = { λ a. map piece_element a.pieces.items };

    ghost invariant = { λ a. AllByRecursion IsElement (map piece_element a.pieces.items) };
}

// Appends a piece, if a test accepts its tag.
fn push_accepted<'a, F: Fn(&Key) -> bool>(
    piece: Piece<'a>,
    accepts: &F,
    pieces: &mut Vec<Piece<'a>>,
) -> Result<(), NoMemory>
    requires { F.IsAlwaysCallable accepts.now }
    ensures added { (p : List ℕ → Bool) → AcceptsAs F.Fn accepts.now p → IfOk result (λ _. map piece_element pieces.new.items ≡ map piece_element pieces.old.items ++ filter (λ e. p e.tag) (piece_element piece.entry ∷ [])) }
    ensures sound { IsElement (piece_element piece.entry) → AllByRecursion IsElement (map piece_element pieces.old.items) → AllByRecursion IsElement (map piece_element pieces.new.items) }
{
    if accepts(piece.tag) {
        pieces.push(piece)?;
    }
    Ok(())
}

// Appends those attributes of a list whose tags a test accepts.
fn append_accepted<'a, F: Fn(&Key) -> bool>(
    attributes: &'a Attrs,
    accepts: &F,
    pieces: &mut Vec<Piece<'a>>,
) -> Result<(), NoMemory>
    requires { F.IsAlwaysCallable accepts.now }
    ensures added { (p : List ℕ → Bool) → AcceptsAs F.Fn accepts.now p → IfOk result (λ _. map piece_element pieces.new.items ≡ map piece_element pieces.old.items ++ elements_in (kept_attributes attributes.now p)) }
    ensures sound { AllByRecursion IsElement (map piece_element pieces.old.items) → AllByRecursion IsElement (map piece_element pieces.new.items) }
{
    for place in 0..attributes.len() {
        if let Some((tag, held)) = attributes.at(place) {
            push_accepted(Piece { tag, held }, accepts, pieces)?;
        }
    }
    Ok(())
}

impl<'a> Gathering<'a> {
    /// No attributes yet.
    pub fn new(alloc: Global) -> Gathering<'a>
        ensures { result ≡ [] }
    {
        let pieces = Vec::new(alloc);
        Gathering { pieces }
    }

    /// Adds those attributes of a list whose tags a test accepts, after those of the lists before. It is one pass: each
    /// attribute is looked at once. Where memory runs out, some of them may stand there.
    pub fn add<F: Fn(&Key) -> bool>(
        &mut self,
        attributes: &'a Attrs,
        accepts: &F,
    ) -> Result<(), NoMemory>
        requires { F.IsAlwaysCallable accepts.now }
        ensures { (p : List ℕ → Bool) → AcceptsAs F.Fn accepts.now p → IfOk result (λ _. self.new ≡ self.old ++ elements_in (kept_attributes attributes.now p)) }
    {
        append_accepted(attributes, accepts, &mut self.pieces)
    }

    /// All of them joined as the elements of one list are: each tag has all its values, each once. It takes time for the
    /// number of attributes and values, and the logarithm of that of tags.
    pub fn join(self, alloc: Global) -> Result<AttrUnion<'a>, NoMemory>
        ensures { IfOk result (λ a. a ≡ attributes_of self.entry) }
    {
        let named = gather(alloc, self.pieces)?;
        let tags = settle(alloc, named)?;
        Ok(AttrUnion::of(tags))
    }
}
