//! Laws of filters, which callers may use. The functions do nothing: their contracts are the laws.

ghost use Rattle.std.specs.Prelude.{◌≡◌, ◌↔◌, ℕ, List, Ok, None, true};
ghost use Rattle.std.specs.FinMap as fin;
ghost use Rattle.attr_list.specs.Lists.{Attributes};
ghost use Rattle.search_filter.specs.Filters.{Filter, Filters, all, any, negated, negated_each, item, holds};
ghost use Rattle.search_filter.specs.Reading.{filter_in};
ghost use Rattle.search_filter.specs.Spelling.{SpellsFilter};
ghost use Rattle.search_filter.specs.declared.item.Item.{Item};

/// A filter is read of a text exactly where the text spells it.
pub fn what_is_spelled_is_read()
    ensures { (text : List ℕ) (f : Filter) → (SpellsFilter text f ↔ (filter_in text ≡ Ok f)) }
{}

/// A filter and the negation of its negation hold alike.
pub fn two_negations_cancel()
    ensures { (f : Filter) (a : Attributes) → holds (negated (negated f)) a ≡ holds f a }
{}

/// Under a negation, "and" and "or" change places.
pub fn and_is_or_of_negations()
    ensures and { (fs : Filters) (a : Attributes) → holds (negated (all fs)) a ≡ holds (any (negated_each fs)) a }
    ensures or { (fs : Filters) (a : Attributes) → holds (negated (any fs)) a ≡ holds (all (negated_each fs)) a }
{}

/// What is not there is not equal to anything: a negated item holds where its tag is absent.
pub fn a_negated_item_holds_of_nothing()
    ensures { (i : Item) (a : Attributes) → fin.get a i.tag ≡ None → holds (negated (item i)) a ≡ true }
{}
