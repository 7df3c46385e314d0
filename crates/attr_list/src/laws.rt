//! Laws of attribute lists, which callers may use.

ghost use Rattle.std.specs.Prelude.{◌≡◌, ◌↔◌, ℕ, List, Ok};
ghost use Rattle.attr_list.specs.Lists.{Attributes, Means};
ghost use Rattle.attr_list.specs.Reading.{attributes_in};
ghost use Rattle.attr_list.specs.Texts.{attributes_text, AreAttributes};

/// A text means the attributes that it is read as from the left, and no others; where it is not read, it
/// means nothing.
pub fn texts_mean_what_is_read()
    ensures { (text : List ℕ) (a : Attributes) → Means text a ↔ (attributes_in text ≡ Ok a) }
{}

/// Attributes that there are, once written, are read again as the same attributes.
pub fn attributes_are_read_again()
    ensures { (a : Attributes) → AreAttributes a → attributes_in (attributes_text a) ≡ Ok a }
{}
