//! Tags and values that are lent, which contracts see as what they are.
ghost use Rattle.std.specs.Prelude.{◌≡◌};
ghost use Rattle.std.proofs.Common.{rules};
ghost use Rattle.std.specs.Cmp.{partial_order_from_own_ties};
ghost use Rattle.std.specs.Cmp.Rules.{comparing};
ghost use Rattle.std.specs.Ordering.{as_partial_cmp};
ghost use Rattle.slp_text.specs.Words.{bytes_eq, bytes_cmp};

use attr_list::Value;
use slp_text::Key;
use std::cmp::Ordering;
use std::marker::Model;

// The key of a tag, lent.
#[derive(Drop)]
pub struct LentTag<'a> {
    pub(crate) key: &'a Key,
}

impl<'a> Model for LentTag<'a> {
    ghost use Rattle.std.specs.Prelude.{List, ℕ};

    ghost Value = { List ℕ };

    ghost view = { λ a. a.key.now };
}

impl<'a> PartialEq for LentTag<'a> {
    ghost eq = { bytes_eq };

    ghost laws = { Prim.search (comparing, rules) };

    fn eq(&self, other: &LentTag<'a>) -> bool {
        *self.key == *other.key
    }
}

impl<'a> Eq for LentTag<'a> {
    ghost laws = { Prim.search (comparing, rules) };
}

impl<'a> Ord for LentTag<'a> {
    ghost cmp = { bytes_cmp };

    ghost total = { Prim.search (comparing, rules) };

    ghost matches_partial_cmp = { Prim.search (comparing, rules) };

    ghost matches_eq = { Prim.search (comparing, rules) };

    fn cmp(&self, other: &LentTag<'a>) -> Ordering {
        self.key.cmp(other.key)
    }
}

impl<'a> PartialOrd for LentTag<'a> {
    ghost partial_cmp = { as_partial_cmp bytes_cmp };

    ghost laws = { partial_order_from_own_ties (Prim.search (comparing, rules)) (Prim.search (comparing, rules)) };

    fn partial_cmp(&self, other: &LentTag<'a>) -> Option<Ordering> {
        Some(self.cmp(other))
    }
}

// A value, lent.
#[derive(Drop)]
pub struct LentValue<'a> {
    pub(crate) value: &'a Value,
}

impl<'a> Model for LentValue<'a> {
    ghost use Rattle.attr_values.specs.declared.value.Value as values;
    ghost use Rattle.attr_list.specs.Codes.{value_code};

    ghost Value = { values.Value };

    ghost coded = { value_code };

    ghost view = { λ a. a.value.now };
}
