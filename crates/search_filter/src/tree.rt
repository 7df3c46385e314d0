ghost use Rattle.std.specs.Prelude.{◌≡◌, ℕ, Bool, List};
ghost use Rattle.attr_list.specs.Maps.{kept_attributes};
ghost use Rattle.attr_list.specs.Tests.{AcceptsAs};
ghost use Rattle.search_filter.specs.Looks.{IsLast};
ghost use Rattle.search_filter.specs.Trees.{filter_of, filters_in, holds_as, each_holds_as};

use crate::item::Item;
use crate::looks::{Keeps, Look};
use attr_list::Attrs;
use slp_text::Key;

// A filter as it was written.
pub enum Tree {
    All(Vec<Tree>),
    Any(Vec<Tree>),
    Not(Box<Tree>),
    Item(Item),
}

impl Drop for Tree {
    fn drop(self) {
        match self {
            Tree::All(_) => {}
            Tree::Any(_) => {}
            Tree::Not(_) => {}
            Tree::Item(_) => {}
        }
    }
}

// How filters beside each other hold: they themselves or their negations, all of them or some.
#[derive(Clone, Copy)]
pub struct Turn {
    pub positive: bool,
    pub all: bool,
}

// Whether a filter holds on the attributes whose tags a test accepts, or its negation. The sign goes down the tree, in
// which negations stay where they were written. It takes no memory, and one level of recursion for each of the filter.
#[cycle(holds_where)]
pub fn holds_where<'a, K: Keeps, F: Fn(&Key) -> bool>(
    tree: &'a Tree,
    attributes: &'a Attrs,
    positive: bool,
    accepts: &F,
    last: &mut Option<Look<'a>>,
) -> bool
    requires callable { F.IsAlwaysCallable accepts.now }
    requires last { IsLast F.Fn accepts.now attributes.now last.old }
    ensures holds { (p : List ℕ → Bool) → AcceptsAs F.Fn accepts.now p → result ≡ holds_as positive (kept_attributes attributes.now p) (filter_of tree.now) }
    ensures last { IsLast F.Fn accepts.now attributes.now last.new }
{
    match tree {
        Tree::All(filters) => {
            let turn = Turn {
                positive,
                all: positive,
            };
            each_holds_where::<K, F>(filters, attributes, turn, accepts, last)
        }
        Tree::Any(filters) => {
            let turn = Turn {
                positive,
                all: !positive,
            };
            each_holds_where::<K, F>(filters, attributes, turn, accepts, last)
        }
        Tree::Not(filter) => holds_where::<K, F>(filter, attributes, !positive, accepts, last),
        Tree::Item(item) => item.holds::<K, F>(attributes, positive, accepts, last),
    }
}

// Whether all filters hold, or some, of them or of their negations.
#[cycle(holds_where)]
fn each_holds_where<'a, K: Keeps, F: Fn(&Key) -> bool>(
    filters: &'a Vec<Tree>,
    attributes: &'a Attrs,
    turn: Turn,
    accepts: &F,
    last: &mut Option<Look<'a>>,
) -> bool
    requires callable { F.IsAlwaysCallable accepts.now }
    requires last { IsLast F.Fn accepts.now attributes.now last.old }
    ensures holds { (p : List ℕ → Bool) → AcceptsAs F.Fn accepts.now p → result ≡ each_holds_as turn.positive turn.all (kept_attributes attributes.now p) (filters_in filters.now.items) }
    ensures last { IsLast F.Fn accepts.now attributes.now last.new }
{
    for filter in filters {
        if holds_where::<K, F>(filter, attributes, turn.positive, accepts, last) != turn.all {
            return !turn.all;
        }
    }
    turn.all
}
