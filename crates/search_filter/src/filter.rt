ghost use Rattle.std.specs.Prelude.{◌≡◌, ℕ, Bool, List};
ghost use Rattle.attr_list.specs.Maps.{kept_attributes};
ghost use Rattle.attr_list.specs.Tests.{AcceptsAs};
ghost use Rattle.search_filter.specs.Filters as spec;
ghost use Rattle.search_filter.specs.Outcomes.{IsReading};
ghost use Rattle.search_filter.specs.Reading.{filter_in};

use crate::fault::FilterFault;
use crate::looks::{Always, Never};
use crate::parsing::read_whole;
use crate::tree::{Tree, holds_where};
use attr_list::Attrs;
use slp_text::Key;
use std::alloc::Global;
use std::marker::Model;

/// A search filter of at most 32 levels, which contracts see as its tree.
pub struct Filter {
    tree: Tree,
}

impl Drop for Filter {
    fn drop(self) {
        let Filter { tree: _ } = self;
    }
}

impl Model for Filter {
    ghost use Rattle.std.specs.Prelude.{◌≤◌};
    ghost use Rattle.search_filter.specs.Codes.{filter_code};
    ghost use Rattle.search_filter.specs.Filters as filters;
    ghost use Rattle.search_filter.specs.Reading.{deepest};
    ghost use Rattle.search_filter.specs.Trees.{filter_of};

    ghost Value = { filters.Filter };

    ghost coded = { filter_code };

    ghost view = { λ f. filter_of f.tree };

    ghost invariant = { λ f. filters.depth (filter_of f.tree) ≤ deepest };
}

impl Filter {
    /// The filter that a text spells, or its first fault from the left. A `*` outside `=` is `Wildcard`, the
    /// `(` of level 33 `TooDeep`, and all else that is not a filter, bad escapes and tags among it, `Syntax`.
    /// It takes time for the length of the text, and at most 32 levels of recursion.
    pub fn parse(alloc: Global, text: &str) -> Result<Filter, FilterFault>
        ensures { IsReading result (filter_in text.now) }
    {
        let tree = read_whole(alloc, text)?;
        Ok(Filter { tree })
    }

    /// Whether the filter holds on attributes: negations count at the items, where they ask for a value
    /// that is not met, or for none. It takes no memory, and recurses for as many levels as the filter has,
    /// which are 32 at most.
    pub fn holds(&self, attributes: &Attrs) -> bool
        ensures { result ≡ spec.holds self.now attributes.now }
    {
        self.holds_where(attributes, &|_: &Key| true)
    }

    /// Whether the filter holds on those attributes alone whose tags a test accepts; the others count as absent. The test is asked of
    /// a tag that an item names and that is there. It takes no memory, where the test takes none, and recurses as `holds` does.
    #[inline(always)]
    pub fn holds_where<F: Fn(&Key) -> bool>(&self, attributes: &Attrs, accepts: &F) -> bool
        requires { F.IsAlwaysCallable accepts.now }
        ensures { (p : List ℕ → Bool) → AcceptsAs F.Fn accepts.now p → result ≡ spec.holds self.now (kept_attributes attributes.now p) }
    {
        holds_where::<Never, F>(&self.tree, attributes, true, accepts, &mut None)
    }

    /// The same. The test is asked once for a run of items about one tag, and each item is compared with the one before it: for a test that
    /// costs more than that.
    pub fn holds_where_once<F: Fn(&Key) -> bool>(&self, attributes: &Attrs, accepts: &F) -> bool
        requires { F.IsAlwaysCallable accepts.now }
        ensures { (p : List ℕ → Bool) → AcceptsAs F.Fn accepts.now p → result ≡ spec.holds self.now (kept_attributes attributes.now p) }
    {
        holds_where::<Always, F>(&self.tree, attributes, true, accepts, &mut None)
    }
}
