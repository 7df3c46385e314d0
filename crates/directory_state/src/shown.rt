//! What is shown of an entry, and to whom.
ghost use Rattle.std.specs.Prelude.{◌≡◌, ◌+◌, ◌<◌, ◌++◌, flat_map, get_or, length, map, [], IfOk, MatchOption};
ghost use Rattle.std.specs.List.{list_any};
ghost use Rattle.access_rules.specs.Deciding.{deed, is_hidden_by};
ghost use Rattle.access_rules.specs.declared.rule.Action.TheVariants.{See};
ghost use Rattle.attr_list.specs.Lists.{attributes_of};
ghost use Rattle.search_filter.specs.Filters.{holds};
ghost use Rattle.directory_questions.specs.Sights.{is_left_in, is_shown};
ghost use Rattle.slp_tags.specs.Tags.{selects};
ghost use Rattle.directory_state.specs.Searches.{entries_in, open_scopes, seen_of, shown_elements, shows_in, AreSeenBy, IsFirst, IsSight, ShowsAll};

use crate::asked::Viewer;
use crate::viewer::Seen;
use access_rules::FittingHides;
use attr_list::Attrs;
use attr_union::{AttrUnion, Gathering};
use registry_core::Entry;
use search_filter::Filter;
use slp_tags::TagList;
use slp_text::{Key, NoMemory};
use std::alloc::Global;

/// How an entry is seen of which something may be hidden: it is open in the scope at this place of those that are asked for, and in
/// none before it, and these hide tables fit there. In which others it is open is asked where a tag is hidden in this one.
#[derive(Clone, Copy)]
pub struct Sight<'a> {
    pub first: usize,
    pub tables: FittingHides<'a>,
}

// Whether a tag is selected. By no parts each is, which is known without a call.
#[inline(always)]
fn is_selected(tags: &TagList, tag: &Key) -> bool
    ensures { result ≡ selects tags.now tag.now }
{
    tags.is_empty() || tags.selects(tag)
}

impl Viewer<'_> {
    // How an entry is seen that is open first in the scope at this place. `None` is that all of it is shown, since no hide table fits there.
    fn sight(&self, seen: Seen<'_>) -> Option<Sight<'_>>
        requires { IsFirst self.now seen.entry.now seen.first }
        ensures { MatchOption result (ShowsAll self.now seen.entry.entry.now) (IsSight self.now seen.entry.entry.now) }
    {
        let first = seen.first;
        let tables = self
            .about
            .fitting_hides(&self.seeing(seen.entry), self.asked.at(first))?;
        Some(Sight { first, tables })
    }

    // Whether an entry is open in a scope, and no hide table takes a tag of it away there.
    fn shows_in(&self, entry: &Entry, scope: &Key, tag: &Key) -> bool
        ensures { result ≡ shows_in self.now entry.now tag.now scope.now }
    {
        self.is_open_in(entry, scope) && !self.about.hide_tag(&self.seeing(entry), scope, tag)
    }

    // Whether a tag of an entry is left in a scope in which it is open, of those that are asked for after a place.
    // A call of its own in the machine's code: most tags are shown in the first scope.
    #[inline(never)]
    fn shows_after(&self, entry: &Entry, place: usize, tag: &Key) -> bool
        requires { place < length self.now.asked }
        ensures { result ≡ list_any (is_left_in self.now.rules.now self.now.asker entry.now tag.now) (open_scopes self.now entry.now (place + 1)) }
    {
        let count = self.asked.len();
        for later in place + 1..count {
            if self.shows_in(entry, self.asked.at(later), tag) {
                return true;
            }
        }
        false
    }

    // Whether a tag of an entry is hidden in the scope in which it is open first. Which scope that is is looked up only where a table after
    // the first is asked.
    #[inline(always)]
    fn hides_first(&self, entry: &Entry, sight: &Sight<'_>, tag: &Key) -> bool
        requires { IsSight self.now entry.now sight.now }
        ensures { result ≡ is_hidden_by sight.now.tables (deed self.now.asker See entry.now.kind entry.now.owner) (get_or self.now.asked sight.now.first []) tag.now }
    {
        if sight.tables.first_hides(tag) {
            return true;
        }
        if sight.tables.is_one() {
            return false;
        }
        let scope = self.asked.at(sight.first);
        sight.tables.others_hide(&self.seeing(entry), scope, tag)
    }

    // Whether a tag of an entry is shown: in one of the scopes in which the entry is open no hide table takes it away. The scopes
    // after the first are asked where it is hidden there. Takes no memory.
    fn shows(&self, entry: &Entry, sight: &Sight<'_>, tag: &Key) -> bool
        requires { IsSight self.now entry.now sight.now }
        ensures { result ≡ is_shown self.now.rules.now self.now.asker self.now.asked entry.now tag.now }
    {
        !self.hides_first(entry, sight, tag) || self.shows_after(entry, sight.first, tag)
    }

    /// Whether a filter holds on what is shown of an entry that is seen. Where nothing is hidden from who asks, no tag is asked about. Takes no
    /// memory.
    #[inline(always)]
    pub fn holds(&self, filter: &Filter, seen: Seen<'_>) -> bool
        requires { IsFirst self.now seen.entry.now seen.first }
        ensures { result ≡ holds filter.now (seen_of self.now seen.entry.entry.now).attrs }
    {
        if self.about.hide_nothing() {
            return filter.holds(&seen.entry.attrs);
        }
        self.holds_by_sight(filter, seen)
    }

    // The same, where something is hidden from who asks. A call of its own in the machine's code, so that the walk over entries keeps its
    // registers.
    #[cold]
    #[inline(never)]
    fn holds_by_sight(&self, filter: &Filter, seen: Seen<'_>) -> bool
        requires { IsFirst self.now seen.entry.now seen.first }
        ensures { result ≡ holds filter.now (seen_of self.now seen.entry.entry.now).attrs }
    {
        let entry = seen.entry;
        match self.sight(seen) {
            Some(sight) => {
                let shows = |tag: &Key| { self.shows(entry, &sight, tag) };
                if sight.tables.is_one() {
                    filter.holds_where(&entry.attrs, &shows)
                } else {
                    filter.holds_where_once(&entry.attrs, &shows)
                }
            }
            None => filter.holds(&entry.attrs),
        }
    }

    // Adds what is shown of the attributes of an entry, and is selected.
    fn add_shown<'a>(
        &self,
        seen: Seen<'a>,
        tags: &TagList,
        gathering: &mut Gathering<'a>,
    ) -> Result<(), NoMemory>
        requires { IsFirst self.now seen.entry.now seen.first }
        ensures { IfOk result (λ _. gathering.new ≡ gathering.old ++ shown_elements self.now tags.now seen.entry.entry.now) }
    {
        if self.about.hide_nothing() {
            return gathering.add(&seen.entry.attrs, &|tag: &Key| is_selected(tags, tag));
        }
        self.add_by_sight(seen, tags, gathering)
    }

    // The same, where something is hidden from who asks: a call of its own as well.
    #[cold]
    #[inline(never)]
    fn add_by_sight<'a>(
        &self,
        seen: Seen<'a>,
        tags: &TagList,
        gathering: &mut Gathering<'a>,
    ) -> Result<(), NoMemory>
        requires { IsFirst self.now seen.entry.now seen.first }
        ensures { IfOk result (λ _. gathering.new ≡ gathering.old ++ shown_elements self.now tags.now seen.entry.entry.now) }
    {
        let entry = seen.entry;
        match self.sight(seen) {
            Some(sight) => gathering.add(
                &entry.attrs,
                &|tag: &Key| { is_selected(tags, tag) && self.shows(entry, &sight, tag) },
            ),
            None => gathering.add(&entry.attrs, &|tag: &Key| is_selected(tags, tag)),
        }
    }

    /// What is shown of entries that are seen, and is selected, joined in their order: lent where it lies.
    pub fn join_shown<'a>(
        &self,
        alloc: Global,
        entries: &[Seen<'a>],
        tags: &TagList,
    ) -> Result<AttrUnion<'a>, NoMemory>
        requires { AreSeenBy self.now entries.now }
        ensures { IfOk result (λ a. a ≡ attributes_of (flat_map (shown_elements self.now tags.now) (entries_in entries.now))) }
    {
        let mut gathering = Gathering::new(alloc);
        for seen in entries {
            self.add_shown(*seen, tags, &mut gathering)?;
        }
        gathering.join(alloc)
    }

    // What is shown of the attributes of an entry, copied.
    fn copy_shown(&self, alloc: Global, seen: Seen<'_>) -> Result<Attrs, NoMemory>
        requires { IsFirst self.now seen.entry.now seen.first }
        ensures { IfOk result (λ a. a ≡ (seen_of self.now seen.entry.entry.now).attrs) }
    {
        let entry = seen.entry;
        let Some(sight) = self.sight(seen) else {
            return entry.attrs.copy(alloc);
        };
        match entry
            .attrs
            .kept(alloc, &|tag: &Key| self.shows(entry, &sight, tag))
        {
            Ok(attributes) => Ok(attributes),
            Err(_) => Err(NoMemory),
        }
    }

    /// What is shown of entries that are seen, copied.
    pub fn copies_of_shown(
        &self,
        alloc: Global,
        entries: &[Seen<'_>],
    ) -> Result<Vec<Attrs>, NoMemory>
        requires { AreSeenBy self.now entries.now }
        ensures { IfOk result (λ v. v.items ≡ map (λ e. (seen_of self.now e).attrs) (entries_in entries.now)) }
    {
        let mut copies = Vec::with_capacity(alloc, entries.len())?;
        for seen in entries {
            copies.push(self.copy_shown(alloc, *seen)?)?;
        }
        Ok(copies)
    }
}
