//! Tables that hide attributes.
ghost use Rattle.std.specs.Prelude.{◌≡◌, ℕ, List, length, nat_eq};
ghost use Rattle.slp_tags.specs.Tags.{selects};
ghost use Rattle.access_rules.specs.Deciding.{deed_in, is_hidden_from, is_hiding, some_hides};

use crate::rule::{Deed, is_from, is_in_scope, is_of_kind};
use addresses::Prefix;
use service_url::ServiceType;
use slp_scopes::ScopeList;
use slp_tags::TagList;
use slp_text::{Key, Row, Text};

/// A hide table of the rule file: tags that are not shown to these askers.
pub struct Hide {
    pub name: Text,
    /// The askers from whom it hides.
    pub from: Row<Prefix>,
    /// The type that covers those of which it hides. `None` is every type.
    pub kind: Option<ServiceType>,
    /// `None` is every scope.
    pub scopes: Option<ScopeList>,
    /// One part at least.
    pub tags: TagList,
    /// Whether it hides nothing of what the asker registered.
    pub spares_owner: bool,
}

impl Drop for Hide {
    fn drop(self) {
        let Hide {
            name: _,
            from: _,
            kind: _,
            scopes: _,
            tags: _,
            spares_owner: _,
        } = self;
    }
}

impl Hide {
    /// Whether the table fits what is asked in a scope, whatever is done. Takes no memory.
    pub(crate) fn fits(&self, deed: &Deed<'_>, scope: &Key) -> bool
        ensures { result ≡ is_hiding (deed_in deed.now) scope.now self.now }
    {
        is_from(&self.from, deed.asker)
            && is_of_kind(&self.kind, deed.kind)
            && is_in_scope(&self.scopes, scope)
            && !(self.spares_owner && deed.asker.0 == deed.registrant.0)
    }
}

/// The hide tables that fit what is asked in a scope: the first of them, and all tables that stand after it.
#[derive(Clone, Copy)]
pub struct FittingHides<'a> {
    first: &'a Hide,
    rest: &'a [Hide],
}

// Inlined, so that a tag costs no more than its look-up where one table fits.
impl FittingHides<'_> {
    /// Whether the first of them, which is known to fit, selects a tag. Takes no memory.
    #[inline(always)]
    pub fn first_hides(&self, tag: &Key) -> bool
        ensures { result ≡ selects self.now.first.now.tags tag.now }
    {
        self.first.tags.selects(tag)
    }

    /// Whether no table stands after the first. Takes no memory.
    #[inline(always)]
    pub fn is_one(&self) -> bool
        ensures { result ≡ nat_eq (length self.now.rest.now) 0 }
    {
        self.rest.is_empty()
    }

    /// Whether one of those after the first fits what is asked in a scope, and selects a tag: each is asked. Takes no memory.
    #[inline(always)]
    pub fn others_hide(&self, deed: &Deed<'_>, scope: &Key, tag: &Key) -> bool
        ensures { result ≡ some_hides self.now.rest.now (deed_in deed.now) scope.now tag.now }
    {
        some_hides(self.rest, deed, scope, tag)
    }
}

/// Whether one of some tables fits what is asked in a scope, and selects a tag. Takes no memory.
#[inline(never)]
pub(crate) fn some_hides(hides: &[Hide], deed: &Deed<'_>, scope: &Key, tag: &Key) -> bool
    ensures { result ≡ some_hides hides.now (deed_in deed.now) scope.now tag.now }
{
    hides
        .iter()
        .any(|hide| hide.fits(deed, scope) && hide.tags.selects(tag))
}

/// Those of some tables that fit what is asked in a scope, if there are any. Takes no memory.
pub(crate) fn fitting<'a>(
    hides: &'a [Hide],
    deed: &Deed<'_>,
    scope: &Key,
) -> Option<FittingHides<'a>>
    ensures { (tag : List ℕ) → is_hidden_from result (deed_in deed.now) scope.now tag ≡ some_hides hides.now (deed_in deed.now) scope.now tag }
{
    let mut tables = hides;
    while let Some((first, rest)) = tables.split_first() {
        if first.fits(deed, scope) {
            return Some(FittingHides { first, rest });
        }
        tables = rest;
    }
    None
}
