ghost use Rattle.std.specs.Prelude.{◌≡◌, ◌≤◌, ◌↔◌, ℕ, Bool, List, max, false, IfNone, IfOk, IfSome, OnErr, IsErrOf, Ok, Err};
ghost use Rattle.std.specs.List.{list_any};
ghost use Rattle.attr_list.specs.Maps.{kept_attributes, updated_attributes};
ghost use Rattle.attr_list.specs.Tests.{AcceptsAs};
ghost use Rattle.attr_values.specs.declared.fault.AttrFault.TheVariants as fault;
ghost use Rattle.search_filter.specs.Filters as filters;
ghost use Rattle.search_filter.specs.Reading.{filter_in};
ghost use Rattle.directory_judge.specs.History.{History};
ghost use Rattle.directory_judge.specs.Judgements.{supports};
ghost use Rattle.directory_questions.specs.Calls.{Opening, standpoint};
ghost use Rattle.directory_questions.specs.Items.{AreAttributesOf, AreServices, IsAskedAbout, IsElsewhere, IsForeign, IsOpenNow};
ghost use Rattle.directory_questions.specs.Verdicts.{IsLegal};
ghost use Rattle.directory_questions.specs.declared.query.Target.TheVariants.{Kind};
ghost use Rattle.directory_state.specs.Fronts.{IsFront, items_in, size_in};
ghost use Rattle.directory_state.specs.Sources.{site_of, IsSourceAt, IsUnbounded};
ghost use Rattle.slp_messages.specs.declared.message.UrlEntry.{UrlEntry};

use attr_list::{AttrFault, Attrs};
use attr_union::AttrUnion;
use directory_questions::{AttrQuery, Call, QueryFault, ServiceQuery};
use directory_state::{Directory, FoundItems, Room, Source};
use registry_core::Registry;
use search_filter::{Filter, FilterFault};
use slp_text::Key;
use std::alloc::Global;

/// The moment at which a call acts: the greater of its own and the clock.
pub fn now<R: Registry>(directory: &Directory<R>, moment: u32) -> u32
    ensures { result ≡ max moment directory.now.clock }
{
    let told = directory.now(moment);
    told
}

/// The URLs that answer a question of who calls, from the front as many as there is room for: of a directory, or of what was gathered. None where it
/// would have to look at more entries than it may.
pub fn find<'a, R: Registry>(
    alloc: Global,
    source: &Source<'a, R>,
    call: &Call<'_>,
    query: &ServiceQuery,
    room: Room,
) -> Result<Option<FoundItems<'a>>, QueryFault>
    requires small { room.bytes ≤ 65535 }
    requires small_each { room.each ≤ 65535 }
    ensures scope { IsErrOf result QueryFault.Scope ↔ (list_any (supports (site_of source.now)) query.now.scopes ≡ false) }
    ensures language { (o : Opening) (h : History) → IsSourceAt o h (Kind query.now.kind) source.now → IsLegal o h
        → (IsErrOf result QueryFault.Language → IsForeign (IsOpenNow (standpoint o h call.now.moment call.now.asker) query.now.scopes) query.now) × IfOk result (λ told. IfSome told (λ _. ¬ IsForeign (IsOpenNow (standpoint o h call.now.moment call.now.asker) query.now.scopes) query.now)) }
    ensures items { (o : Opening) (h : History) → IsSourceAt o h (Kind query.now.kind) source.now → IsLegal o h
        → IfOk result (λ told. IfSome told (λ found. (all : List UrlEntry) × AreServices (standpoint o h call.now.moment call.now.asker) query.now all × IsFront room all (items_in found) found.is_cut)) }
    ensures fits { IfOk result (λ told. IfSome told (λ found. size_in room (items_in found) ≤ room.bytes)) }
    ensures ended { IfOk result (λ told. IfNone told (¬ IsUnbounded source.now)) }
{
    let told = source.find(alloc, call.moment, call.asker, query, room);
    told
}

/// What the tags of a question select of the attributes that are shown to who calls.
pub fn find_attributes<'a, R: Registry>(
    alloc: Global,
    source: &Source<'a, R>,
    call: &Call<'_>,
    query: &AttrQuery,
) -> Result<AttrUnion<'a>, QueryFault>
    ensures scope { IsErrOf result QueryFault.Scope ↔ (list_any (supports (site_of source.now)) query.now.scopes ≡ false) }
    ensures language { (o : Opening) (h : History) → IsSourceAt o h query.now.target source.now → IsLegal o h
        → (IsErrOf result QueryFault.Language → IsElsewhere (IsAskedAbout (IsOpenNow (standpoint o h call.now.moment call.now.asker) query.now.scopes) query.now) query.now.language)
        × IfOk result (λ _. ¬ IsElsewhere (IsAskedAbout (IsOpenNow (standpoint o h call.now.moment call.now.asker) query.now.scopes) query.now) query.now.language) }
    ensures joined { (o : Opening) (h : History) → IsSourceAt o h query.now.target source.now → IsLegal o h
        → IfOk result (λ a. AreAttributesOf (standpoint o h call.now.moment call.now.asker) query.now a) }
{
    let told = source.find_attributes(alloc, call.moment, call.asker, query);
    told
}

/// Whether the filter that a text spells holds on attributes.
pub fn holds(alloc: Global, text: &str, attributes: &Attrs) -> Result<bool, FilterFault>
    ensures { IfOk result (λ told. (f : filters.Filter) × (filter_in text.now ≡ Ok f) × (told ≡ filters.holds f attributes.now)) }
{
    let filter = Filter::parse(alloc, text)?;
    let told = filter.holds(attributes);
    Ok(told)
}

/// Whether a filter holds on those attributes alone whose tags a test accepts.
pub fn holds_where<F: Fn(&Key) -> bool>(filter: &Filter, attributes: &Attrs, accepts: &F) -> bool
    requires { F.IsAlwaysCallable accepts.now }
    ensures { (p : List ℕ → Bool) → AcceptsAs F.Fn accepts.now p → result ≡ filters.holds filter.now (kept_attributes attributes.now p) }
{
    let told = filter.holds_where(attributes, accepts);
    told
}

/// The attributes with the tags of others as they are there.
pub fn updated(alloc: Global, attributes: &Attrs, more: &Attrs) -> Result<Attrs, AttrFault>
    ensures value { IfOk result (λ a. a ≡ updated_attributes attributes.now more.now) }
    ensures memory { OnErr result (result ≡ Err fault.NoMemory) }
{
    let told = attributes.updated(alloc, more);
    told
}
