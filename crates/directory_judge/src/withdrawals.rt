ghost use Rattle.std.specs.Prelude.{◌≡◌, ◌<◌, ◌≤◌, length, filter, IfOk, IfSome, Some};
ghost use Rattle.std.specs.List.{list_any};
ghost use Rattle.std.specs.Arc.{arc_value};
ghost use Rattle.std.specs.Option.{option_map};
ghost use Rattle.std.specs.Result.{result_ok};
ghost use Rattle.slp_text.specs.Keys.{key_of};
ghost use Rattle.slp_scopes.specs.Scopes.{scopes_of};
ghost use Rattle.slp_messages.specs.Views.{header_in, withdrawal_in};
ghost use Rattle.service_url.specs.Urls.{url_of};
ghost use Rattle.registry_core.specs.Entries.{is_of_url};
ghost use Rattle.directory_judge.specs.Judgements.{concerned_entries, entries_in, first_of, is_kept, judgement_in, judgement_of_texts, judgement_of_url, judgement_of_withdrawal, IsJudgement};
ghost use Rattle.directory_judge.specs.Walks.{earlier_ruling, entry_in, walk_with, IsRuledWalk, IsVisit};
ghost use Rattle.directory_judge.specs.ReadChanges.{withdrawing_in, withdrawing_of};
ghost use Rattle.directory_judge.specs.Withdrawals.{withdrawal_of_texts};

use crate::change::{Change, Withdrawing, Withdrawn};
use crate::grounds::Grounds;
use crate::judgement::Decision;
use crate::particulars::read_supported;
use crate::reason::{Decider, Finding};
use crate::site::Site;
use access_rules::Action;
use registry_core::{Entry, Registry};
use service_url::Url;
use slp_messages::{KeptHeader, WithdrawalView};
use slp_scopes::ScopeList;
use slp_tags::TagList;
use slp_text::NoMemory;
use std::alloc::Global;
use std::cmp::Ordering;
use std::sync::Arc;

// What a withdrawal is of: its URL, and those of its scopes that the site supports, where both are read.
fn read_withdrawn(
    alloc: Global,
    site: &Site,
    withdrawal: &WithdrawalView<'_>,
) -> Result<Option<Arc<Withdrawn>>, NoMemory>
    ensures value { IfOk result (λ w. option_map arc_value w ≡ withdrawal_of_texts site.now (result_ok (url_of withdrawal.now.entry.url.now)) (result_ok (scopes_of withdrawal.now.scopes.now))) }
    ensures few { IfOk result (λ w. IfSome w (λ a. length (arc_value a).scopes ≤ 16)) }
{
    let Some(url) = Url::read(alloc, withdrawal.entry.url)? else {
        return Ok(None);
    };
    match read_supported(alloc, site, withdrawal.scopes)? {
        Some(scopes) => {
            let withdrawn = Arc::new(alloc, Withdrawn { url, scopes })?;
            Ok(Some(withdrawn))
        }
        None => Ok(None),
    }
}

/// What a withdrawal says at a site, where its texts are read (RFC 2608, section 10.6).
pub(crate) fn read_withdrawal(
    alloc: Global,
    site: &Site,
    withdrawal: &WithdrawalView<'_>,
) -> Result<Option<Withdrawing>, NoMemory>
    ensures { IfOk result (λ w. option_map withdrawing_in w ≡ withdrawing_of site.now (withdrawal_in withdrawal.now)) }
{
    let Some(tags) = TagList::read(alloc, withdrawal.tags)? else {
        return Ok(None);
    };
    match read_withdrawn(alloc, site, withdrawal)? {
        Some(withdrawn) => Ok(Some(Withdrawing { tags, withdrawn })),
        None => Ok(None),
    }
}

// An entry that a withdrawal concerns, and what the rules say of its withdrawal.
#[derive(Clone, Copy)]
struct RuledEntry<'a> {
    entry: &'a Entry,
    finding: Finding<'a>,
}

// What a walk over the entries of a URL has found: whether one is live, and of those concerned the
// one whose language comes first, of all and of those that may not be withdrawn.
#[derive(Clone, Copy)]
struct Walk<'a> {
    is_live: bool,
    first: Option<RuledEntry<'a>>,
    kept: Option<RuledEntry<'a>>,
}

// The one whose language comes first.
fn earlier<'a>(first: Option<RuledEntry<'a>>, next: RuledEntry<'a>) -> RuledEntry<'a>
    ensures { result ≡ earlier_ruling first.entry next.entry }
{
    match first {
        None => next,
        Some(first) => match next.entry.language.cmp(&first.entry.language) {
            Ordering::Less => next,
            _ => first,
        },
    }
}

impl<'a> Walk<'a> {
    // The walk with one more that is concerned.
    fn with(self, next: RuledEntry<'a>) -> Walk<'a>
        ensures { result ≡ walk_with self.entry next.entry }
    {
        let kept = if next.finding.allow {
            self.kept
        } else {
            Some(earlier(self.kept, next))
        };
        Walk {
            is_live: self.is_live,
            first: Some(earlier(self.first, next)),
            kept,
        }
    }
}

impl<'a, R: Registry> Grounds<'a, R> {
    // The walk with one entry more. An entry of the scopes, of which there are some, is ruled on.
    fn visit(&self, walk: Walk<'a>, scopes: &ScopeList, entry: &'a Entry) -> Walk<'a>
        requires some_scope { 0 < length scopes.now }
        requires ruled { IsRuledWalk self.now walk }
        ensures entry { IsVisit self.now scopes.now entry.now walk.entry result }
        ensures ruled { IsRuledWalk self.now result }
    {
        if entry.deadline <= u64::from(self.moment) {
            return walk;
        }
        let walk = Walk {
            is_live: true,
            first: walk.first,
            kept: walk.kept,
        };
        if entry.scopes != *scopes {
            return walk;
        }
        match self.rule(Action::Withdraw, &entry.kind, &entry.scopes, entry.owner) {
            Some(finding) => walk.with(RuledEntry { entry, finding }),
            None => walk,
        }
    }

    // Walks over the entries of a URL, and asks the rules once for each that is concerned.
    fn walk(&self, withdrawn: &Withdrawn) -> Walk<'a>
        requires some_scope { 0 < length withdrawn.now.scopes }
        ensures is_live { result.is_live ≡ list_any (is_of_url withdrawn.now.url) (entries_in self.now.live) }
        ensures first { option_map entry_in result.first ≡ first_of (concerned_entries self.now withdrawn.now.url withdrawn.now.scopes) }
        ensures kept { option_map entry_in result.kept ≡ first_of (filter (is_kept self.now.rules self.now.asker) (concerned_entries self.now withdrawn.now.url withdrawn.now.scopes)) }
        ensures ruled { IsRuledWalk self.now result }
    {
        let mut walk = Walk {
            is_live: false,
            first: None,
            kept: None,
        };
        let mut from = 0;
        while let Some((entry, next)) = self.registry.by_url(&withdrawn.url, from) {
            walk = self.visit(walk, &withdrawn.scopes, entry);
            from = next;
        }
        walk
    }

    // Judges a withdrawal by what is live of its URL.
    fn judge_stored(&self, alloc: Global, withdrawn: Arc<Withdrawn>) -> Result<Decision, NoMemory>
        requires { 0 < length (arc_value withdrawn).scopes }
        ensures { IfOk result (λ j. IsJudgement self.now.live (judgement_in j) (judgement_of_url self.now (arc_value withdrawn).url (arc_value withdrawn).scopes)) }
    {
        let walk = self.walk(&withdrawn);
        if !walk.is_live {
            return Ok(Decision::Unchanged);
        }
        let Some(first) = walk.first else {
            return Decision::denied(alloc, Finding::deny(Decider::Scope, None));
        };
        if let Some(kept) = walk.kept {
            return Decision::denied(alloc, kept.finding);
        }
        let because = first.finding.because(alloc)?;
        let change = Change::Withdraw(self.moment, withdrawn);
        Ok(Decision::Accepted(change, because))
    }

    // Judges a withdrawal of some tags, or where there are none of a URL.
    fn judge_asked(
        &self,
        alloc: Global,
        header: &KeptHeader<'_>,
        withdrawal: &WithdrawalView<'_>,
        reading: Withdrawing,
    ) -> Result<Decision, NoMemory>
        requires { withdrawal_of_texts self.now.site (result_ok (url_of withdrawal.now.entry.url.now)) (result_ok (scopes_of withdrawal.now.scopes.now)) ≡ Some (arc_value reading.withdrawn) }
        ensures { IfOk result (λ j. IsJudgement self.now.live (judgement_in j) (judgement_of_texts self.now (key_of header.now.language.now) (result_ok (url_of withdrawal.now.entry.url.now)) (Some reading.tags) (result_ok (scopes_of withdrawal.now.scopes.now)))) }
    {
        let Withdrawing { tags, withdrawn } = reading;
        if withdrawn.scopes.is_empty() {
            return Decision::denied(alloc, Finding::deny(Decider::Scope, None));
        }
        if tags.is_empty() {
            return self.judge_stored(alloc, withdrawn);
        }
        self.judge_removal(alloc, header.language, &withdrawn, &tags)
    }

    /// Judges a withdrawal of which this was read, step by step (RFC 2608, section 10.6).
    pub fn judge_withdrawal(
        &self,
        alloc: Global,
        header: &KeptHeader<'_>,
        withdrawal: &WithdrawalView<'_>,
        reading: Option<Withdrawing>,
    ) -> Result<Decision, NoMemory>
        requires { option_map withdrawing_in reading ≡ withdrawing_of self.now.site (withdrawal_in withdrawal.now) }
        ensures { IfOk result (λ j. IsJudgement self.now.live (judgement_in j) (judgement_of_withdrawal self.now (header_in header.now) (withdrawal_in withdrawal.now))) }
    {
        match reading {
            Some(reading) => self.judge_asked(alloc, header, withdrawal, reading),
            None => Decision::denied(alloc, Finding::deny(Decider::Parse, None)),
        }
    }
}
