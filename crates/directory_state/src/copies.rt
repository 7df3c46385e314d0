//! What is judged and found, with copies: for a caller that keeps it longer than it reads the directory. No program calls these.
ghost use Rattle.std.specs.Prelude.{◌≡◌, map, IfOk, IsErrOf, ◌↔◌, false};
ghost use Rattle.std.specs.List.{list_any};
ghost use Rattle.directory_judge.specs.History.{History};
ghost use Rattle.directory_judge.specs.Judgements.{IsChange, Judgement, supports};
ghost use Rattle.directory_questions.specs.Calls.{Opening, standpoint};
ghost use Rattle.directory_questions.specs.Items.{AreAttributesOf, AreServices, AreTypesOf, IsAskedAbout, IsElsewhere, IsForeign, IsOpenNow};
ghost use Rattle.directory_questions.specs.Verdicts.{IsLegal, IsVerdict};
ghost use Rattle.directory_state.specs.Folds.{Fold, IsJudgedAs};
ghost use Rattle.directory_state.specs.Searches.{entries_lent};

use crate::arranging::describe;
use crate::directory::Directory;
use crate::source::Source;
use addresses::Addr;
use attr_list::Attrs;
use directory_judge::{Judged, change_view, read_change};
use directory_questions::{AttrQuery, QueryFault, ServiceQuery, TypeQuery};
use registry_core::{Entry, Registry};
use service_url::ServiceType;
use slp_messages::{Message, UrlEntry};
use slp_text::NoMemory;
use std::alloc::Global;

impl<R: Registry> Directory<R> {
    /// What `judge_change` decides, of a message.
    pub fn judge(
        &self,
        alloc: Global,
        moment: u32,
        asker: Addr,
        message: &Message,
    ) -> Result<Judged, NoMemory>
        requires { IsChange message.now }
        ensures { (o : Opening) (h : History) → Fold o h self.now → IsLegal o h
            → IfOk result (λ j. (v : Judgement) × IsVerdict (standpoint o h moment asker) message.now v × IsJudgedAs h j v) }
    {
        let read = read_change(alloc, self.site(), &change_view(message))?;
        let decided = self.judge_change(alloc, moment, asker, read)?;
        decided.judged(alloc)
    }

    /// What `find` answers, whole.
    pub fn services(
        &self,
        alloc: Global,
        moment: u32,
        asker: Addr,
        query: &ServiceQuery,
    ) -> Result<Vec<UrlEntry>, QueryFault>
        ensures scope { IsErrOf result QueryFault.Scope ↔ (list_any (supports self.now.site) query.now.scopes ≡ false) }
        ensures language { (o : Opening) (h : History) → Fold o h self.now → IsLegal o h
            → (IsErrOf result QueryFault.Language → IsForeign (IsOpenNow (standpoint o h moment asker) query.now.scopes) query.now) × IfOk result (λ _. ¬ IsForeign (IsOpenNow (standpoint o h moment asker) query.now.scopes) query.now) }
        ensures items { (o : Opening) (h : History) → Fold o h self.now → IsLegal o h
            → IfOk result (λ items. AreServices (standpoint o h moment asker) query.now items.items) }
    {
        let source = Source::Whole(self, usize::MAX);
        match source.search(alloc, moment, asker, query, None)? {
            Some(kept) => kept.into_items(alloc, u64::from(self.now(moment))),
            None => unreachable!(),
        }
    }

    /// What `find_attributes` answers.
    pub fn attributes(
        &self,
        alloc: Global,
        moment: u32,
        asker: Addr,
        query: &AttrQuery,
    ) -> Result<Attrs, QueryFault>
        ensures scope { IsErrOf result QueryFault.Scope ↔ (list_any (supports self.now.site) query.now.scopes ≡ false) }
        ensures language { (o : Opening) (h : History) → Fold o h self.now → IsLegal o h
            → (IsErrOf result QueryFault.Language → IsElsewhere (IsAskedAbout (IsOpenNow (standpoint o h moment asker) query.now.scopes) query.now) query.now.language)
            × IfOk result (λ _. ¬ IsElsewhere (IsAskedAbout (IsOpenNow (standpoint o h moment asker) query.now.scopes) query.now) query.now.language) }
        ensures joined { (o : Opening) (h : History) → Fold o h self.now → IsLegal o h
            → IfOk result (λ a. AreAttributesOf (standpoint o h moment asker) query.now a) }
    {
        let found = Source::Whole(self, usize::MAX).find_about(alloc, moment, asker, query)?;
        describe(alloc, found, query)
    }

    /// What `find_types` answers.
    pub fn types(
        &self,
        alloc: Global,
        moment: u32,
        asker: Addr,
        query: &TypeQuery,
    ) -> Result<Vec<ServiceType>, QueryFault>
        ensures scope { IsErrOf result QueryFault.Scope ↔ (list_any (supports self.now.site) query.now.scopes ≡ false) }
        ensures spoken { IsErrOf result QueryFault.Language → ⊥ }
        ensures types { (o : Opening) (h : History) → Fold o h self.now → IsLegal o h
            → IfOk result (λ v. AreTypesOf (standpoint o h moment asker) query.now v.items) }
    {
        let found = self.find_types(alloc, moment, asker, query, None)?;
        Ok(copied_types(alloc, &found)?)
    }
}

// The types of entries.
fn copied_types(alloc: Global, entries: &[&Entry]) -> Result<Vec<ServiceType>, NoMemory>
    ensures { IfOk result (λ v. v.items ≡ map (λ e. e.kind) (entries_lent entries.now)) }
{
    let mut types = Vec::with_capacity(alloc, entries.len())?;
    for entry in entries {
        types.push(entry.kind.copy(alloc)?)?;
    }
    Ok(types)
}
