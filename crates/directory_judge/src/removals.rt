ghost use Rattle.std.specs.Prelude.{◌≡◌, ◌<◌, ◌≤◌, length, IfOk};
ghost use Rattle.std.specs.Arc.{arc_value};
ghost use Rattle.attr_list.specs.Maps.{attributes_without};
ghost use Rattle.slp_text.specs.Keys.{key_of};
ghost use Rattle.directory_judge.specs.Judgements.{judgement_in, judgement_of_removal, IsJudgement};

use crate::change::{Change, Placed, Withdrawn};
use crate::grounds::Grounds;
use crate::judgement::Decision;
use crate::reason::{Decider, Finding};
use access_rules::Action;
use registry_core::{Entry, Registry};
use slp_tags::TagList;
use slp_text::{Key, NoMemory};
use std::alloc::Global;
use std::sync::Arc;

// A copy of an entry, without the tags that a list of tags selects.
fn remaining(alloc: Global, entry: &Entry, tags: &TagList) -> Result<Arc<Entry>, NoMemory>
    ensures { IfOk result (λ e. arc_value e ≡ record entry.now { attrs = attributes_without entry.now.attrs tags.now }) }
{
    let attrs = match entry.attrs.without(alloc, tags) {
        Ok(attrs) => attrs,
        Err(_) => return Err(NoMemory),
    };
    let left = Entry {
        url: entry.url.copy(alloc)?,
        language: entry.language.copy(alloc)?,
        kind: entry.kind.copy(alloc)?,
        scopes: entry.scopes.copy(alloc)?,
        attrs,
        deadline: entry.deadline,
        owner: entry.owner,
    };
    Ok(Arc::new(alloc, left)?)
}

impl<R: Registry> Grounds<'_, R> {
    /// Judges a withdrawal of tags by what is live of its URL in a language (RFC 2608, section 10.6).
    pub fn judge_removal(
        &self,
        alloc: Global,
        language: &str,
        withdrawn: &Withdrawn,
        tags: &TagList,
    ) -> Result<Decision, NoMemory>
        requires scoped { 0 < length withdrawn.now.scopes }
        requires few_scopes { length withdrawn.now.scopes ≤ 16 }
        ensures { IfOk result (λ j. IsJudgement self.now.live (judgement_in j) (judgement_of_removal self.now (withdrawn.now.url, key_of language.now) tags.now withdrawn.now.scopes)) }
    {
        let language = Key::of(alloc, language)?;
        let Some(old) = self.live_entry(&withdrawn.url, &language) else {
            return Ok(Decision::Unchanged);
        };
        if old.scopes != withdrawn.scopes {
            return Decision::denied(alloc, Finding::deny(Decider::Scope, None));
        }
        match self.rule(Action::Withdraw, &old.kind, &old.scopes, old.owner) {
            None => Decision::denied(alloc, Finding::deny(Decider::Scope, None)),
            Some(finding) if finding.allow => {
                let entry = remaining(alloc, old, tags)?;
                if !self.conforms(&old.kind, &entry.attrs) {
                    return Decision::denied(
                        alloc,
                        Finding::deny(Decider::Template, Some(&old.kind)),
                    );
                }
                let because = finding.because(alloc)?;
                let moment = self.moment;
                Ok(Decision::Accepted(Change::Edit(Placed { moment, entry }), because))
            }
            Some(finding) => Decision::denied(alloc, finding),
        }
    }
}
