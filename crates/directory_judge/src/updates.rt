ghost use Rattle.std.specs.Prelude.{◌≡◌, ◌<◌, ◌≤◌, length, false, IfErr, IfOk, Some};
ghost use Rattle.std.specs.FinMap as fin;
ghost use Rattle.std.specs.Arc.{arc_value};
ghost use Rattle.attr_list.specs.Maps.{updated_attributes};
ghost use Rattle.registry_core.specs.Entries.{pair_of};
ghost use Rattle.directory_judge.specs.Judgements.{because_of, because_of_entry, denial_of_update, judgement_in};
ghost use Rattle.directory_judge.specs.Judgements as spec;
ghost use Rattle.directory_judge.specs.NamedEntries.{particulars_named, IsJudgedNamed, IsUpdatable};

use crate::change::Placed;
use crate::grounds::Grounds;
use crate::judgement::Decision;
use crate::reason::{Decider, Finding};
use registry_core::{Entry, Registry};
use slp_text::NoMemory;
use std::alloc::Global;
use std::sync::Arc;

// The entry that stands, with the attributes and the deadline that an update of it names.
// A function of its own in the machine's code as well, so that the loop over the attributes keeps its registers.
#[inline(never)]
fn updated(alloc: Global, old: &Entry, mut named: Entry) -> Result<Arc<Entry>, NoMemory>
    requires pair { pair_of named ≡ pair_of old.now }
    requires kind { named.kind ≡ old.now.kind }
    requires scopes { named.scopes ≡ old.now.scopes }
    ensures { IfOk result (λ e. arc_value e ≡ record old.now { attrs = updated_attributes old.now.attrs named.attrs; deadline = named.deadline }) }
{
    let attrs = match old.attrs.updated(alloc, &named.attrs) {
        Ok(attrs) => attrs,
        Err(_) => return Err(NoMemory),
    };
    // What is named is moved, and is the same as what stands.
    named.attrs = attrs;
    named.owner = old.owner;
    Ok(Arc::new(alloc, named)?)
}

impl<'a, R: Registry> Grounds<'a, R> {
    // What is live of the pair that is named, if it has the type and the scopes that are named; else
    // what speaks against the update.
    fn updatable<'b>(&self, named: &'b Entry) -> Result<&'a Entry, Finding<'b>>
        ensures ok { IfOk result (λ old. IsUpdatable self.now.live named.now old.now) }
        ensures err { IfErr result (λ f. denial_of_update (particulars_named named.now) (fin.get self.now.live (pair_of named.now)) ≡ Some (spec.denial (because_of f))) }
    {
        let kind = Some(&named.kind);
        let Some(old) = self.live_entry(&named.url, &named.language) else {
            return Err(Finding::deny(Decider::Update, kind));
        };
        if old.kind.text() != named.kind.text() {
            return Err(Finding::deny(Decider::Update, kind));
        }
        if old.scopes != named.scopes {
            return Err(Finding::deny(Decider::Scope, kind));
        }
        Ok(old)
    }

    /// Judges an update of the entry that is named, whose type the rules allowed in its scopes: who
    /// decided so (RFC 2608, section 9.3).
    pub fn judge_update(
        &self,
        alloc: Global,
        named: Entry,
        decider: Decider,
    ) -> Result<Decision, NoMemory>
        requires scoped { 0 < length named.scopes }
        requires few_scopes { length named.scopes ≤ 16 }
        ensures { IfOk result (λ j. IsJudgedNamed self.now false named (because_of_entry decider named) (judgement_in j)) }
    {
        match self.updatable(&named) {
            Err(finding) => Decision::denied(alloc, finding),
            Ok(old) => {
                if let Some(finding) = self.replacing_denial(Some(old)) {
                    return Decision::denied(alloc, finding);
                }
                let entry = updated(alloc, old, named)?;
                if !self.conforms(&entry.kind, &entry.attrs) {
                    return Decision::denied(
                        alloc,
                        Finding::deny(Decider::Template, Some(&entry.kind)),
                    );
                }
                let moment = self.moment;
                Ok(Decision::Edited(Placed { moment, entry }, decider))
            }
        }
    }
}
