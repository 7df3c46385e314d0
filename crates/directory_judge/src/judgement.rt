//! What was decided on a message that may change something.
ghost use Rattle.std.specs.Prelude.{◌≡◌, true, IfOk};
ghost use Rattle.directory_judge.specs.Judgements.{because_of, because_of_placed, change_of, code_by, finding_in, finding_of, judgement_in};
ghost use Rattle.directory_judge.specs.declared.copies.Judged.TheVariants as judged;

use crate::change::{Change, Placed};
use crate::reason::{Because, Decider, Finding};
use slp_text::NoMemory;
use std::alloc::Global;

/// What comes of a message that may change something.
#[derive(Drop)]
pub enum Decision {
    /// A registration is accepted: who decided, on the type of its entry in the first of its scopes.
    Founded(Placed, Decider),
    /// An update is accepted, in the same way.
    Edited(Placed, Decider),
    /// A withdrawal is accepted.
    Accepted(Change, Because),
    /// Nothing is changed, and nobody had to decide.
    Unchanged,
    /// An error code, by who decided (RFC 2608, section 7).
    Denied(Because),
}

/// Who allowed the type of an entry that is registered or updated, in the first of its scopes.
pub(crate) fn registering(placed: &Placed, decider: Decider) -> Finding<'_>
    ensures allow { result.allow ≡ true }
    ensures because { because_of result ≡ because_of_placed decider placed.now }
{
    Finding {
        allow: true,
        decider,
        kind: Some(&placed.entry.kind),
        scope: placed.entry.scopes.at(0),
    }
}

impl Decision {
    /// A denial, with copies of what was decided on.
    // A call in the machine's code as well, so that judging what is accepted keeps its registers.
    #[inline(never)]
    pub fn denied(alloc: Global, finding: Finding<'_>) -> Result<Decision, NoMemory>
        ensures { IfOk result (λ j. judgement_in j ≡ judged.Deny (code_by finding.entry.decider) (because_of finding.entry)) }
    {
        Ok(Decision::Denied(finding.because(alloc)?))
    }

    /// Whether it was allowed, and who decided so on what.
    pub fn finding(&self) -> Finding<'_>
        ensures { finding_of result ≡ finding_in (judgement_in self.now) }
    {
        match self {
            Decision::Founded(placed, decider) => registering(placed, *decider),
            Decision::Edited(placed, decider) => registering(placed, *decider),
            Decision::Accepted(_, because) => because.finding(true),
            Decision::Unchanged => Finding::by_nobody(None),
            Decision::Denied(because) => because.finding(false),
        }
    }

    /// The change that is accepted, if one is.
    pub fn change(self) -> Option<Change>
        ensures { result ≡ change_of (judgement_in self) }
    {
        match self {
            Decision::Founded(placed, _) => Some(Change::Put(placed)),
            Decision::Edited(placed, _) => Some(Change::Edit(placed)),
            Decision::Accepted(change, _) => Some(change),
            Decision::Unchanged => None,
            Decision::Denied(_) => None,
        }
    }
}
