ghost use Rattle.std.specs.Prelude.{◌≡◌, nat_le, IfOk};
ghost use Rattle.std.specs.FinMap as fin;
ghost use Rattle.std.specs.Option.{option_map};
ghost use Rattle.access_rules.specs.Deciding.{deed};
ghost use Rattle.slp_messages.specs.Views.{message_in};
ghost use Rattle.directory_judge.specs.Judgements.{IsJudgement, judgement, judgement_in, ruling_in, ruling_on};

use access_rules::Action;
use directory_judge::{Decision, Finding, Grounds, read_change};
use registry_core::{Entry, Registry};
use slp_messages::ChangeView;
use slp_text::NoMemory;
use std::alloc::Global;

/// Judges a message that asks for a change: the first step whose fault is there, else the change is accepted.
pub fn judge<R: Registry>(
    alloc: Global,
    grounds: &Grounds<'_, R>,
    change: &ChangeView<'_>,
) -> Result<Decision, NoMemory>
    ensures { IfOk result (λ j. IsJudgement grounds.now.live (judgement_in j) (judgement grounds.now (message_in change.now))) }
{
    let read = read_change(alloc, grounds.site, change)?;
    let told = grounds.judge(alloc, read);
    told
}

/// What the rules say of an action on an entry, in its scopes and with its registrant.
pub fn rule<'b, R: Registry>(
    grounds: &Grounds<'_, R>,
    action: Action,
    entry: &'b Entry,
) -> Option<Finding<'b>>
    ensures { option_map ruling_in result ≡ ruling_on grounds.now.rules (deed grounds.now.asker action entry.now.kind entry.now.owner) entry.now.scopes }
{
    let told = grounds.rule(action, &entry.kind, &entry.scopes, entry.owner);
    told
}

/// Whether the entries that are live fill the capacity of the site.
pub fn is_full<R: Registry>(grounds: &Grounds<'_, R>) -> bool
    ensures { result ≡ nat_le grounds.now.site.capacity (fin.len grounds.now.live) }
{
    let told = grounds.is_full();
    told
}
