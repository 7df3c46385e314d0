//! What was decided, with copies of what it was decided on: for a caller that keeps it longer than the message. No program calls these.
ghost use Rattle.std.specs.Prelude.{◌≡◌, IfOk};
ghost use Rattle.registry_core.specs.Entries.{outlives, passing_entries};
ghost use Rattle.slp_messages.specs.Views.{message_in};
ghost use Rattle.directory_judge.specs.Judgements.{judgement, judgement_in, IsChange, IsJudgement};

use crate::change::Change;
use crate::grounds::Grounds;
use crate::judgement::{Decision, registering};
use crate::reading::read_change;
use crate::reason::Because;
use crate::site::Site;
use access_rules::Rules;
use addresses::Addr;
use registry_core::Registry;
use slp_messages::{ChangeView, Message};
use slp_text::NoMemory;
use std::alloc::Global;

/// What comes of a message that may change something.
#[derive(Drop)]
pub enum Judged {
    Accept(Change, Because),
    /// Nothing is changed, and nobody had to decide.
    Nothing,
    /// An error code (RFC 2608, section 7).
    Deny(u16, Because),
}

impl Decision {
    /// The same with copies of what was decided on.
    pub fn judged(self, alloc: Global) -> Result<Judged, NoMemory>
        ensures { IfOk result (λ j. j ≡ judgement_in self) }
    {
        match self {
            Decision::Founded(placed, decider) => {
                let because = registering(&placed, decider).because(alloc)?;
                Ok(Judged::Accept(Change::Put(placed), because))
            }
            Decision::Edited(placed, decider) => {
                let because = registering(&placed, decider).because(alloc)?;
                Ok(Judged::Accept(Change::Edit(placed), because))
            }
            Decision::Accepted(change, because) => Ok(Judged::Accept(change, because)),
            Decision::Unchanged => Ok(Judged::Nothing),
            Decision::Denied(because) => Ok(Judged::Deny(because.decider.code(), because)),
        }
    }
}

/// A message that may change something, lent.
pub fn change_view(message: &Message) -> ChangeView<'_>
    requires { IsChange message.now }
    ensures { message_in result ≡ message.now }
{
    match message {
        Message::Registration(header, registration) => {
            ChangeView::Registration(header.view(), registration.view())
        }
        Message::Withdrawal(header, withdrawal) => {
            ChangeView::Withdrawal(header.view(), withdrawal.view())
        }
        _ => unreachable!(),
    }
}

/// Judges a message that may change something (RFC 2608, sections 8.3 and 9.3): the first step whose
/// fault is there, else the change is accepted at the moment `now`, in seconds. Nothing is changed.
pub fn judge_on<R: Registry>(
    alloc: Global,
    registry: &R,
    rules: &Rules,
    site: &Site,
    now: u32,
    asker: Addr,
    message: &Message,
) -> Result<Judged, NoMemory>
    requires { IsChange message.now }
    ensures { IfOk result (λ j. let live = passing_entries (outlives now) (R.contents registry.now) in
        IsJudgement live j (judgement (record { rules = rules.now; site = site.now; live = live; now = now; asker = asker }) message.now)) }
{
    let grounds = Grounds {
        registry,
        rules,
        site,
        moment: now,
        asker,
    };
    let read = read_change(alloc, site, &change_view(message))?;
    let decided = grounds.judge(alloc, read)?;
    decided.judged(alloc)
}
