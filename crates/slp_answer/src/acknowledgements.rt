//! What is answered to a message that asks for a change, and the change that comes of it.
ghost use Rattle.std.specs.Prelude.{◌≡◌, [], true, IfOk, Some};
ghost use Rattle.slp_headers.specs.Headers.{heading_in};
ghost use Rattle.slp_messages.specs.Messages.{IsMessage};
ghost use Rattle.directory_judge.specs.History.{History};
ghost use Rattle.directory_judge.specs.Judgements.{Judgement};
ghost use Rattle.directory_judge.specs.ReadChanges.{message_read, IsReadAt};
ghost use Rattle.directory_questions.specs.Calls.{Opening, standpoint};
ghost use Rattle.directory_questions.specs.Outcomes.{acknowledgement_of};
ghost use Rattle.directory_questions.specs.Requests.{function_in, is_change_function};
ghost use Rattle.directory_questions.specs.Verdicts.{IsLegal, IsVerdict, change_in};
ghost use Rattle.directory_state.specs.Folds.{Fold, HandsOut};
ghost use Rattle.slp_answer.specs.Answers.{Acknowledges};
ghost use Rattle.slp_answer.specs.AskedChanges.{IsAskedAt};
ghost use Rattle.slp_replies.specs.Tellings.{TellsOf};

use directory_judge::{Change, ReadChange, Site, read_change};
use directory_questions::{Heard, asked_change};
use directory_state::Directory;
use registry_core::Registry;
use slp_replies::{Answer, Reply, Sent};
use slp_text::NoMemory;
use slp_wire::WireFault;
use std::alloc::Global;

/// What was read of a message that asks for a change, or the fault for which it is none.
pub type AskedChange<'a> = Result<ReadChange<'a>, WireFault>;

/// Reads a message that asks for a change, for a site, with all that its texts say: so nothing of a directory is held while that lasts.
pub fn read_heard<'a>(
    alloc: Global,
    site: &Site,
    heard: &Heard<'a>,
) -> Result<AskedChange<'a>, NoMemory>
    requires { is_change_function (function_in heard.now.request) ≡ true }
    ensures { IfOk result (IsAskedAt site.now heard.now.call.now.bytes.now) }
{
    match asked_change(heard)? {
        Ok(change) => Ok(Ok(read_change(alloc, site, &change)?)),
        Err(fault) => Ok(Err(fault)),
    }
}

// Judges a message that asks for a change, of which this was read, and acknowledges what comes of it.
fn acknowledge_change<R: Registry>(
    alloc: Global,
    directory: &Directory<R>,
    reply: &Reply<'_>,
    change: ReadChange<'_>,
    answer: &mut Answer,
) -> Result<(Sent, Option<Change>), NoMemory>
    requires sound { IsMessage (message_read change) }
    requires read { IsReadAt directory.now.site change }
    requires no_reply { answer.old.bytes.items ≡ [] }
    requires no_line { answer.old.audit.items ≡ [] }
    ensures { (o : Opening) (h : History) → Fold o h directory.now → IsLegal o h
        → IfOk result (λ p. (v : Judgement) × IsVerdict (standpoint o h reply.now.heard.now.call.now.moment reply.now.heard.now.call.now.asker) (message_read change.entry) v
        × TellsOf reply.now (acknowledgement_of (heading_in reply.now.heard.now.header) v) p.0 answer.new.bytes.items answer.new.audit.items
        × HandsOut o h p.1 (change_in v)) }
{
    let call = reply.heard.call;
    let decided = directory.judge_change(alloc, call.moment, call.asker, change)?;
    let told = reply.code(&decided.finding(), answer);
    let change = decided.change();
    match told {
        Ok(sent) => Ok((sent, change)),
        Err(fault) => {
            drop(change);
            Err(fault)
        }
    }
}

/// Acknowledges a message that asks for a change, of which this was read, into an answer that is empty, and hands out the change where one is accepted. It is
/// not made yet. After `NoMemory` the answer may hold anything.
pub fn acknowledge_heard<R: Registry>(
    alloc: Global,
    directory: &Directory<R>,
    heard: &Heard<'_>,
    asked: AskedChange<'_>,
    answer: &mut Answer,
) -> Result<(Sent, Option<Change>), NoMemory>
    requires change { is_change_function (function_in heard.now.request) ≡ true }
    requires asked { IsAskedAt directory.now.site heard.now.call.now.bytes.now asked }
    requires no_reply { answer.old.bytes.items ≡ [] }
    requires no_line { answer.old.audit.items ≡ [] }
    ensures { (o : Opening) (h : History) → Fold o h directory.now → IsLegal o h
        → IfOk result (λ p. Acknowledges o h heard.now.call.now.moment heard.now.call.now.asker heard.now.call.now.bytes.now p.0 p.1 answer.new.bytes.items answer.new.audit.items) }
{
    let reply = Reply {
        rules: directory.rules(),
        heard,
    };
    match asked {
        Ok(change) => acknowledge_change(alloc, directory, &reply, change, answer),
        Err(fault) => {
            let sent = reply.fault(fault, answer)?;
            Ok((sent, None))
        }
    }
}

/// Reads a message that asks for a change, and acknowledges it, in the same way.
pub(crate) fn acknowledge_unread<R: Registry>(
    alloc: Global,
    directory: &Directory<R>,
    heard: &Heard<'_>,
    answer: &mut Answer,
) -> Result<(Sent, Option<Change>), NoMemory>
    requires change { is_change_function (function_in heard.now.request) ≡ true }
    requires no_reply { answer.old.bytes.items ≡ [] }
    requires no_line { answer.old.audit.items ≡ [] }
    ensures { (o : Opening) (h : History) → Fold o h directory.now → IsLegal o h
        → IfOk result (λ p. Acknowledges o h heard.now.call.now.moment heard.now.call.now.asker heard.now.call.now.bytes.now p.0 p.1 answer.new.bytes.items answer.new.audit.items) }
{
    let asked = read_heard(alloc, directory.site(), heard)?;
    acknowledge_heard(alloc, directory, heard, asked, answer)
}
