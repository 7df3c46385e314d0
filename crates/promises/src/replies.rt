ghost use Rattle.std.specs.Prelude.{◌≡◌, ◌≤◌, ◌++◌, [], false, IfOk, OnOk, OnErr};
ghost use Rattle.directory_judge.specs.History.{History};
ghost use Rattle.directory_questions.specs.Answers.{is_change_of};
ghost use Rattle.directory_questions.specs.Calls.{Opening, call_in};
ghost use Rattle.directory_questions.specs.Verdicts.{IsLegal};
ghost use Rattle.directory_state.specs.Folds.{Fold};
ghost use Rattle.slp_answer.specs.Answers.{Replies};
ghost use Rattle.slp_replies.specs.Audits.{audit_text};

use access_rules::Rules;
use directory_state::Directory;
use registry_core::Registry;
use slp_answer::{Answer, Audit, Call, Sent};
use slp_text::NoMemory;
use std::alloc::Global;

/// Answers bytes that ask for no change.
pub fn reply<R: Registry>(
    alloc: Global,
    directory: &Directory<R>,
    call: &Call<'_>,
    answer: &mut Answer,
) -> Result<Sent, NoMemory>
    requires no_change { is_change_of call.now.bytes.now ≡ false }
    requires datagram { 1400 ≤ call.now.limit }
    requires stream { call.now.limit ≤ 65535 }
    ensures told { (o : Opening) (h : History) → Fold o h directory.now → IsLegal o h
        → IfOk result (λ what. Replies o h (call_in call.now) what answer.new.bytes.items answer.new.audit.items) }
    ensures no_reply { OnErr result (answer.new.bytes.items ≡ []) }
    ensures no_line { OnErr result (answer.new.audit.items ≡ []) }
{
    let Call {
        own,
        moment,
        asker,
        bytes,
        limit,
    } = *call;
    let told = slp_answer::reply(alloc, directory, own, moment, asker, bytes, limit, answer);
    told
}

/// Appends the line that tells what came of a message.
pub fn audit_line(rules: &Rules, audit: &Audit, line: &mut Vec<u8>) -> Result<(), NoMemory>
    ensures ok { OnOk result (line.new.items ≡ line.old.items ++ audit_text rules.now audit.now) }
    ensures err { OnErr result (line.new.items ≡ line.old.items) }
{
    let told = slp_answer::audit_line(rules, audit, line);
    told
}
