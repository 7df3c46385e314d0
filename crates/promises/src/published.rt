ghost use Rattle.std.specs.Prelude.{◌≡◌, ◌⊎◌, ◌↔◌, ◌≤◌, [], true, false, Some, IfOk, IfErr, OnOk, OnErr, IsErrOf};
ghost use Rattle.directory_questions.specs.Answers.{is_change_of};
ghost use Rattle.directory_questions.specs.Calls.{call_in};
ghost use Rattle.directory_questions.specs.Verdicts.{IsLegal};
ghost use Rattle.directory_state.specs.Events.{call_anywhere};
ghost use Rattle.history_log.specs.Pasts.{IsPast};
ghost use Rattle.directory_runs.specs.Changes.{IsChanged};
ghost use Rattle.published_view.specs.Changes.{written_at};
ghost use Rattle.published_view.specs.Traces.{IsAsked, last_at};
ghost use Rattle.slp_answer.specs.Answers.{Replies};

use published_view::{DirectoryWriter, LoopView, Naming, OpenGate, ViewFault};
use slp_answer::{Answer, Call, Sent};
use std::alloc::Global;
use std::sync::Wait;

/// Answers bytes that ask for a change, and publishes what is accepted. Another writer of the opening's name is lent, of which nothing is asked.
pub fn change<J: Naming, R: Wait + Drop>(
    alloc: Global,
    writer: &mut DirectoryWriter<J, R>,
    _other: &mut DirectoryWriter<J, R>,
    call: &Call<'_>,
    answer: &mut Answer,
) -> Result<Sent, ViewFault>
    requires { is_change_of call.now.bytes.now ≡ true }
    ensures made { IfOk result (λ what. IsChanged J.opening writer.old.history call.now.moment call.now.asker call.now.bytes.now what answer.new.bytes.items answer.new.audit.items writer.new.history) }
    ensures legal { OnOk result (IsLegal J.opening writer.new.history) }
    ensures wrote { OnOk result ((writer.new ≡ writer.old) ⊎ (writer.new ≡ written_at writer.old writer.new.history (Some (call_anywhere call.now.moment call.now.asker call.now.bytes.now)))) }
    ensures kept { OnErr result (writer.new.history ≡ writer.old.history) }
    ensures unwritten { OnErr result (writer.new.trace ≡ writer.old.trace) }
    ensures no_reply { OnErr result (answer.new.bytes.items ≡ []) }
    ensures no_line { OnErr result (answer.new.audit.items ≡ []) }
    ensures open { OnOk result (writer.new.is_shut ≡ false) }
    ensures closed { IsErrOf result ViewFault.Closed ↔ (writer.old.is_shut ≡ true) }
    ensures stays_shut { writer.old.is_shut ≡ true → writer.new.is_shut ≡ true }
    ensures faults { IfErr result (λ e. (e ≡ ViewFault.NoMemory) ⊎ (e ≡ ViewFault.Closed)) }
{
    let told = writer.change(alloc, call.moment, call.asker, call.bytes, answer);
    told
}

/// Answers bytes that ask for no change, at one history that was published, which goes on from all that was seen before. Another view
/// of the opening's name is lent, of which nothing is asked.
pub fn answer<J: Naming>(
    alloc: Global,
    view: &mut LoopView<J>,
    _other: &mut LoopView<J>,
    call: &Call<'_>,
    answer: &mut Answer,
) -> Result<Sent, ViewFault>
    requires no_change { is_change_of call.now.bytes.now ≡ false }
    requires datagram { 1400 ≤ call.now.limit }
    requires stream { call.now.limit ≤ 65535 }
    ensures asked { OnOk result (IsAsked J.opening view.old (Some (call_in call.now)) view.new) }
    ensures told { IfOk result (λ what. Replies J.opening (last_at view.new) (call_in call.now) what answer.new.bytes.items answer.new.audit.items) }
    ensures untold { OnErr result ((view.new ≡ view.old) ⊎ IsAsked J.opening view.old (Some (call_in call.now)) view.new) }
    ensures later { IsPast (last_at view.old) (last_at view.new) }
    ensures no_reply { OnErr result (answer.new.bytes.items ≡ []) }
    ensures no_line { OnErr result (answer.new.audit.items ≡ []) }
    ensures closed { IsErrOf result ViewFault.Closed → view.new ≡ view.old }
    ensures faults { IfErr result (λ e. (e ≡ ViewFault.NoMemory) ⊎ (e ≡ ViewFault.Closed)) }
{
    let Call {
        own,
        moment,
        asker,
        bytes,
        limit,
    } = *call;
    let told = view.answer(alloc, &OpenGate, own, moment, asker, bytes, limit, answer);
    told
}
