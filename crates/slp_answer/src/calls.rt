//! What comes of bytes: the reply, their line, and the change that they ask for.
ghost use Rattle.std.specs.Prelude.{◌≡◌, ◌≤◌, [], true, false, IfOk, OnErr};
ghost use Rattle.directory_judge.specs.History.{History};
ghost use Rattle.directory_questions.specs.Answers.{is_change_of};
ghost use Rattle.directory_questions.specs.Calls.{Opening, call_in};
ghost use Rattle.directory_questions.specs.Verdicts.{IsLegal};
ghost use Rattle.directory_state.specs.Folds.{Fold};
ghost use Rattle.slp_answer.specs.Answers.{Acknowledges, Replies, Steps};

use crate::acknowledgements::acknowledge_unread;
use crate::questions::answer_heard;
use addresses::Addr;
use directory_judge::Change;
use directory_questions::{Call, Heard};
use directory_state::Directory;
use registry_core::Registry;
use slp_replies::{Answer, Sent, told_whole};
use slp_text::NoMemory;
use std::alloc::Global;

/// The step of an agent: answers bytes, and makes the change that they ask for where it is accepted.
/// `NoMemory` changes nothing, and leaves the answer empty.
pub fn step<R: Registry>(
    alloc: Global,
    directory: &mut Directory<R>,
    call: &Call<'_>,
    answer: &mut Answer,
) -> Result<Sent, NoMemory>
    requires datagram { 1400 ≤ call.now.limit }
    requires stream { call.now.limit ≤ 65535 }
    ensures told { (o : Opening) (h : History) → Fold o h directory.old → IsLegal o h
        → IfOk result (λ what. Steps o h (call_in call.now) what answer.new.bytes.items answer.new.audit.items directory.new) }
    ensures kept { OnErr result (directory.new ≡ directory.old) }
    ensures no_reply { OnErr result (answer.new.bytes.items ≡ []) }
    ensures no_line { OnErr result (answer.new.audit.items ≡ []) }
{
    answer.clear();
    let Some(heard) = Heard::of(call) else {
        return Ok(Sent::Silence);
    };
    if !heard.request.is_change() {
        let told = answer_heard(alloc, directory, &heard, answer);
        return told_whole(told, answer);
    }
    let told = acknowledge_unread(alloc, directory, &heard, answer);
    let (sent, change) = told_whole(told, answer)?;
    if let Some(change) = change {
        directory.apply(change);
    }
    Ok(sent)
}

/// Answers bytes that ask for no change, in at most `limit` bytes. `own` is the address of the loop
/// that they came to. After `NoMemory` the answer is empty.
pub fn reply<R: Registry>(
    alloc: Global,
    directory: &Directory<R>,
    own: Addr,
    moment: u32,
    asker: Addr,
    bytes: &[u8],
    limit: usize,
    answer: &mut Answer,
) -> Result<Sent, NoMemory>
    requires no_change { is_change_of bytes.now ≡ false }
    requires datagram { 1400 ≤ limit }
    requires stream { limit ≤ 65535 }
    ensures told { (o : Opening) (h : History) → Fold o h directory.now → IsLegal o h
        → IfOk result (λ what. Replies o h (record { own = own; moment = moment; asker = asker; bytes = bytes.now; limit = limit }) what answer.new.bytes.items answer.new.audit.items) }
    ensures no_reply { OnErr result (answer.new.bytes.items ≡ []) }
    ensures no_line { OnErr result (answer.new.audit.items ≡ []) }
{
    let call = Call {
        own,
        moment,
        asker,
        bytes,
        limit,
    };
    answer.clear();
    let Some(heard) = Heard::of(&call) else {
        return Ok(Sent::Silence);
    };
    let told = answer_heard(alloc, directory, &heard, answer);
    told_whole(told, answer)
}

/// Acknowledges bytes that ask for a change, and hands out the change where one is accepted. It is
/// not made yet. After `NoMemory` the answer is empty.
pub fn acknowledge<R: Registry>(
    alloc: Global,
    directory: &Directory<R>,
    moment: u32,
    asker: Addr,
    bytes: &[u8],
    answer: &mut Answer,
) -> Result<(Sent, Option<Change>), NoMemory>
    requires { is_change_of bytes.now ≡ true }
    ensures told { (o : Opening) (h : History) → Fold o h directory.now → IsLegal o h
        → IfOk result (λ p. Acknowledges o h moment asker bytes.now p.0 p.1 answer.new.bytes.items answer.new.audit.items) }
    ensures no_reply { OnErr result (answer.new.bytes.items ≡ []) }
    ensures no_line { OnErr result (answer.new.audit.items ≡ []) }
{
    let call = Call::anywhere(moment, asker, bytes);
    answer.clear();
    let Some(heard) = Heard::of(&call) else {
        unreachable!();
    };
    let told = acknowledge_unread(alloc, directory, &heard, answer);
    told_whole(told, answer)
}
