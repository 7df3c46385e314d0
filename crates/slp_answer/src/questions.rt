//! What is answered to a question: services, with as many of those that are found as fit, or what stands instead.
ghost use Rattle.std.specs.Prelude.{◌≡◌, ◌≤◌, ◌==◌, ◌&&◌, ◌||◌, [], false, if◌then◌else◌, not, length, IfNone, IfOk, IfSome, MatchResult, Some};
ghost use Rattle.slp_headers.specs.Headers.{heading_in};
ghost use Rattle.slp_wire.specs.Spelling.{plain_bytes};
ghost use Rattle.directory_judge.specs.History.{History};
ghost use Rattle.directory_judge.specs.Judgements.{by_step};
ghost use Rattle.directory_judge.specs.declared.reason.Decider.TheVariants as decider;
ghost use Rattle.directory_questions.specs.Calls.{Opening, call_in};
ghost use Rattle.directory_questions.specs.Outcomes.{is_to_many, outcome, sent_of};
ghost use Rattle.directory_questions.specs.Requests.{function_in, is_change_function};
ghost use Rattle.directory_questions.specs.Verdicts.{IsLegal};
ghost use Rattle.directory_questions.specs.declared.question.Question.TheVariants as question;
ghost use Rattle.directory_state.specs.Fronts.{items_in};
ghost use Rattle.directory_questions.specs.Readings.{IsAsked, IsUnread};
ghost use Rattle.directory_questions.specs.declared.query.Target.TheVariants.{Kind};
ghost use Rattle.directory_state.specs.Folds.{Fold};
ghost use Rattle.directory_state.specs.Sources.{IsSourceAt, IsUnbounded};
ghost use Rattle.slp_answer.specs.ServiceReplies.{service_reply};
ghost use Rattle.slp_answer.specs.Answers.{IsQuestionAnswered, Replies};
ghost use Rattle.slp_replies.specs.Tellings.{TellsOf};
ghost use Rattle.slp_replies.specs.declared.answer.Sent.TheVariants as sent;

use crate::adverts::answer_agents;
use crate::service_replies::{put_found, room_in};
use crate::text_replies::{answer_attributes, answer_types};
use directory_judge::{Decider, Finding};
use directory_questions::{Heard, Question, ServiceQuery, asked};
use directory_state::{Directory, FoundItems, Source};
use registry_core::Registry;
use service_url::ServiceType;
use slp_replies::{Answer, Reply, Sent, is_unsent};
use slp_text::NoMemory;
use slp_wire::{WireFault, code};
use std::alloc::Global;

/// What was read of a question, or the fault for which it is none.
pub type ReadQuestion = Result<Question, WireFault>;

// Whether nothing was found.
fn is_nothing(found: &FoundItems<'_>) -> bool
    ensures { result ≡ (length (items_in found.now) == 0 && not found.now.is_cut) }
{
    found.latest.is_empty() && !found.is_cut
}

// Writes the services that were found, where a reply is sent.
fn put_services(
    reply: &Reply<'_>,
    found: &FoundItems<'_>,
    bytes: &mut Vec<u8>,
) -> Result<Sent, NoMemory>
    requires short { length (plain_bytes (service_reply (heading_in reply.now.heard.now.header) found.now.is_cut (items_in found.now))) ≤ 65535 }
    requires no_reply { bytes.old.items ≡ [] }
    ensures bytes { let is_empty = length (items_in found.now) == 0 && not found.now.is_cut in
        IfOk result (λ _. bytes.new.items ≡ sent_of (heading_in reply.now.heard.now.header) 0 is_empty (plain_bytes (service_reply (heading_in reply.now.heard.now.header) found.now.is_cut (items_in found.now)))) }
    ensures sent { let is_empty = length (items_in found.now) == 0 && not found.now.is_cut in
        IfOk result (λ what. what ≡ (if is_to_many (heading_in reply.now.heard.now.header) && (not (0 == 0) || is_empty) then sent.Silence else sent.Bytes 0)) }
{
    if is_unsent(reply.heard, code::OK, is_nothing(found)) {
        return Ok(Sent::Silence);
    }
    put_found(&reply.heard.header, found, bytes)?;
    Ok(Sent::Bytes(code::OK))
}

// Sends the services that were found.
fn services(
    reply: &Reply<'_>,
    kind: &ServiceType,
    found: &FoundItems<'_>,
    answer: &mut Answer,
) -> Result<Sent, NoMemory>
    requires short { length (plain_bytes (service_reply (heading_in reply.now.heard.now.header) found.now.is_cut (items_in found.now))) ≤ 65535 }
    requires no_reply { answer.old.bytes.items ≡ [] }
    requires no_line { answer.old.audit.items ≡ [] }
    ensures { let head = heading_in reply.now.heard.now.header in
        let whole = plain_bytes (service_reply head found.now.is_cut (items_in found.now)) in
        let is_empty = length (items_in found.now) == 0 && not found.now.is_cut in
        IfOk result (λ what. TellsOf reply.now (outcome (sent_of head 0 is_empty whole) 0 (by_step decider.Nobody (Some kind.now))) what answer.new.bytes.items answer.new.audit.items) }
{
    let sent = put_services(reply, found, &mut answer.bytes)?;
    reply.tell(&Finding::by_nobody(Some(kind)), &mut answer.audit)?;
    Ok(sent)
}

/// Answers a question about services: with as many of those that are found as fit, or with the code that
/// stands instead; not at all where a search would have to look at more entries than it may.
#[inline(always)]
pub fn answer_services<R: Registry>(
    alloc: Global,
    source: &Source<'_, R>,
    reply: &Reply<'_>,
    query: &ServiceQuery,
    answer: &mut Answer,
) -> Result<Option<Sent>, NoMemory>
    requires no_reply { answer.old.bytes.items ≡ [] }
    requires no_line { answer.old.audit.items ≡ [] }
    ensures told { (o : Opening) (h : History) → IsSourceAt o h (Kind query.now.kind) source.now → IsLegal o h
        → IfOk result (λ told. IfSome told (λ what. IsQuestionAnswered o h reply.now (question.Services query.now) what answer.new.bytes.items answer.new.audit.items)) }
    ensures ended { IfOk result (λ told. IfNone told (¬ IsUnbounded source.now)) }
    ensures no_reply { IfOk result (λ told. IfNone told (answer.new.bytes.items ≡ [])) }
    ensures no_line { IfOk result (λ told. IfNone told (answer.new.audit.items ≡ [])) }
{
    let call = reply.heard.call;
    let room = room_in(&reply.heard.header, call.limit);
    let kind = &query.kind;
    let sent = match source.find(alloc, call.moment, call.asker, query, room) {
        Ok(Some(found)) => services(reply, kind, &found, answer)?,
        Ok(None) => return Ok(None),
        Err(fault) => reply.query_fault(fault, Some(kind), answer)?,
    };
    Ok(Some(sent))
}

/// Answers a question, or with nothing what no directory answers.
pub(crate) fn answer_question<R: Registry>(
    alloc: Global,
    directory: &Directory<R>,
    reply: &Reply<'_>,
    posed: &Question,
    answer: &mut Answer,
) -> Result<Sent, NoMemory>
    requires no_reply { answer.old.bytes.items ≡ [] }
    requires no_line { answer.old.audit.items ≡ [] }
    ensures { (o : Opening) (h : History) → Fold o h directory.now → IsLegal o h
        → IfOk result (λ what. IsQuestionAnswered o h reply.now posed.now what answer.new.bytes.items answer.new.audit.items) }
{
    match posed {
        Question::Silent => Ok(Sent::Silence),
        Question::Unreadable => reply.code(&Finding::deny(Decider::Parse, None), answer),
        Question::Services(query) => {
            let source = Source::Whole(directory, usize::MAX);
            match answer_services(alloc, &source, reply, query, answer)? {
                Some(sent) => Ok(sent),
                None => unreachable!(),
            }
        }
        Question::Attributes(query) => {
            let source = Source::Whole(directory, usize::MAX);
            answer_attributes(alloc, &source, reply, query, answer)
        }
        Question::Types(query) => answer_types(alloc, directory, reply, query, answer),
        Question::Agents(query) => answer_agents(alloc, directory, reply, query, answer),
    }
}

/// Answers a question, into an answer that is empty. After `NoMemory` that may hold anything.
pub fn answer_heard<R: Registry>(
    alloc: Global,
    directory: &Directory<R>,
    heard: &Heard<'_>,
    answer: &mut Answer,
) -> Result<Sent, NoMemory>
    requires question { is_change_function (function_in heard.now.request) ≡ false }
    requires no_reply { answer.old.bytes.items ≡ [] }
    requires no_line { answer.old.audit.items ≡ [] }
    ensures { (o : Opening) (h : History) → Fold o h directory.now → IsLegal o h
        → IfOk result (λ what. Replies o h (call_in heard.now.call.now) what answer.new.bytes.items answer.new.audit.items) }
{
    let reply = Reply {
        rules: directory.rules(),
        heard,
    };
    match asked(alloc, heard)? {
        Ok(question) => {
            let told = answer_question(alloc, directory, &reply, &question, answer);
            drop(question);
            told
        }
        Err(fault) => reply.fault(fault, answer),
    }
}
