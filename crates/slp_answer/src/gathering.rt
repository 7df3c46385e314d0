//! Questions that are answered when nothing of the directory is held any more: what they are about is gathered first.
ghost use Rattle.std.specs.Prelude.{◌≡◌, ◌-◌, ◌^◌, [], true, false, is_some, IfOk, MatchResult, Ok, OnErr};
ghost use Rattle.directory_judge.specs.History.{History};
ghost use Rattle.directory_questions.specs.Calls.{Opening, call_in};
ghost use Rattle.directory_questions.specs.Readings.{IsAsked, IsUnread};
ghost use Rattle.directory_questions.specs.Verdicts.{IsLegal};
ghost use Rattle.directory_questions.specs.declared.question.Question.TheVariants as question;
ghost use Rattle.directory_state.specs.Folds.{Fold};
ghost use Rattle.slp_answer.specs.Answers.{Replies};
ghost use Rattle.slp_answer.specs.Gathering.{is_gathered, IsBegun, IsBegunAt, IsGatheredAt};

use crate::questions::{ReadQuestion, answer_question, answer_services};
use crate::text_replies::answer_attributes;
use directory_questions::{Heard, Question, ServiceQuery, Target};
use directory_state::{Directory, Gathered, Source};
use registry_core::Registry;
use slp_replies::{Answer, Reply, Sent, told_whole};
use slp_text::NoMemory;
use std::alloc::Global;

/// What came of a question while its directory was read: an answer, or what it is still to be answered from.
#[derive(Drop)]
pub enum Begun {
    Told(Sent),
    Left(Gathered),
}

/// While the directory is read, a question with a filter looks at so many entries that these times the square of its bytes are no more. A look takes time for
/// the bytes and for the values of its entry: that is a millisecond or two of entries with few values, and 200 of such as have 5,000 each.
const MOST_AT_ONCE: usize = 4_000_000;

// How many entries a question with a filter looks at, of so many bytes.
fn most_at_once(bytes: usize) -> usize {
    MOST_AT_ONCE / bytes.saturating_mul(bytes).max(1)
}

// How many entries a question of so many bytes looks at while the directory is read. That decides where it is answered, and not what.
fn looks_at_once(query: &ServiceQuery, bytes: usize) -> usize
    ensures { is_some query.now.filter ≡ false → result ≡ 2 ^ 64 - 1 }
{
    match &query.filter {
        Some(_) => most_at_once(bytes),
        None => usize::MAX,
    }
}

/// Whether a question may have to look at more entries than it looks at while the directory is read. It decides where the question is answered, and
/// not what.
pub fn takes_long<R: Registry>(
    directory: &Directory<R>,
    heard: &Heard<'_>,
    read: &ReadQuestion,
) -> bool {
    let most = most_at_once(heard.call.bytes.len());
    match read {
        Ok(Question::Services(query)) if query.filter.is_some() => directory.count_of_kind(
            &query.kind,
        ) > most,
        Ok(Question::Attributes(query)) => match &query.target {
            Target::Kind(kind) => directory.count_of_kind(kind) > most,
            Target::Place(_) => most == 0,
        },
        _ => false,
    }
}

// Answers a question about services; where that takes many looks, it gathers what the question is about.
#[inline(always)]
fn begin_services<R: Registry>(
    alloc: Global,
    directory: &Directory<R>,
    heard: &Heard<'_>,
    query: &ServiceQuery,
    answer: &mut Answer,
) -> Result<Begun, NoMemory>
    requires asked { IsAsked heard.now.call.now.own heard.now.call.now.bytes.now (question.Services query.now) }
    requires no_reply { answer.old.bytes.items ≡ [] }
    requires no_line { answer.old.audit.items ≡ [] }
    ensures begun { IfOk result (λ b. IsBegun (Ok (question.Services query.now)) b answer.new.bytes.items answer.new.audit.items) }
    ensures told { (o : Opening) (h : History) → Fold o h directory.now → IsLegal o h
        → IfOk result (λ b. IsBegunAt o h (call_in heard.now.call.now) (Ok (question.Services query.now)) b answer.new.bytes.items answer.new.audit.items) }
{
    let reply = Reply {
        rules: directory.rules(),
        heard,
    };
    let source = Source::Whole(directory, looks_at_once(query, heard.call.bytes.len()));
    match answer_services(alloc, &source, &reply, query, answer)? {
        Some(sent) => Ok(Begun::Told(sent)),
        None => {
            let gathered = directory.gather_kind(alloc, &query.kind)?;
            Ok(Begun::Left(gathered))
        }
    }
}

// Answers a question; of one that may take long it gathers what that is about.
#[inline(always)]
fn begin_question<R: Registry>(
    alloc: Global,
    directory: &Directory<R>,
    heard: &Heard<'_>,
    posed: &Question,
    answer: &mut Answer,
) -> Result<Begun, NoMemory>
    requires asked { IsAsked heard.now.call.now.own heard.now.call.now.bytes.now posed.now }
    requires no_reply { answer.old.bytes.items ≡ [] }
    requires no_line { answer.old.audit.items ≡ [] }
    ensures begun { IfOk result (λ b. IsBegun (Ok posed.now) b answer.new.bytes.items answer.new.audit.items) }
    ensures told { (o : Opening) (h : History) → Fold o h directory.now → IsLegal o h
        → IfOk result (λ b. IsBegunAt o h (call_in heard.now.call.now) (Ok posed.now) b answer.new.bytes.items answer.new.audit.items) }
{
    match posed {
        Question::Services(query) => begin_services(alloc, directory, heard, query, answer),
        Question::Attributes(query) => {
            let gathered = directory.gather_about(alloc, &query.target)?;
            Ok(Begun::Left(gathered))
        }
        _ => {
            let reply = Reply {
                rules: directory.rules(),
                heard,
            };
            let sent = answer_question(alloc, directory, &reply, posed, answer)?;
            Ok(Begun::Told(sent))
        }
    }
}

/// Answers what was read of a question, into an answer that is empty; of one that may take long it gathers what that is about, and leaves the answer
/// as it is. After `NoMemory` that may hold anything.
#[inline(always)]
pub fn begin_asked<R: Registry>(
    alloc: Global,
    directory: &Directory<R>,
    heard: &Heard<'_>,
    read: &ReadQuestion,
    answer: &mut Answer,
) -> Result<Begun, NoMemory>
    requires read { MatchResult read.now (IsAsked heard.now.call.now.own heard.now.call.now.bytes.now) (IsUnread heard.now.call.now.bytes.now) }
    requires no_reply { answer.old.bytes.items ≡ [] }
    requires no_line { answer.old.audit.items ≡ [] }
    ensures begun { IfOk result (λ b. IsBegun read.now b answer.new.bytes.items answer.new.audit.items) }
    ensures told { (o : Opening) (h : History) → Fold o h directory.now → IsLegal o h
        → IfOk result (λ b. IsBegunAt o h (call_in heard.now.call.now) read.now b answer.new.bytes.items answer.new.audit.items) }
{
    match read {
        Ok(posed) => begin_question(alloc, directory, heard, posed, answer),
        Err(fault) => {
            let reply = Reply {
                rules: directory.rules(),
                heard,
            };
            let sent = reply.fault(*fault, answer)?;
            Ok(Begun::Told(sent))
        }
    }
}

// Answers a question from what was gathered for it.
#[inline(never)]
fn answer_gathered<R: Registry>(
    alloc: Global,
    gathered: &Gathered,
    heard: &Heard<'_>,
    posed: &Question,
    answer: &mut Answer,
) -> Result<Sent, NoMemory>
    requires gathered { is_gathered posed.now ≡ true }
    requires asked { IsAsked heard.now.call.now.own heard.now.call.now.bytes.now posed.now }
    requires no_reply { answer.old.bytes.items ≡ [] }
    requires no_line { answer.old.audit.items ≡ [] }
    ensures { (o : Opening) (h : History) → IsGatheredAt o h posed.now gathered.now → IsLegal o h
        → IfOk result (λ what. Replies o h (call_in heard.now.call.now) what answer.new.bytes.items answer.new.audit.items) }
{
    let reply = Reply {
        rules: gathered.rules(),
        heard,
    };
    let source: Source<'_, R> = Source::Part(gathered);
    match posed {
        Question::Services(query) => match answer_services(alloc, &source, &reply, query, answer)? {
            Some(sent) => Ok(sent),
            None => unreachable!(),
        },
        Question::Attributes(query) => answer_attributes(alloc, &source, &reply, query, answer),
        _ => unreachable!(),
    }
}

// Answers what was begun.
#[inline(always)]
fn end_begun<R: Registry>(
    alloc: Global,
    begun: Begun,
    heard: &Heard<'_>,
    read: &ReadQuestion,
    answer: &mut Answer,
) -> Result<Sent, NoMemory>
    requires read { MatchResult read.now (IsAsked heard.now.call.now.own heard.now.call.now.bytes.now) (IsUnread heard.now.call.now.bytes.now) }
    requires begun { IsBegun read.now begun answer.old.bytes.items answer.old.audit.items }
    ensures { (o : Opening) (h : History) → IsBegunAt o h (call_in heard.now.call.now) read.now begun answer.old.bytes.items answer.old.audit.items → IsLegal o h
        → IfOk result (λ what. Replies o h (call_in heard.now.call.now) what answer.new.bytes.items answer.new.audit.items) }
{
    match begun {
        Begun::Told(sent) => Ok(sent),
        Begun::Left(gathered) => match read {
            Ok(posed) => answer_gathered::<R>(alloc, &gathered, heard, posed, answer),
            Err(_) => unreachable!(),
        },
    }
}

/// Answers what was begun, from what was gathered where that is left. After `NoMemory` the answer is empty.
#[inline(always)]
pub fn end_asked<R: Registry>(
    alloc: Global,
    begun: Result<Begun, NoMemory>,
    heard: &Heard<'_>,
    read: &ReadQuestion,
    answer: &mut Answer,
) -> Result<Sent, NoMemory>
    requires read { MatchResult read.now (IsAsked heard.now.call.now.own heard.now.call.now.bytes.now) (IsUnread heard.now.call.now.bytes.now) }
    requires begun { IfOk begun (λ b. IsBegun read.now b answer.old.bytes.items answer.old.audit.items) }
    ensures told { (o : Opening) (h : History) → IfOk begun (λ b. IsBegunAt o h (call_in heard.now.call.now) read.now b answer.old.bytes.items answer.old.audit.items) → IsLegal o h
        → IfOk result (λ what. Replies o h (call_in heard.now.call.now) what answer.new.bytes.items answer.new.audit.items) }
    ensures no_reply { OnErr result (answer.new.bytes.items ≡ []) }
    ensures no_line { OnErr result (answer.new.audit.items ≡ []) }
{
    let told = match begun {
        Ok(begun) => end_begun::<R>(alloc, begun, heard, read, answer),
        Err(fault) => Err(fault),
    };
    told_whole(told, answer)
}
