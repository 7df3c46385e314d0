//! The rule of what is published, and the steps under it.
ghost use Rattle.std.specs.Prelude.{◌≡◌, ◌⊎◌, [], ◌∷◌, None, Some, drop, MatchResult};
ghost use Rattle.left_right.specs.Sides.{view};
ghost use Rattle.history_log.specs.Pasts.{IsPast};
ghost use Rattle.directory_questions.specs.Calls.{call_in};
ghost use Rattle.directory_questions.specs.Readings.{IsAsked as IsRead, IsUnread};
ghost use Rattle.slp_answer.specs.Answers.{Replies};
ghost use Rattle.slp_replies.specs.declared.answer.Sent.TheVariants.{Silence};
ghost use Rattle.published_view.specs.Rules.{IsAfter, NextOf, history_of};
ghost use Rattle.published_view.specs.Steps.{stepped};
ghost use Rattle.published_view.specs.Traces.{Wrote, last_at, IsAsked};

use crate::copies::{Operation, PublishedCopy, Step};
use crate::fault::ViewFault;
use crate::gate::Gate;
use crate::ghosts::{Asks, AsksNothing, Marked};
use crossbeam_utils::rule::{Outcome, Protocol};
use history_log::{Front, Naming};
use left_right::reader::{Factory, Reader};
use left_right::writer::Writer;
use slp_answer::{Answer, Call, Heard, ReadQuestion, Sent, begin_asked, end_asked, takes_long};
use slp_text::NoMemory;
use std::alloc::{AllocError, Global};
use std::marker::PhantomData;
use std::sync::Wait;
use table_registry::SiteRegistry;

/// The rule of what is published, at every step: it is the state of a legal history, and all that threads asked and wrote so far is
/// one run that published this history, whatever they were told. (A clause reads an array as a list, of any length.)
pub struct Published<J> {
    of: PhantomData<J>,
}

impl<J: Naming> Protocol<PublishedCopy, [Marked; 0]> for Published<J> {
    ghost use Rattle.std.specs.Prelude.{[]};
    ghost use Rattle.published_view.specs.Rules.{IsPublished};

    ghost holds = { IsPublished J.book J.opening };

    ghost first = { [] };
}

/// What is published is seen, and asked something, or nothing.
pub struct Sees<J, Q> {
    of: PhantomData<(J, Q)>,
}

impl<J: Naming, Q: Asks> Outcome<PublishedCopy, [Marked; 0]> for Sees<J, Q> {
    ghost use Rattle.published_view.specs.Rules.{SeesAll};

    ghost then = { SeesAll J.book J.opening Q.call };
}

/// What is shown is the same as before.
pub struct Shown<J> {
    of: PhantomData<J>,
}

impl<J: Naming> Outcome<PublishedCopy, [Marked; 0]> for Shown<J> {
    ghost use Rattle.published_view.specs.Rules.{Shows};

    ghost then = { Shows J.book J.opening };
}

/// What is written is shown, for a call or none.
pub struct Written<J, Q> {
    of: PhantomData<(J, Q)>,
}

impl<J: Naming, Q: Asks> Outcome<PublishedCopy, [Marked; 0]> for Written<J, Q> {
    ghost use Rattle.published_view.specs.Rules.{Leaves};

    ghost then = { Leaves J.book J.opening Q.call };
}

pub type RuledReader<J> = Reader<PublishedCopy, [Marked; 0], Published<J>>;

pub type RuledFactory<J> = Factory<PublishedCopy, [Marked; 0], Published<J>>;

pub type RuledWriter<J> = Writer<PublishedCopy, Operation, [Marked; 0], Published<J>>;

/// Sees what is published, and answers with nothing a call of which nothing is heard.
pub fn unheard<J: Naming, G: Gate, Q: Asks>(
    reader: RuledReader<J>,
    gate: &G,
    place: usize,
    call: &Call<'_>,
) -> (RuledReader<J>, Result<Sent, ViewFault>)
    requires asks { Q.call ≡ Some (call_in call.now) }
    ensures { MatchResult result.1 (λ what. (what ≡ Silence) × IsAsked J.opening (view reader.place) (Some (call_in call.now)) (view result.0.place))
        (λ e. (e ≡ ViewFault.Closed) × (view result.0.place ≡ view reader.place)) }
{
    match reader.enter_as::<Sees<J, Q>>() {
        Ok(reading) => {
            gate.inside(place);
            let reader = reading.leave();
            gate.outside(place);
            (reader, Ok(Sent::Silence))
        }
        Err(reader) => (reader, Err(ViewFault::Closed)),
    }
}

/// Answers a question at the history that is published, which is seen. One that may take long is answered when what is published is left again, from
/// what was gathered there for it. Without memory the history is seen all the same.
pub fn answered<J: Naming, G: Gate, Q: Asks>(
    alloc: Global,
    reader: RuledReader<J>,
    gate: &G,
    place: usize,
    heard: &Heard<'_>,
    read: &ReadQuestion,
    answer: &mut Answer,
) -> (RuledReader<J>, Result<Result<Sent, NoMemory>, ViewFault>)
    requires asks { Q.call ≡ Some (call_in heard.now.call.now) }
    requires read { MatchResult read.now (IsRead heard.now.call.now.own heard.now.call.now.bytes.now) (IsUnread heard.now.call.now.bytes.now) }
    ensures { MatchResult result.1
        (λ r. IsAsked J.opening (view reader.place) (Some (call_in heard.now.call.now)) (view result.0.place)
        × MatchResult r (λ what. Replies J.opening (last_at (view result.0.place)) (call_in heard.now.call.now) what answer.new.bytes.items answer.new.audit.items) (λ _. (answer.new.bytes.items ≡ []) × (answer.new.audit.items ≡ [])))
        (λ e. (e ≡ ViewFault.Closed) × (view result.0.place ≡ view reader.place) × (answer.new.bytes.items ≡ []) × (answer.new.audit.items ≡ [])) }
{
    answer.clear();
    match reader.enter_as::<Sees<J, Q>>() {
        Ok(reading) => {
            gate.inside(place);
            let copy = reading.get();
            let begun = begin_asked(alloc, &copy.directory, heard, read, answer);
            let reader = reading.leave();
            gate.outside(place);
            let sent = end_asked::<SiteRegistry>(alloc, begun, heard, read, answer);
            (reader, Ok(sent))
        }
        Err(reader) => (reader, Err(ViewFault::Closed)),
    }
}

/// Whether a question may take long, by what is published. Nothing is seen.
pub fn would_take_long<J: Naming>(
    reader: RuledReader<J>,
    heard: &Heard<'_>,
    read: &ReadQuestion,
) -> (RuledReader<J>, bool)
    ensures { view result.0.place ≡ view reader.place }
{
    match reader.enter_as::<Shown<J>>() {
        Ok(reading) => {
            let is_long = takes_long(&reading.get().directory, heard, read);
            (reading.leave(), is_long)
        }
        Err(reader) => (reader, false),
    }
}

/// Sees what is published, where it goes on from the note.
pub fn learnt<J: Naming>(
    reader: RuledReader<J>,
    note: &Front<J>,
) -> (RuledReader<J>, Result<(), ViewFault>)
    ensures { MatchResult result.1
        (λ _. IsAsked J.opening (view reader.place) None (view result.0.place) × IsPast note.now (last_at (view result.0.place)))
        (λ e. (e ≡ ViewFault.Closed) × ((view result.0.place ≡ view reader.place) ⊎ IsAsked J.opening (view reader.place) None (view result.0.place))) }
{
    match reader.enter_as::<Sees<J, AsksNothing>>() {
        Ok(reading) => {
            let front = reading.get().trail.named::<J>();
            let reader = reading.leave();
            if note.begins(&front) {
                (reader, Ok(()))
            } else {
                (reader, Err(ViewFault::Closed))
            }
        }
        Err(reader) => (reader, Err(ViewFault::Closed)),
    }
}

/// Publishes that nothing was done.
pub fn publish_nothing<J: Naming, R: Wait>(
    writer: RuledWriter<J>,
    rt: &R,
) -> (RuledWriter<J>, Result<(), AllocError>)
    requires { drop writer.behind writer.log.items ≡ Operation.Nothing ∷ [] }
    ensures { MatchResult result.1
        (λ _. (result.0.desk.shown.value ≡ writer.desk.shown.value) × (drop result.0.behind result.0.log.items ≡ []) × (view result.0.desk.place ≡ view writer.desk.place))
        (λ _. (result.0.desk.shown.value ≡ writer.desk.shown.value) × (view result.0.desk.place ≡ view writer.desk.place)) }
{
    writer.publish_as::<Shown<J>, R>(rt)
}

/// Publishes one step. It waits for readers that entered before the last step was published.
pub fn publish_step<J: Naming, R: Wait, Q: Asks>(
    mut writer: RuledWriter<J>,
    rt: &R,
    step: Step,
) -> (RuledWriter<J>, Result<(), AllocError>)
    requires idle { drop writer.behind writer.log.items ≡ [] }
    requires shown { IsAfter J.book J.opening writer.desk.shown.value }
    requires next { NextOf J.book J.opening Q.call (history_of writer.desk.shown.value) step }
    ensures { MatchResult result.1
        (λ _. (result.0.desk.shown.value ≡ stepped writer.desk.shown.value step) × (drop result.0.behind result.0.log.items ≡ []) × IsAfter J.book J.opening result.0.desk.shown.value
        × (view result.0.desk.place ≡ Wrote (history_of result.0.desk.shown.value) Q.call ∷ view writer.desk.place))
        (λ _. (result.0.desk.shown.value ≡ writer.desk.shown.value) × (view result.0.desk.place ≡ view writer.desk.place)) }
{
    if writer.append(Operation::Makes(step)).is_err() {
        return (writer, Err(AllocError));
    }
    writer.publish_as::<Written<J, Q>, R>(rt)
}
