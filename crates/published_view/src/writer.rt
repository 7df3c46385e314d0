//! The writer: what changes the directory, and publishes it.
ghost use Rattle.std.specs.Prelude.{◌≡◌, ◌⊎◌, ◌↔◌, [], ◌∷◌, true, false, IsOkAnd, IfOk, IfErr, OnOk, OnErr, IsErrOf, None, Some};
ghost use Rattle.directory_judge.specs.Contents.{content};
ghost use Rattle.directory_judge.specs.History.{now};
ghost use Rattle.directory_questions.specs.Answers.{is_change_of};
ghost use Rattle.directory_questions.specs.Requests.{function_in, is_change_function};
ghost use Rattle.directory_questions.specs.Verdicts.{IsLegal};
ghost use Rattle.directory_state.specs.Events.{call_anywhere};
ghost use Rattle.directory_state.specs.Folds.{StandsFor};
ghost use Rattle.history_log.specs.Events.{history_in};
ghost use Rattle.directory_runs.specs.Changes.{IsChanged, reload_at, sweep_at};
ghost use Rattle.slp_answer.specs.AskedChanges.{IsAskedAt};
ghost use Rattle.published_view.specs.Changes.{event_or_sweep, written_at};
ghost use Rattle.published_view.specs.Rules.{NextOf};
ghost use Rattle.published_view.specs.Traces.{IsWritten};

use crate::copies::{PublishedCopy, Step};
use crate::fault::ViewFault;
use crate::ghosts::{Asks, AsksNothing};
use crate::rule::{RuledWriter, publish_step};
use crate::view::Note;
use access_rules::Rules;
use addresses::Addr;
use directory_judge::Change;
use history_log::{Book, Happening, Naming};
use slp_answer::{
    Answer, AskedChange, Call, Heard, Sent, acknowledge_heard, read_heard, told_whole,
};
use slp_text::NoMemory;
use std::alloc::Global;
use std::marker::{Brand, Model};
use std::sync::{Arc, Wait};

/// What changes the directory. Contracts see the history that it published, by which calls, and whether it is shut: once a publish
/// was refused, it makes no change any more, and `change`, `sweep` and `reload` answer `Closed`. A change may wait, at its publish,
/// for readers that entered before the publish before it; readers never wait.
pub struct DirectoryWriter<J: Naming, R: Wait + Drop> {
    // It is there between any two calls.
    pub(crate) writer: Option<RuledWriter<J>>,
    // The word that says how long the history is.
    pub(crate) book: Book<J>,
    // The directory that changes are judged on, as it is published.
    pub(crate) own: PublishedCopy,
    pub(crate) shut: bool,
    pub(crate) rt: R,
}

impl<J: Naming, R: Wait + Drop> Model for DirectoryWriter<J, R> {
    ghost use Rattle.std.specs.Prelude.{◌≡◌, [], false, drop, IsSomeAnd};
    ghost use Rattle.std.specs.Option.{option_map_or};
    ghost use Rattle.left_right.specs.Sides.{view as view_of};
    ghost use Rattle.published_view.specs.Changes.{Writing, writing_code};
    ghost use Rattle.published_view.specs.Rules.{IsAfter, history_of};

    ghost Value = { Writing };

    ghost coded = { writing_code };

    ghost view = { λ w. record { history = history_of w.own; trace = option_map_or (λ x. view_of x.desk.place) w.writer []; is_shut = w.shut } };

    ghost invariant = { λ w. IsSomeAnd w.writer (λ x. (w.own ≡ x.desk.shown.value) × (w.shut ≡ false → drop x.behind x.log.items ≡ [])) × IsAfter J.book J.opening w.own };
}

impl<J: Naming, R: Wait + Drop> Drop for DirectoryWriter<J, R> {
    fn drop(self) {
        let Self {
            writer,
            book: _book,
            own,
            shut: _,
            rt,
        } = self;
        drop(own);
        if let Some(writer) = writer {
            drop(writer.take(&rt));
        }
    }
}

// A writer is not `Drop`, so what stood there is ended.
fn put_back<J: Naming, R: Wait>(home: &mut Option<RuledWriter<J>>, writer: RuledWriter<J>, rt: &R)
    ensures { home.new ≡ Some writer }
{
    if let Some(old) = home.replace(writer) {
        drop(old.take(rt));
    }
}

impl<J: Naming, R: Wait + Drop> DirectoryWriter<J, R> {
    /// Answers a message that asks for a change, of which this was read at the site, at the history that is published, and publishes what is accepted. A refusal
    /// publishes nothing, and leaves the answer empty.
    pub fn hear(
        &mut self,
        alloc: Global,
        heard: &Heard<'_>,
        asked: AskedChange<'_>,
        answer: &mut Answer,
    ) -> Result<Sent, ViewFault>
        requires change { is_change_function (function_in heard.now.request) ≡ true }
        requires asked { IsAskedAt J.opening.site heard.now.call.now.bytes.now asked }
        ensures made { IfOk result (λ what. IsChanged J.opening self.old.history heard.now.call.now.moment heard.now.call.now.asker heard.now.call.now.bytes.now what answer.new.bytes.items answer.new.audit.items self.new.history) }
        ensures legal { OnOk result (IsLegal J.opening self.new.history) }
        ensures wrote { OnOk result ((self.new ≡ self.old) ⊎ (self.new ≡ written_at self.old self.new.history (Some (call_anywhere heard.now.call.now.moment heard.now.call.now.asker heard.now.call.now.bytes.now)))) }
        ensures kept { OnErr result (self.new.history ≡ self.old.history) }
        ensures unwritten { OnErr result (self.new.trace ≡ self.old.trace) }
        ensures no_reply { OnErr result (answer.new.bytes.items ≡ []) }
        ensures no_line { OnErr result (answer.new.audit.items ≡ []) }
        ensures open { OnOk result (self.new.is_shut ≡ false) }
        ensures closed { IsErrOf result ViewFault.Closed ↔ (self.old.is_shut ≡ true) }
        ensures stays_shut { self.old.is_shut ≡ true → self.new.is_shut ≡ true }
        ensures faults { IfErr result (λ e. (e ≡ ViewFault.NoMemory) ⊎ (e ≡ ViewFault.Closed)) }
    {
        answer.clear();
        if self.shut {
            drop(asked);
            return Err(ViewFault::Closed);
        }
        let told = self.make::<Brand, Brand>(alloc, heard, asked, answer);
        Ok(told_whole(told, answer)?)
    }

    /// The same of bytes, which an asker sent at a moment, in seconds.
    pub fn change(
        &mut self,
        alloc: Global,
        moment: u32,
        asker: Addr,
        bytes: &[u8],
        answer: &mut Answer,
    ) -> Result<Sent, ViewFault>
        requires { is_change_of bytes.now ≡ true }
        ensures made { IfOk result (λ what. IsChanged J.opening self.old.history moment asker bytes.now what answer.new.bytes.items answer.new.audit.items self.new.history) }
        ensures legal { OnOk result (IsLegal J.opening self.new.history) }
        ensures wrote { OnOk result ((self.new ≡ self.old) ⊎ (self.new ≡ written_at self.old self.new.history (Some (call_anywhere moment asker bytes.now)))) }
        ensures kept { OnErr result (self.new.history ≡ self.old.history) }
        ensures unwritten { OnErr result (self.new.trace ≡ self.old.trace) }
        ensures no_reply { OnErr result (answer.new.bytes.items ≡ []) }
        ensures no_line { OnErr result (answer.new.audit.items ≡ []) }
        ensures open { OnOk result (self.new.is_shut ≡ false) }
        ensures closed { IsErrOf result ViewFault.Closed ↔ (self.old.is_shut ≡ true) }
        ensures stays_shut { self.old.is_shut ≡ true → self.new.is_shut ≡ true }
        ensures faults { IfErr result (λ e. (e ≡ ViewFault.NoMemory) ⊎ (e ≡ ViewFault.Closed)) }
    {
        let call = Call::anywhere(moment, asker, bytes);
        let Some(heard) = Heard::of(&call) else {
            unreachable!();
        };
        answer.clear();
        if self.shut {
            return Err(ViewFault::Closed);
        }
        let asked = read_heard(alloc, self.own.directory.site(), &heard)?;
        self.hear(alloc, &heard, asked, answer)
    }

    // Answers a message, and publishes its change, where one is accepted. The event is the one that it asks for.
    fn make<E: Happening, Q: Asks>(
        &mut self,
        alloc: Global,
        heard: &Heard<'_>,
        asked: AskedChange<'_>,
        answer: &mut Answer,
    ) -> Result<Sent, NoMemory>
        requires change { is_change_function (function_in heard.now.request) ≡ true }
        requires asked { IsAskedAt J.opening.site heard.now.call.now.bytes.now asked }
        requires no_reply { answer.old.bytes.items ≡ [] }
        requires no_line { answer.old.audit.items ≡ [] }
        requires open { self.old.is_shut ≡ false }
        requires event { E.event ≡ event_or_sweep J.opening self.old.history heard.now.call.now.moment heard.now.call.now.asker heard.now.call.now.bytes.now }
        requires asks { Q.call ≡ Some (call_anywhere heard.now.call.now.moment heard.now.call.now.asker heard.now.call.now.bytes.now) }
        ensures made { IfOk result (λ what. IsChanged J.opening self.old.history heard.now.call.now.moment heard.now.call.now.asker heard.now.call.now.bytes.now what answer.new.bytes.items answer.new.audit.items self.new.history) }
        ensures legal { OnOk result (IsLegal J.opening self.new.history) }
        ensures wrote { OnOk result ((self.new ≡ self.old) ⊎ (self.new ≡ written_at self.old self.new.history Q.call)) }
        ensures kept { OnErr result (self.new.history ≡ self.old.history) }
        ensures unwritten { OnErr result (self.new.trace ≡ self.old.trace) }
        ensures still_open { OnOk result (self.new.is_shut ≡ false) }
    {
        let (sent, change) = acknowledge_heard(alloc, &self.own.directory, heard, asked, answer)?;
        let Some(change) = change else {
            return Ok(sent);
        };
        self.put_out::<E, Q>(change)?;
        Ok(sent)
    }

    // Publishes a change that stands for an event, and makes it of the writer's own directory. The share for that
    // is taken before anything is in line.
    fn put_out<E: Happening, Q: Asks>(&mut self, change: Change) -> Result<(), NoMemory>
        requires open { self.old.is_shut ≡ false }
        requires legal { IsLegal J.opening (E.event ∷ self.old.history) }
        requires written { IsWritten J.opening Q.call self.old.history (E.event ∷ self.old.history) }
        requires stands { StandsFor self.old.history (content change) E.event }
        ensures made { OnOk result (self.new ≡ written_at self.old (E.event ∷ self.old.history) Q.call) }
        ensures kept { OnErr result (self.new.history ≡ self.old.history) }
        ensures unwritten { OnErr result (self.new.trace ≡ self.old.trace) }
    {
        let Ok(mine) = change.share() else {
            drop(change);
            return Err(NoMemory);
        };
        let Some(trail) = self.own.trail.longer::<J, E>(&self.book) else {
            drop(change);
            drop(mine);
            return Err(NoMemory);
        };
        let mine = Step {
            change: mine,
            trail: trail.again(),
        };
        self.publish::<Q>(Step { change, trail }, mine)
    }

    // The two steps are alike. The second is for the writer's own directory.
    fn publish<Q: Asks>(&mut self, step: Step, mine: Step) -> Result<(), NoMemory>
        requires open { self.old.is_shut ≡ false }
        requires alike { content mine.change ≡ content step.change }
        requires together { mine.trail ≡ step.trail }
        requires next { NextOf J.book J.opening Q.call self.old.history step }
        ensures made { OnOk result (self.new ≡ written_at self.old (history_in step.trail.seen.log) Q.call) }
        ensures kept { OnErr result (self.new.history ≡ self.old.history) }
        ensures unwritten { OnErr result (self.new.trace ≡ self.old.trace) }
    {
        let writer = self.writer.take().unwrap();
        let (writer, published) = publish_step::<J, R, Q>(writer, &self.rt, step);
        put_back(&mut self.writer, writer, &self.rt);
        if published.is_err() {
            drop(mine);
            self.shut = true;
            return Err(NoMemory);
        }
        self.own.take_in(mine);
        Ok(())
    }

    /// Publishes a sweep: what is dead at a moment, in seconds, is dropped, or at the clock where that is greater.
    pub fn sweep(&mut self, moment: u32) -> Result<(), ViewFault>
        ensures made { OnOk result (self.new ≡ written_at self.old (sweep_at (now self.old.history moment) ∷ self.old.history) None) }
        ensures kept { OnErr result (self.new.history ≡ self.old.history) }
        ensures unwritten { OnErr result (self.new.trace ≡ self.old.trace) }
        ensures closed { IsErrOf result ViewFault.Closed ↔ (self.old.is_shut ≡ true) }
        ensures stays_shut { self.old.is_shut ≡ true → self.new.is_shut ≡ true }
        ensures faults { IfErr result (λ e. (e ≡ ViewFault.NoMemory) ⊎ (e ≡ ViewFault.Closed)) }
    {
        if self.shut {
            return Err(ViewFault::Closed);
        }
        let now = self.own.directory.now(moment);
        self.put_out::<Brand, AsksNothing>(Change::Sweep(now))?;
        Ok(())
    }

    /// Publishes a reload: from a moment on, in seconds, or from the clock on where that is greater, these rules decide. A refusal consumes
    /// them.
    pub fn reload(&mut self, alloc: Global, moment: u32, rules: Rules) -> Result<(), ViewFault>
        ensures made { OnOk result (self.new ≡ written_at self.old (reload_at (now self.old.history moment) rules ∷ self.old.history) None) }
        ensures kept { OnErr result (self.new.history ≡ self.old.history) }
        ensures unwritten { OnErr result (self.new.trace ≡ self.old.trace) }
        ensures closed { IsErrOf result ViewFault.Closed ↔ (self.old.is_shut ≡ true) }
        ensures stays_shut { self.old.is_shut ≡ true → self.new.is_shut ≡ true }
        ensures faults { IfErr result (λ e. (e ≡ ViewFault.NoMemory) ⊎ (e ≡ ViewFault.Closed)) }
    {
        if self.shut {
            drop(rules);
            return Err(ViewFault::Closed);
        }
        let rules = Arc::new(alloc, rules)?;
        let now = self.own.directory.now(moment);
        self.put_out::<Brand, AsksNothing>(Change::Reload(now, rules))?;
        Ok(())
    }

    /// What a loop can learn: how far the writer is. It takes no memory.
    pub fn note(&mut self) -> Result<Note<J>, ViewFault>
        ensures list { IsOkAnd result (λ n. n ≡ self.old.history) }
        ensures kept { self.new ≡ self.old }
    {
        Ok(Note {
            front: self.own.trail.named::<J>(),
        })
    }
}
