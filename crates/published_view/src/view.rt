//! What answers in one thread, and what it learns of the writer.
ghost use Rattle.std.specs.Prelude.{◌≡◌, ◌⊎◌, ◌≤◌, [], None, Some, true, false, length, All, vec_len, IfOk, IfErr, OnOk, OnErr, IsErrOf};
ghost use Rattle.directory_questions.specs.Answers.{is_change_of};
ghost use Rattle.directory_questions.specs.Calls.{call_in};
ghost use Rattle.directory_questions.specs.Requests.{function_in, is_change_function};
ghost use Rattle.history_log.specs.Pasts.{IsPast};
ghost use Rattle.slp_answer.specs.Answers.{Replies};
ghost use Rattle.slp_answer.specs.AskedChanges.{IsAskedAt};
ghost use Rattle.std.specs.Arc.{arc_value};
ghost use Rattle.slp_replies.specs.declared.answer.Sent.TheVariants.{Silence};
ghost use Rattle.published_view.specs.Rules.{call_heard, IsQuestion};
ghost use Rattle.published_view.specs.Traces.{last_at, IsAsked};

use crate::fault::ViewFault;
use crate::gate::Gate;
use crate::rule::{RuledFactory, RuledReader, answered, learnt, unheard, would_take_long};
use addresses::Addr;
use directory_judge::Site;
use history_log::{Front, Naming};
use slp_answer::{Answer, AskedChange, Call, Heard, Sent, asked, read_heard};
use std::alloc::Global;
use std::marker::{Brand, Model};
use std::sync::Arc;

/// How far a writer had come. Contracts see it as the history that was published then.
#[derive(Drop)]
pub struct Note<J: Naming> {
    pub(crate) front: Front<J>,
}

impl<J: Naming> Model for Note<J> {
    ghost use Rattle.std.specs.Coded.{coded_list};
    ghost use Rattle.directory_judge.specs.History.{History};
    ghost use Rattle.history_log.specs.Events.{event_code};

    ghost Value = { History };

    ghost coded = { coded_list event_code };

    ghost view = { λ n. n.front };
}

/// What answers in one thread, without waiting. Contracts see it as all that it was asked, and where, the newest first.
pub struct LoopView<J: Naming> {
    // It is there between any two calls.
    reader: Option<RuledReader<J>>,
    place: usize,
    // As the writer's. Changes are read by it.
    site: Arc<Site>,
}

impl<J: Naming> Drop for LoopView<J> {
    fn drop(self) {
        let LoopView {
            reader: _,
            place: _,
            site: _,
        } = self;
    }
}

impl<J: Naming> Model for LoopView<J> {
    ghost use Rattle.std.specs.Prelude.{◌≡◌, [], true, is_some};
    ghost use Rattle.std.specs.Arc.{arc_value};
    ghost use Rattle.std.specs.Option.{option_map_or};
    ghost use Rattle.left_right.specs.Sides.{view as view_of};
    ghost use Rattle.published_view.specs.Traces.{Trace, trace_code};

    ghost Value = { Trace };

    ghost coded = { trace_code };

    ghost view = { λ l. option_map_or (λ r. view_of r.place) l.reader [] };

    ghost invariant = { λ l. (is_some l.reader ≡ true) × (J.opening.site ≡ arc_value l.site) };
}

impl<J: Naming> LoopView<J> {
    /// Answers a question, at one history that was published, which goes on from all that was seen before; what is unheard is answered with nothing.
    /// It takes no lock, and never waits. After a refusal the answer is empty; where memory was wanting, what was published may count as seen.
    pub fn hear<G: Gate>(
        &mut self,
        alloc: Global,
        gate: &G,
        heard: Result<&Heard<'_>, &Call<'_>>,
        answer: &mut Answer,
    ) -> Result<Sent, ViewFault>
        requires { IsQuestion heard }
        ensures asked { OnOk result (IsAsked J.opening self.old (Some (call_heard heard.entry)) self.new) }
        ensures told { IfOk result (λ what. Replies J.opening (last_at self.new) (call_heard heard.entry) what answer.new.bytes.items answer.new.audit.items) }
        ensures untold { OnErr result ((self.new ≡ self.old) ⊎ IsAsked J.opening self.old (Some (call_heard heard.entry)) self.new) }
        ensures later { IsPast (last_at self.old) (last_at self.new) }
        ensures no_reply { OnErr result (answer.new.bytes.items ≡ []) }
        ensures no_line { OnErr result (answer.new.audit.items ≡ []) }
        ensures closed { IsErrOf result ViewFault.Closed → self.new ≡ self.old }
        ensures faults { IfErr result (λ e. (e ≡ ViewFault.NoMemory) ⊎ (e ≡ ViewFault.Closed)) }
    {
        answer.clear();
        match heard {
            Ok(heard) => self.hear_asked(alloc, gate, heard, answer),
            Err(call) => self.hear_nothing(gate, call),
        }
    }

    // Answers a question. It is read before what is published is entered.
    fn hear_asked<G: Gate>(
        &mut self,
        alloc: Global,
        gate: &G,
        heard: &Heard<'_>,
        answer: &mut Answer,
    ) -> Result<Sent, ViewFault>
        requires question { is_change_function (function_in heard.now.request) ≡ false }
        requires no_reply { answer.old.bytes.items ≡ [] }
        requires no_line { answer.old.audit.items ≡ [] }
        ensures asked { OnOk result (IsAsked J.opening self.old (Some (call_in heard.now.call.now)) self.new) }
        ensures told { IfOk result (λ what. Replies J.opening (last_at self.new) (call_in heard.now.call.now) what answer.new.bytes.items answer.new.audit.items) }
        ensures untold { OnErr result ((self.new ≡ self.old) ⊎ IsAsked J.opening self.old (Some (call_in heard.now.call.now)) self.new) }
        ensures later { IsPast (last_at self.old) (last_at self.new) }
        ensures no_reply { OnErr result (answer.new.bytes.items ≡ []) }
        ensures no_line { OnErr result (answer.new.audit.items ≡ []) }
        ensures closed { IsErrOf result ViewFault.Closed → self.new ≡ self.old }
        ensures faults { IfErr result (λ e. (e ≡ ViewFault.NoMemory) ⊎ (e ≡ ViewFault.Closed)) }
    {
        let read = asked(alloc, heard)?;
        let reader = self.reader.take().unwrap();
        let (reader, entered) = answered::<J, G, Brand>(
            alloc, reader, gate, self.place, heard, &read, answer,
        );
        self.reader = Some(reader);
        let sent = entered?;
        Ok(sent?)
    }

    // Sees what is published, and answers a call of which nothing is heard.
    fn hear_nothing<G: Gate>(&mut self, gate: &G, call: &Call<'_>) -> Result<Sent, ViewFault>
        ensures asked { OnOk result (IsAsked J.opening self.old (Some (call_in call.now)) self.new) }
        ensures silent { IfOk result (λ what. what ≡ Silence) }
        ensures kept { OnErr result (self.new ≡ self.old) }
        ensures later { IsPast (last_at self.old) (last_at self.new) }
        ensures fault { IfErr result (λ e. e ≡ ViewFault.Closed) }
    {
        let reader = self.reader.take().unwrap();
        let (reader, entered) = unheard::<J, G, Brand>(reader, gate, self.place, call);
        self.reader = Some(reader);
        entered
    }

    /// Answers bytes that ask for no change, in at most `limit` bytes, in the same way. `own` is the address of the loop that
    /// they came to, the moment is in seconds.
    pub fn answer<G: Gate>(
        &mut self,
        alloc: Global,
        gate: &G,
        own: Addr,
        moment: u32,
        asker: Addr,
        bytes: &[u8],
        limit: usize,
        answer: &mut Answer,
    ) -> Result<Sent, ViewFault>
        requires no_change { is_change_of bytes.now ≡ false }
        requires datagram { 1400 ≤ limit }
        requires stream { limit ≤ 65535 }
        ensures asked { OnOk result (IsAsked J.opening self.old (Some (record { own = own; moment = moment; asker = asker; bytes = bytes.now; limit = limit })) self.new) }
        ensures told { IfOk result (λ what. Replies J.opening (last_at self.new) (record { own = own; moment = moment; asker = asker; bytes = bytes.now; limit = limit }) what answer.new.bytes.items answer.new.audit.items) }
        ensures untold { OnErr result ((self.new ≡ self.old) ⊎ IsAsked J.opening self.old (Some (record { own = own; moment = moment; asker = asker; bytes = bytes.now; limit = limit })) self.new) }
        ensures later { IsPast (last_at self.old) (last_at self.new) }
        ensures no_reply { OnErr result (answer.new.bytes.items ≡ []) }
        ensures no_line { OnErr result (answer.new.audit.items ≡ []) }
        ensures closed { IsErrOf result ViewFault.Closed → self.new ≡ self.old }
        ensures faults { IfErr result (λ e. (e ≡ ViewFault.NoMemory) ⊎ (e ≡ ViewFault.Closed)) }
    {
        let call = Call {
            own,
            moment,
            asker,
            bytes,
            limit,
        };
        match Heard::of(&call) {
            Some(heard) => self.hear(alloc, gate, Ok(&heard), answer),
            None => self.hear(alloc, gate, Err(&call), answer),
        }
    }

    /// Reads a message that asks for a change, with all that its texts say: so the writer is asked for what is left of it alone.
    pub fn read<'a>(&self, alloc: Global, heard: &Heard<'a>) -> Result<AskedChange<'a>, ViewFault>
        requires { is_change_function (function_in heard.now.request) ≡ true }
        ensures { IfOk result (IsAskedAt J.opening.site heard.now.call.now.bytes.now) }
    {
        Ok(read_heard(alloc, &self.site, heard)?)
    }

    /// Whether to answer these bytes may take long, by what is published now. It sees nothing. Where memory is wanting it answers no.
    pub fn would_take_long(&mut self, alloc: Global, own: Addr, bytes: &[u8]) -> bool
        ensures { self.new ≡ self.old }
    {
        let call = Call {
            own,
            moment: 0,
            asker: own,
            bytes,
            limit: 1_400,
        };
        let Some(heard) = Heard::of(&call) else {
            return false;
        };
        if heard.request.is_change() {
            return false;
        }
        let Ok(read) = asked(alloc, &heard) else {
            return false;
        };
        let reader = self.reader.take().unwrap();
        let (reader, is_long) = would_take_long(reader, &heard, &read);
        self.reader = Some(reader);
        is_long
    }

    /// Sees no less than the note from now on. It is an entry without an answer.
    pub fn learn(&mut self, note: &Note<J>) -> Result<(), ViewFault>
        ensures looked { (self.new ≡ self.old) ⊎ IsAsked J.opening self.old None self.new }
        ensures later { IsPast (last_at self.old) (last_at self.new) }
        ensures learnt { OnOk result (IsPast note.now (last_at self.new)) }
        ensures refused { IfErr result (λ e. e ≡ ViewFault.Closed) }
    {
        let reader = self.reader.take().unwrap();
        let (reader, learnt) = learnt(reader, &note.front);
        self.reader = Some(reader);
        learnt
    }
}

/// So many loops, that have seen nothing.
pub(crate) fn loops_of<J: Naming>(
    alloc: Global,
    from: &RuledFactory<J>,
    loops: usize,
    site: &Arc<Site>,
) -> Result<Vec<LoopView<J>>, ViewFault>
    requires { J.opening.site ≡ arc_value site.now }
    ensures count { IfOk result (λ v. vec_len v ≡ loops) }
    ensures loops { IfOk result (λ v. All (λ l. l ≡ []) v.items) }
    ensures faults { IfErr result (λ e. (e ≡ ViewFault.NoMemory) ⊎ (e ≡ ViewFault.NoPlace)) }
{
    let mut all = Vec::new(alloc);
    for place in 0..loops {
        let shared = Arc::try_clone(site)?;
        let Ok(reader) = from.reader() else {
            return Err(ViewFault::NoPlace);
        };
        let one = LoopView {
            reader: Some(reader),
            place,
            site: shared,
        };
        if all.push(one).is_err() {
            return Err(ViewFault::NoMemory);
        }
    }
    Ok(all)
}
