//! The desk: what serves the messages of one address.
ghost use Rattle.std.specs.Prelude.{◌≡◌, ◌⊎◌, ◌↔◌, [], true, false, None, Some, slice_get, IfOk, IsTrue, OnErr, OnOk};
ghost use Rattle.directory_questions.specs.Calls.{call_in};
ghost use Rattle.directory_questions.specs.Requests.{function_in, is_change_function};
ghost use Rattle.directory_questions.specs.Verdicts.{IsLegal};
ghost use Rattle.history_log.specs.Pasts.{IsPast};
ghost use Rattle.directory_runs.specs.Changes.{IsChanged};
ghost use Rattle.slp_answer.specs.AskedChanges.{IsAskedAt};
ghost use Rattle.published_view.specs.Traces.{last_at, IsAsked};
ghost use Rattle.slp_loops.specs.Desks.{AsksForChange, heard_lent, line_told, IsOutcomeOf, IsServedChange};
ghost use Rattle.loop_log.specs.Logging.{Lined};

use addresses::Addr;
use loop_log::{Lines, Log, Queue, QueuedOutput, SharedOutput};
use published_view::{DirectoryWriter, Gate, LoopView, Naming, Note, ViewFault};
use slp_answer::{Answer, AskedChange, Call, Heard, Sent, refused_line_of};
use slp_messages::function::{ATTRIBUTE_REQUEST, REGISTRATION, WITHDRAWAL};
use slp_sockets::{Moments, Serve};
use slp_text::NoMemory;
use std::alloc::Global;
use std::io::Write;
use std::sync::{Mutex, Wait};

/// A message of no more bytes that is not about attributes is not timed.
const SHORT: usize = 128;

/// What the threads of a server share: the writer, what is called inside each entry, the queue in which lines wait, and the output to which they are written.
#[derive(Drop)]
pub struct Shared<'r, 's, J: Naming, R: Wait, G: Gate, W: Write> {
    pub rt: &'r R,
    pub alloc: Global,
    pub writer: &'s Mutex<DirectoryWriter<J, &'r R>>,
    pub gate: &'s G,
    pub queue: &'s Queue,
    pub output: &'s Mutex<W>,
}

impl<'r, 's, J: Naming, R: Wait, G: Gate, W: Write> Shared<'r, 's, J, R, G, W> {
    /// The log of one place of the queue.
    pub fn log(&self, place: usize) -> QueuedOutput<'r, 's, R, W> {
        QueuedOutput {
            queue: self.queue,
            place,
            output: SharedOutput {
                rt: self.rt,
                output: self.output,
            },
        }
    }
}

/// Serves messages: questions from what is published, without waiting for it, and changes under the writer's lock. The line of
/// each that is judged goes to its log, whole and once: it waits there until the desk settles.
pub struct Desk<'r, 's, J: Naming, R: Wait, M: Moments + Drop, G: Gate, L: Log + Drop> {
    rt: &'r R,
    alloc: Global,
    view: LoopView<J>,
    writer: &'s Mutex<DirectoryWriter<J, &'r R>>,
    gate: &'s G,
    lines: Lines<L>,
    /// The address of the directory to which the messages come.
    pub own: Addr,
    pub moments: M,
    /// Whether this desk sees what the last change that it answered published, and all that was published before. At first it is set.
    pub told: bool,
    /// Whether there is a loop beside this one, to which it leaves what would take long. At first there is none.
    pub has_other: bool,
}

impl<'r, 's, J: Naming, R: Wait, M: Moments + Drop, G: Gate, L: Log + Drop> Drop
    for Desk<'r, 's, J, R, M, G, L> {
    fn drop(self) {
        let Desk {
            rt: _,
            alloc: _,
            view: _,
            writer: _,
            gate: _,
            lines: _,
            own: _,
            moments: _,
            told: _,
            has_other: _,
        } = self;
    }
}

// Whether a message with which these bytes begin asks for a change, by the function in its header.
fn asks_for_change(bytes: &[u8]) -> bool
    ensures { IsTrue result ↔ AsksForChange bytes.now }
{
    matches!(bytes.get(1), Some(&(REGISTRATION | WITHDRAWAL)))
}

// The same of attributes.
fn asks_for_attributes(bytes: &[u8]) -> bool
    ensures { IsTrue result ↔ (slice_get bytes.now 1 ≡ Some 6) }
{
    bytes.get(1) == Some(&ATTRIBUTE_REQUEST)
}

// What came of a change, and how far its writer then was.
fn change_and_note<J: Naming, Q: Wait + Drop>(
    writer: &mut DirectoryWriter<J, Q>,
    alloc: Global,
    heard: &Heard<'_>,
    asked: AskedChange<'_>,
    answer: &mut Answer,
) -> Result<(Sent, Result<Note<J>, ViewFault>), ViewFault>
    requires change { is_change_function (function_in heard.now.request) ≡ true }
    requires asked { IsAskedAt J.opening.site heard.now.call.now.bytes.now asked }
    ensures made { IfOk result (λ p. IsChanged J.opening writer.old.history heard.now.call.now.moment heard.now.call.now.asker heard.now.call.now.bytes.now p.0 answer.new.bytes.items answer.new.audit.items writer.new.history) }
    ensures legal { OnOk result (IsLegal J.opening writer.new.history) }
    ensures noted { IfOk result (λ p. IfOk p.1 (λ n. n ≡ writer.new.history)) }
{
    let sent = writer.hear(alloc, heard, asked, answer)?;
    Ok((sent, writer.note()))
}

impl<'r, 's, J: Naming, R: Wait, M: Moments + Drop, G: Gate, W: Write> Desk<
    'r,
    's,
    J,
    R,
    M,
    G,
    QueuedOutput<'r, 's, R, W>,
> {
    /// A desk for messages that come to an address of the directory, whose lines have a place in the queue. Takes no memory.
    pub fn new(
        view: LoopView<J>,
        shared: &Shared<'r, 's, J, R, G, W>,
        own: Addr,
        moments: M,
        place: usize,
    ) -> Desk<'r, 's, J, R, M, G, QueuedOutput<'r, 's, R, W>>
        ensures own { result.own ≡ own }
        ensures moments { result.moments ≡ moments }
        ensures view { result.view ≡ view }
        ensures told { result.told ≡ true }
        ensures alone { result.has_other ≡ false }
        ensures settled { result.lines.waiting ≡ [] }
    {
        Desk {
            rt: shared.rt,
            alloc: shared.alloc,
            view,
            writer: shared.writer,
            gate: shared.gate,
            lines: Lines::new(shared.alloc, shared.log(place)),
            own,
            moments,
            told: true,
            has_other: false,
        }
    }
}

impl<'r, 's, J: Naming, R: Wait, M: Moments + Drop, G: Gate, L: Log + Drop> Desk<
    'r,
    's,
    J,
    R,
    M,
    G,
    L,
> {
    // Reads a change, has the writer make it, gives its lock back, and then sees what it published.
    fn change(&mut self, heard: &Heard<'_>, answer: &mut Answer) -> Result<Sent, ViewFault>
        requires { is_change_function (function_in heard.now.request) ≡ true }
        ensures later { IsPast (last_at self.old.view) (last_at self.new.view) }
        ensures looked { (self.new.view ≡ self.old.view) ⊎ IsAsked J.opening self.old.view None self.new.view }
        ensures served { IfOk result (λ what. IsServedChange J.opening (call_in heard.now.call.now) what answer.new self.new.told (last_at self.new.view)) }
        ensures refused { OnErr result (self.new.told ≡ self.old.told) }
        ensures kept { self.new ≡ record self.old { view = self.new.view; told = self.new.told } }
    {
        let asked = self.view.read(self.alloc, heard)?;
        let mut writer = self.writer.lock(self.rt);
        self.gate.changing();
        let changed = change_and_note(&mut *writer, self.alloc, heard, asked, answer);
        self.gate.changed();
        drop(writer);
        let (sent, note) = changed?;
        self.told = match note {
            Ok(note) => self.view.learn(&note).is_ok(),
            Err(_) => false,
        };
        Ok(sent)
    }

    // Has the line of a message wait: that of its answer, or of a refusal. Of what is unheard there is none.
    fn tell(
        &mut self,
        told: Result<Sent, ViewFault>,
        heard: Option<&Heard<'_>>,
        answer: &Answer,
    ) -> Result<Sent, NoMemory>
        ensures told { IsOutcomeOf told result }
        ensures lined { Lined L.writes self.old.lines (line_told (heard_lent heard.entry) told answer.now) self.new.lines }
        ensures kept { self.new ≡ record self.old { lines = self.new.lines } }
    {
        match told {
            Ok(sent) => {
                self.lines.push(answer.audit.as_slice());
                Ok(sent)
            }
            Err(_) => {
                if let Some(heard) = heard {
                    let line = refused_line_of(heard);
                    self.lines.push(line.as_slice());
                }
                Err(NoMemory)
            }
        }
    }
}

impl<'r, 's, J: Naming, R: Wait, M: Moments + Drop, G: Gate, L: Log + Drop> Serve
    for Desk<'r, 's, J, R, M, G, L> {
    ghost use Rattle.std.specs.Prelude.{◌≡◌};
    ghost use Rattle.slp_loops.specs.Desks.{AsksForChange, DeskSteps, MayLast};
    ghost use Rattle.loop_log.specs.Logging.{IsOut};

    ghost manner = { record {
      steps = λ before asker message limit outcome answer after. DeskSteps J.opening M.may L.writes
          (record { own = before.own; moments = before.moments; view = before.view; told = before.told; lines = before.lines })
          asker message limit outcome answer
          (record { own = after.own; moments = after.moments; view = after.view; told = after.told; lines = after.lines });
      settles = λ before after. (after ≡ record before { lines = after.lines }) × IsOut L.writes before.lines after.lines;
      may_wait = AsksForChange;
      may_last = MayLast;
    } };

    // A change waits where its publish would have to wait for a loop that is inside. A question waits for nothing.
    fn waits(&self, bytes: &[u8]) -> bool {
        asks_for_change(bytes) && self.gate.is_waited_for()
    }

    fn may_last(&self, message: &[u8]) -> bool {
        message.len() > SHORT || asks_for_attributes(message)
    }

    fn is_long(&mut self, message: &[u8]) -> bool {
        self.has_other
            && self.may_last(message)
            && self.view.would_take_long(self.alloc, self.own, message)
    }

    fn micros(&self) -> u64 {
        self.moments.micros()
    }

    fn serve(
        &mut self,
        asker: Addr,
        message: &[u8],
        limit: usize,
        answer: &mut Answer,
    ) -> Result<Sent, NoMemory> {
        let call = Call {
            own: self.own,
            moment: self.moments.now(),
            asker,
            bytes: message,
            limit,
        };
        let Some(heard) = Heard::of(&call) else {
            let told = self.view.hear(self.alloc, self.gate, Err(&call), answer);
            return self.tell(told, None, answer);
        };
        if heard.request.is_change() {
            let told = self.change(&heard, answer);
            return self.tell(told, Some(&heard), answer);
        }
        let told = self.view.hear(self.alloc, self.gate, Ok(&heard), answer);
        self.tell(told, Some(&heard), answer)
    }

    fn settle(&mut self) {
        self.lines.settle();
    }
}
