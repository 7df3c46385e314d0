//! A writer, its loops, and what the rows do with them.
ghost use Rattle.std.specs.Prelude.{◌≡◌, false};
ghost use Rattle.directory_questions.specs.Answers.{is_change_of};

use crate::opening::{Plain, rules_of};
use crate::words::{address_of, cut, message_of, number_of};
use addresses::Addr;
use history_log::Naming;
use published_view::{DirectoryWriter, Gate, LoopView, Note, OpenGate, ViewFault};
use slp_answer::{Answer, Call, Sent, is_change, step};
use slp_text::NoMemory;
use std::alloc::Global;
use std::io::{self, Write};
use std::sync::{Arc, Wait};
use std::thread::Threads;
use std::time::Clock;

/// Where the messages come to.
pub(crate) const OWN: Addr = Addr(0x7f00_0001);

/// The bytes of a datagram.
pub(crate) const DATAGRAM: usize = 1_400;

/// What a scene has.
#[derive(Drop)]
pub(crate) struct Scene<'r, J: Naming, R: Wait> {
    pub rt: &'r R,
    pub alloc: Global,
    pub writer: DirectoryWriter<J, &'r R>,
    pub views: Vec<LoopView<J>>,
    pub plain: Box<Plain>,
    // What was answered of what is published, and by the directory of its own.
    pub answer: Answer,
    pub plain_answer: Answer,
    note: Option<Note<J>>,
    place: usize,
    moment: u32,
    asker: Addr,
    // The lines of a block that has begun.
    block: Option<String>,
    // Nothing is printed of messages.
    is_quiet: bool,
    // How many changes the directory of its own was asked for.
    changes: u64,
}

/// Prints whether it is so.
pub(crate) fn print_whether(out: &mut Vec<u8>, name: &str, is_so: bool) -> io::Result<()> {
    let word = if is_so { "yes" } else { "no" };
    writeln!(out, "# {name}: {word}")
}

/// Prints the bytes of a reply, or that there are none.
pub(crate) fn print_reply<W: Write>(out: &mut W, reply: &[u8]) -> io::Result<()> {
    out.write_all(b"> ")?;
    if reply.is_empty() {
        out.write_all(b"-")?;
    }
    for byte in reply {
        write!(out, "{byte:02x}")?;
    }
    out.write_all(b"\n")
}

// Prints an answer, the bytes of the reply and its line, or its fault, which is printed also where nothing else is.
fn print_answer<W: Write>(
    out: &mut W,
    told: Result<Sent, u8>,
    answer: &Answer,
    is_quiet: bool,
) -> io::Result<()> {
    if let Err(fault) = told {
        return writeln!(out, "! {fault}");
    }
    if is_quiet {
        return Ok(());
    }
    print_reply(out, answer.bytes.as_slice())?;
    out.write_all(answer.audit.as_slice())
}

/// What a loop answers to what asks for no change.
pub(crate) fn ask<J: Naming, G: Gate>(
    alloc: Global,
    view: &mut LoopView<J>,
    gate: &G,
    question: &Call<'_>,
    answer: &mut Answer,
) -> Result<Sent, ViewFault>
    requires { is_change_of question.now.bytes.now ≡ false }
{
    view.answer(
        alloc,
        gate,
        OWN,
        question.moment,
        question.asker,
        question.bytes,
        DATAGRAM,
        answer,
    )
}

/// Bytes that come as a datagram, when they come, and from whom.
pub(crate) fn call_of<'a>(moment: u32, asker: Addr, bytes: &'a [u8]) -> Call<'a> {
    Call {
        own: OWN,
        moment,
        asker,
        bytes,
        limit: DATAGRAM,
    }
}

impl<'r, J: Naming, R: Wait> Scene<'r, J, R> {
    pub(crate) fn new(
        rt: &'r R,
        alloc: Global,
        writer: DirectoryWriter<J, &'r R>,
        views: Vec<LoopView<J>>,
        plain: Box<Plain>,
    ) -> Scene<'r, J, R> {
        Scene {
            rt,
            alloc,
            writer,
            views,
            plain,
            answer: Answer::new(alloc),
            plain_answer: Answer::new(alloc),
            note: None,
            place: 0,
            moment: 0,
            asker: Addr(0x0a00_0001),
            block: None,
            is_quiet: false,
            changes: 0,
        }
    }

    /// The loop at this place, from 0 on, is asked from now on.
    pub(crate) fn turn_to(&mut self, place: usize) {
        self.place = place;
    }

    /// Bytes that come now.
    pub(crate) fn call_now<'a>(&self, bytes: &'a [u8]) -> Call<'a> {
        call_of(self.moment, self.asker, bytes)
    }

    /// Bytes that come to the agent: a change goes to the writer, a question to the loop.
    pub(crate) fn send(&mut self, call: &Call<'_>) -> Result<Sent, u8> {
        if is_change(call.bytes) {
            return match self.writer.change(
                self.alloc,
                call.moment,
                call.asker,
                call.bytes,
                &mut self.answer,
            ) {
                Ok(sent) => Ok(sent),
                Err(fault) => Err(fault as u8),
            };
        }
        let Some(view) = self.views.get_mut(self.place) else {
            return Err(0);
        };
        match ask(self.alloc, view, &OpenGate, call, &mut self.answer) {
            Ok(sent) => Ok(sent),
            Err(fault) => Err(fault as u8),
        }
    }

    /// The same bytes, as one directory answers them.
    pub(crate) fn step(&mut self, call: &Call<'_>) -> Result<Sent, u8> {
        // It costs what the agent pays to tell a change from a question.
        self.changes = self
            .changes
            .saturating_add(u64::from(is_change(call.bytes)));
        let told = step(self.alloc, &mut *self.plain, call, &mut self.plain_answer);
        match told {
            Ok(sent) => Ok(sent),
            Err(NoMemory) => Err(2),
        }
    }
}

impl<'r, J: Naming, R: Wait> Scene<'r, J, R> {
    /// The operator sweeps, and what is published and the directory of its own are swept.
    pub(crate) fn sweep(&mut self, moment: u32) -> Result<(), ViewFault> {
        self.writer.sweep(moment)?;
        self.plain.sweep(moment);
        Ok(())
    }

    /// The operator's new rules, for both.
    pub(crate) fn reload(&mut self, moment: u32, text: &str) -> Result<usize, ViewFault> {
        let rules = rules_of(self.alloc, text)?;
        let number = rules.len();
        self.writer.reload(self.alloc, moment, rules)?;
        let rules = Arc::new(self.alloc, rules_of(self.alloc, text)?)?;
        self.plain.reload(moment, rules);
        Ok(number)
    }

    /// The writer tells how far it is.
    pub(crate) fn note(&mut self) -> Result<(), ViewFault> {
        self.note = Some(self.writer.note()?);
        Ok(())
    }

    /// A loop learns what the writer told last.
    pub(crate) fn learn(&mut self, place: usize) -> Result<(), ViewFault> {
        if let (Some(note), Some(view)) = (&self.note, self.views.get_mut(place)) {
            view.learn(note)?;
        }
        Ok(())
    }
}

// Prints what was done, or its fault.
fn print_done<W: Write>(out: &mut W, done: Result<(), ViewFault>, name: &str) -> io::Result<()> {
    match done {
        Ok(()) => writeln!(out, "# {name}"),
        Err(fault) => writeln!(out, "! {}", fault as u8),
    }
}

impl<'r, J, R> Scene<'r, J, R>
where
    J: Naming + Send + Sync,
    R: Threads + Wait + Clock + Sync,
{
    // A line of a block of rules.
    fn read_line(&mut self, mut block: String, line: &str, out: &mut Vec<u8>) -> io::Result<()> {
        if line != "." {
            block.push_str(line)?;
            block.push_str("\n")?;
            self.block = Some(block);
            return Ok(());
        }
        match self.reload(self.moment, block.as_str()) {
            Ok(number) => writeln!(out, "# rules {number}"),
            Err(fault) => writeln!(out, "! {}", fault as u8),
        }
    }

    // A row that prints nothing, where it is one.
    fn set(&mut self, word: &str, rest: &str, out: &mut Vec<u8>) -> io::Result<()> {
        match word {
            "loop" => self.place = (number_of(rest, 8) as usize).saturating_sub(1),
            "at" => self.moment = number_of(rest, u32::MAX),
            "from" => self.asker = address_of(rest),
            "rules" => self.block = Some(String::new(self.alloc)),
            "quiet" => self.is_quiet = true,
            "#" | "" => {}
            _ => writeln!(out, "? {word}")?,
        }
        Ok(())
    }

    // A row with a message.
    fn tell(&mut self, word: &str, rest: &str, out: &mut Vec<u8>) -> io::Result<()> {
        let bytes = message_of(self.alloc, rest)?;
        let call = self.call_now(bytes.as_slice());
        let is_quiet = self.is_quiet;
        match word {
            "send" => {
                let told = self.send(&call);
                print_answer(out, told, &self.answer, is_quiet)
            }
            "step" => {
                let told = self.step(&call);
                print_answer(out, told, &self.plain_answer, is_quiet)
            }
            _ => Ok(()),
        }
    }

    fn take_row(&mut self, line: &str, out: &mut Vec<u8>) -> io::Result<()> {
        let (word, rest) = cut(line);
        match word {
            "send" | "step" | "read" => self.tell(word, rest, out),
            "sweep" => {
                let done = self.sweep(self.moment);
                print_done(out, done, "sweep")
            }
            "note" => {
                let done = self.note();
                print_done(out, done, "note")
            }
            "learn" => {
                let done = self.learn(self.place);
                print_done(out, done, "learn")
            }
            "random" => {
                let times = number_of(rest, 1_000_000);
                let alike = self.take_random(times)?;
                writeln!(out, "# {alike} of {times} alike")
            }
            "two_entries_at_once" => self.ask_two_at_once(rest, out),
            "held" => self.hold(rest, out),
            _ => self.set(word, rest, out),
        }
    }

    /// Runs rows, and prints what each brings.
    pub(crate) fn run(&mut self, rows: &str, out: &mut Vec<u8>) -> io::Result<()> {
        writeln!(out, "# open {}", self.views.len())?;
        for line in rows.lines() {
            match self.block.take() {
                Some(block) => self.read_line(block, line, out)?,
                None => self.take_row(line, out)?,
            }
        }
        Ok(())
    }
}
