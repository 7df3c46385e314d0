//! Loops that are inside their entries at the same time, on two threads.
use crate::scene::{Scene, ask, call_of, print_whether};
use crate::words::message_of;
use addresses::Addr;
use history_log::Naming;
use published_view::{DirectoryWriter, Gate, LoopView, OpenGate, ViewFault};
use slp_answer::{Answer, Call, Sent, is_change};
use std::alloc::Global;
use std::io::{self, Write};
use std::sync::atomic::{AtomicBool, AtomicU64, Ordering};
use std::sync::{Mutex, Wait};
use std::thread::{Threads, join};
use std::time::Clock;

/// So often it is looked whether the other came.
const TURNS: u64 = 200_000_000;

/// So many questions are asked while a loop is held.
const QUESTIONS: u64 = 1_000;

// Waits until it is set. Tells whether it was.
fn is_set_in_time(flag: &AtomicBool) -> bool {
    for _ in 0..TURNS {
        if flag.load(Ordering::SeqCst) {
            return true;
        }
    }
    false
}

// Keeps the first loop inside its entry until the other has answered.
#[derive(Drop)]
struct Meeting {
    has_answered: AtomicBool,
    were_both_inside: AtomicBool,
}

impl Gate for Meeting {
    fn inside(&self, place: usize) {
        if place == 0 && is_set_in_time(&self.has_answered) {
            self.were_both_inside.store(true, Ordering::SeqCst);
        }
    }

    fn outside(&self, _place: usize) {}

    fn changing(&self) {}

    fn changed(&self) {}

    fn is_waited_for(&self) -> bool {
        false
    }
}

// What was seen of a loop that was held.
#[derive(Clone, Copy)]
struct Held {
    is_answered: bool,
    are_made: bool,
    is_first_published: bool,
    answered: u64,
    was_second_published: bool,
}

// What is asked of a loop that holds it inside its entry, and is asked of the other meanwhile.
#[derive(Drop)]
struct Hold<'a, J: Naming, R> {
    rt: &'a R,
    alloc: Global,
    question: Vec<u8>,
    moment: u32,
    asker: Addr,
    other: Mutex<Option<LoopView<J>>>,
    is_inside: AtomicBool,
    is_first_published: AtomicBool,
    is_second_begun: AtomicBool,
    is_second_published: AtomicBool,
    // What was seen from within the entry.
    answered: AtomicU64,
    was_second_published: AtomicBool,
}

impl<'a, J: Naming, R: Wait> Hold<'a, J, R> {
    // What is asked of both loops.
    fn call(&self) -> Call<'_> {
        call_of(self.moment, self.asker, self.question.as_slice())
    }

    // Asks the other loop, and counts the answers.
    fn ask_other(&self) {
        let mut other = self.other.lock(self.rt);
        if let Some(view) = &mut *other {
            for _ in 0..QUESTIONS {
                if is_answered(self.alloc, view, &OpenGate, &self.call()) {
                    self.answered.fetch_add(1, Ordering::SeqCst);
                }
            }
        }
    }
}

// Whether a loop answers with code 0.
fn is_answered<J: Naming, G: Gate>(
    alloc: Global,
    view: &mut LoopView<J>,
    gate: &G,
    question: &Call<'_>,
) -> bool {
    if is_change(question.bytes) {
        return false;
    }
    let mut answer = Answer::new(alloc);
    ask(alloc, view, gate, question, &mut answer) == Ok(Sent::Bytes(0))
}

// The same, and the other loop is let go on then.
fn is_answered_first<J: Naming>(
    alloc: Global,
    view: &mut LoopView<J>,
    meeting: &Meeting,
    question: &Call<'_>,
) -> bool {
    let is_answered = is_answered(alloc, view, meeting, question);
    meeting.has_answered.store(true, Ordering::SeqCst);
    is_answered
}

// The same of the loop that is held.
fn is_held_answered<J: Naming, R: Wait>(view: &mut LoopView<J>, hold: &Hold<'_, J, R>) -> bool {
    is_answered(hold.alloc, view, hold, &hold.call())
}

impl<'a, J: Naming, R: Wait> Gate for Hold<'a, J, R> {
    fn inside(&self, _place: usize) {
        self.is_inside.store(true, Ordering::SeqCst);
        if !is_set_in_time(&self.is_second_begun) {
            return;
        }
        self.ask_other();
        let is_published = self.is_second_published.load(Ordering::SeqCst);
        self.was_second_published
            .store(is_published, Ordering::SeqCst);
    }

    fn outside(&self, _place: usize) {}

    fn changing(&self) {}

    fn changed(&self) {}

    fn is_waited_for(&self) -> bool {
        false
    }
}

impl<'a, J: Naming, R: Wait> Hold<'a, J, R> {
    fn new(
        rt: &'a R,
        alloc: Global,
        question: &Call<'_>,
        bytes: Vec<u8>,
        other: LoopView<J>,
    ) -> Hold<'a, J, R> {
        Hold {
            rt,
            alloc,
            question: bytes,
            moment: question.moment,
            asker: question.asker,
            other: Mutex::new(Some(other)),
            is_inside: AtomicBool::new(false),
            is_first_published: AtomicBool::new(false),
            is_second_begun: AtomicBool::new(false),
            is_second_published: AtomicBool::new(false),
            answered: AtomicU64::new(0),
            was_second_published: AtomicBool::new(false),
        }
    }

    // What was seen, and the other loop.
    fn end(&self, is_answered: bool, are_made: bool) -> (Held, Option<LoopView<J>>) {
        let held = Held {
            is_answered,
            are_made,
            is_first_published: self.is_first_published.load(Ordering::SeqCst),
            answered: self.answered.load(Ordering::SeqCst),
            was_second_published: self.was_second_published.load(Ordering::SeqCst),
        };
        let mut other = self.other.lock(self.rt);
        (held, other.take())
    }
}

// Two changes, the first once a loop is inside its entry.
fn change_twice<J: Naming, R: Wait, Q: Wait + Drop>(
    hold: &Hold<'_, J, R>,
    writer: &mut DirectoryWriter<J, Q>,
    first: &Call<'_>,
    second: &Call<'_>,
) -> bool {
    if !is_set_in_time(&hold.is_inside) {
        return false;
    }
    let one = is_changed(hold.alloc, writer, first);
    hold.is_first_published.store(one, Ordering::SeqCst);
    hold.is_second_begun.store(true, Ordering::SeqCst);
    let two = is_changed(hold.alloc, writer, second);
    hold.is_second_published.store(two, Ordering::SeqCst);
    one && two
}

// Whether a change is made.
fn is_changed<J: Naming, Q: Wait + Drop>(
    alloc: Global,
    writer: &mut DirectoryWriter<J, Q>,
    change: &Call<'_>,
) -> bool {
    if !is_change(change.bytes) {
        return false;
    }
    let mut answer = Answer::new(alloc);
    let told = writer.change(
        alloc,
        change.moment,
        change.asker,
        change.bytes,
        &mut answer,
    );
    told == Ok(Sent::Bytes(0))
}

fn print_held(out: &mut Vec<u8>, held: Held) -> io::Result<()> {
    let Held {
        is_answered,
        are_made,
        is_first_published,
        answered,
        was_second_published,
    } = held;
    print_whether(out, "the held loop answered", is_answered)?;
    print_whether(out, "both changes were made", are_made)?;
    print_whether(
        out,
        "the first was published while it was held",
        is_first_published,
    )?;
    writeln!(out, "# answered meanwhile: {answered}")?;
    print_whether(
        out,
        "the second was published while it was held",
        was_second_published,
    )
}

impl<'r, J, R> Scene<'r, J, R>
where
    J: Naming + Send + Sync,
    R: Threads + Wait + Clock + Sync,
{
    // The first two loops.
    fn take_two(&mut self) -> Option<(LoopView<J>, LoopView<J>)> {
        let other = self.views.pop()?;
        let one = self.views.pop()?;
        Some((one, other))
    }

    // Their places are there.
    fn put_two(&mut self, one: LoopView<J>, other: LoopView<J>) {
        let _ = self.views.push(one);
        let _ = self.views.push(other);
    }

    // Whether both loops answered, and whether both were inside at once.
    fn meet(&mut self, question: &Call<'_>) -> Option<(bool, bool)> {
        let (mut one, mut other) = self.take_two()?;
        let meeting = Meeting {
            has_answered: AtomicBool::new(false),
            were_both_inside: AtomicBool::new(false),
        };
        let alloc = self.alloc;
        let (first, second) = join(
            self.rt,
            || is_answered(alloc, &mut one, &meeting, question),
            || is_answered_first(alloc, &mut other, &meeting, question),
        );
        self.put_two(one, other);
        Some((
            first && second,
            meeting.were_both_inside.load(Ordering::SeqCst),
        ))
    }

    /// Both loops answer, the first of them once the other has.
    pub(crate) fn ask_two_at_once(&mut self, text: &str, out: &mut Vec<u8>) -> io::Result<()> {
        let bytes = message_of(self.alloc, text)?;
        let question = self.call_now(bytes.as_slice());
        let Some((are_answered, were_both)) = self.meet(&question) else {
            return writeln!(out, "! loops");
        };
        print_whether(out, "both answered", are_answered)?;
        print_whether(out, "both were inside at once", were_both)
    }

    // What was seen while the first loop stayed inside its entry, and two changes were made.
    fn hold_one(&mut self, bytes: Vec<u8>, first: &Call<'_>, second: &Call<'_>) -> Option<Held> {
        let (mut one, other) = self.take_two()?;
        let alloc = self.alloc;
        let hold = Hold::new(self.rt, alloc, first, bytes, other);
        let writer = &mut self.writer;
        let (is_answered, are_made) = join(
            self.rt,
            || is_held_answered(&mut one, &hold),
            || change_twice(&hold, writer, first, second),
        );
        let (held, other) = hold.end(is_answered, are_made);
        if let Some(other) = other {
            self.put_two(one, other);
        }
        Some(held)
    }

    /// The first loop stays inside its entry while two changes are made: `QUESTION | CHANGE | CHANGE`.
    pub(crate) fn hold(&mut self, text: &str, out: &mut Vec<u8>) -> io::Result<()> {
        let (question, changes) = text.split_once(" | ").unwrap_or((text, ""));
        let (first, second) = changes.split_once(" | ").unwrap_or((changes, ""));
        let first = message_of(self.alloc, first)?;
        let second = message_of(self.alloc, second)?;
        let question = message_of(self.alloc, question)?;
        let first = self.call_now(first.as_slice());
        let second = self.call_now(second.as_slice());
        let Some(held) = self.hold_one(question, &first, &second) else {
            return writeln!(out, "! loops");
        };
        print_held(out, held)
    }
}
