//! Rows that go through one desk, and a sweeper beside it.
use crate::scene::{DATAGRAM, OWN, print_reply, print_whether};
use crate::words::{address_of, cut, message_of, number_of};
use addresses::Addr;
use expiry_sweep::{Schedule, Sweeper};
use published_view::{DirectoryWriter, LoopView, Naming, OpenGate};
use slp_answer::Answer;
use slp_loops::{Desk, Moments, Queue, QueuedOutput, Serve, Shared};
use std::alloc::Global;
use std::io::{self, Write};
use std::sync::{Mutex, Wait};

/// A clock that stands.
#[derive(Clone, Copy)]
struct Still(u32);

impl Moments for Still {
    ghost use Rattle.std.specs.Prelude.{◌≡◌};

    ghost may = { λ before moment after. (moment ≡ before.0) × (after ≡ before) };

    fn now(&mut self) -> u32 {
        self.0
    }

    fn micros(&self) -> u64 {
        0
    }
}

/// What a desk and a sweeper share.
#[derive(Drop)]
struct Held<'r, J: Naming, R: Wait> {
    writer: Mutex<DirectoryWriter<J, &'r R>>,
    // It has no place: each line is written at once.
    queue: Queue,
    output: Mutex<Vec<u8>>,
}

/// What a scene at a desk has.
#[derive(Drop)]
struct Counter<'r, 's, J: Naming, R: Wait> {
    rt: &'r R,
    alloc: Global,
    held: &'s Held<'r, J, R>,
    desk: Desk<'r, 's, J, R, Still, OpenGate, QueuedOutput<'r, 's, R, Vec<u8>>>,
    sweeper: Sweeper,
    asker: Addr,
    answer: Answer,
}

impl<'r, 's, J: Naming, R: Wait> Counter<'r, 's, J, R> {
    fn new(
        rt: &'r R,
        alloc: Global,
        view: LoopView<J>,
        held: &'s Held<'r, J, R>,
    ) -> Counter<'r, 's, J, R> {
        let shared = Shared {
            rt,
            alloc,
            writer: &held.writer,
            gate: &OpenGate,
            queue: &held.queue,
            output: &held.output,
        };
        Counter {
            rt,
            alloc,
            held,
            desk: Desk::new(view, &shared, OWN, Still(0), 0),
            sweeper: Sweeper::new(Schedule::new(u32::MAX, 0)),
            asker: Addr(0x0a00_0001),
            answer: Answer::new(alloc),
        }
    }

    // Prints the reply to a message, the line that the desk wrote, and whether it was told of its last change.
    fn send(&mut self, text: &str, out: &mut Vec<u8>) -> io::Result<()> {
        let message = message_of(self.alloc, text)?;
        let told = self
            .desk
            .serve(self.asker, message.as_slice(), DATAGRAM, &mut self.answer);
        if told.is_err() {
            return writeln!(out, "! 2");
        }
        print_reply(out, self.answer.bytes.as_slice())?;
        self.desk.settle();
        let mut output = self.held.output.lock(self.rt);
        out.write_all(output.as_slice())?;
        output.clear();
        drop(output);
        print_whether(out, "told", self.desk.told)
    }

    // Turns the sweeper, and prints whether it swept.
    fn turn(&mut self, now: u32, out: &mut Vec<u8>) -> io::Result<()> {
        match self.sweeper.turn(self.rt, now, &self.held.writer) {
            Ok(is_swept) => print_whether(out, "swept", is_swept),
            Err(fault) => writeln!(out, "! {}", fault as u8),
        }
    }

    fn take_row(&mut self, line: &str, out: &mut Vec<u8>) -> io::Result<()> {
        let (word, rest) = cut(line);
        let number = number_of(rest, u32::MAX);
        match word {
            "send" => return self.send(rest, out),
            "turn" => return self.turn(number, out),
            "at" => self.desk.moments = Still(number),
            "from" => self.asker = address_of(rest),
            "sweeper" => self.sweeper = Sweeper::new(Schedule::new(number, 0)),
            "#" | "" => {}
            _ => return writeln!(out, "? {word}"),
        }
        Ok(())
    }

    fn run(&mut self, rows: &str, out: &mut Vec<u8>) -> io::Result<()> {
        writeln!(out, "# desk")?;
        for line in rows.lines() {
            self.take_row(line, out)?;
        }
        Ok(())
    }
}

/// Runs rows through a desk with the last of some loops, and prints what each brings.
pub(crate) fn run_desk<J: Naming, R: Wait>(
    rt: &R,
    alloc: Global,
    (writer, mut views): (DirectoryWriter<J, &R>, Vec<LoopView<J>>),
    rows: &str,
    out: &mut Vec<u8>,
) -> io::Result<()> {
    let Ok(queue) = Queue::new(alloc, 0) else {
        return writeln!(out, "! memory");
    };
    let held = Held {
        writer: Mutex::new(writer),
        queue,
        output: Mutex::new(Vec::new(alloc)),
    };
    let Some(view) = views.pop() else {
        return writeln!(out, "! loops");
    };
    let mut counter = Counter::new(rt, alloc, view, &held);
    counter.run(rows, out)
}
