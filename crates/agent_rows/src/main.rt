//! Runs rows against the server and the client, in scenes that a line `---` parts. The rows before a line `start` or `start_loops`
//! prepare a scene; those after it meet an agent, whose input ends with its scene. What each row brings is printed after it.
//! `CONTRIBUTING.md` has the rows.
#![tactic(auto)]

use agent_program::{Ends, agent_run, start_loops};
use agent_scenes::{CONFIG, Meeting, PATIENT, Props, Scene, open_terminal, words_of};
use published_view::{CountingGate, Gate};
use std::alloc::Global;
use std::io::{self, Read, Write};
use std::net::Net;
use std::rt::Files;
use std::sync::{Mutex, Wait};
use std::thread::{Threads, join};
use std::time::Clock;

const END: &str = "---\n";

const START: &str = "\nstart";

// The gate of an agent with a meeting.
#[derive(Drop)]
struct MeetingGate<'x> {
    counting: CountingGate,
    meeting: &'x Meeting,
}

impl<'x> Gate for MeetingGate<'x> {
    fn inside(&self, place: usize) {
        self.counting.inside(place);
        self.meeting.hold(place);
    }

    fn outside(&self, place: usize) {
        self.counting.outside(place);
    }

    fn changing(&self) {
        self.counting.changing();
    }

    fn changed(&self) {
        self.counting.changed();
    }

    fn is_waited_for(&self) -> bool {
        self.counting.is_waited_for()
    }
}

// The scenes on standard input.
fn scenes(rt: &HostRuntime) -> io::Result<String> {
    let mut text = String::new(rt.alloc());
    rt.reader().read_to_string(&mut text)?;
    Ok(text)
}

// What stands before the row that starts an agent, what follows its word `start`, and the rows after it.
fn cut_at_start(text: &str) -> Option<(&str, &str, &str)> {
    let (before, after) = text.split_once(START)?;
    let (rest, rows) = after.split_once('\n')?;
    Some((before, rest, rows))
}

// Runs an agent by its loops, by a clock that is handed in, with the gate of the props.
fn run_by_loops<H, I, W>(
    handed: &H,
    alloc: Global,
    props: &Props,
    reader: &mut I,
    writer: &mut W,
) -> io::Result<u8>
where
    H: Threads + Wait + Net + Clock + Files + Sync,
    I: Read + Send,
    W: Write + Send,
{
    let gate = MeetingGate {
        counting: CountingGate::new(),
        meeting: &props.meeting,
    };
    let (input, output) = (Mutex::new(reader), Mutex::new(writer));
    let ends = Ends {
        input: &input,
        output: &output,
        gate: &gate,
    };
    Ok(start_loops(handed, alloc, CONFIG, &ends))
}

// Runs an agent by its words.
fn run_by_words<R, I, W>(rt: &R, alloc: Global, input: &mut I, lines: &mut W) -> io::Result<u8>
where
    R: Threads + Wait + Net + Clock + Files + Sync,
    I: Read + Send,
    W: Write + Send,
{
    let words = words_of(alloc, CONFIG)?;
    Ok(agent_run(rt, alloc, words.as_slice(), input, lines))
}

fn main(rt: HostRuntime) -> io::Result<()> {
    let alloc = rt.alloc();
    let text = scenes(&rt)?;
    let mut out = Vec::new(alloc);
    let mut patience = PATIENT;
    for text in text.split(END) {
        let start = cut_at_start(text);
        let props = Props::new(matches!(start, Some((_, "_loops", _))));
        let (handed, held) = (props.handed(&rt), props.held(&rt));
        let (mut input, mut lines, ends) = open_terminal(&rt, alloc)?;
        let mut scene = Scene::new(&rt, alloc, &props, patience, ends)?;
        let status = match start {
            Some((before, rest, rows)) => {
                scene.begin(before, &mut out);
                let (status, ()) = join(
                    &rt,
                    || {
                        if props.is_by_loops {
                            run_by_loops(&handed, alloc, &props, &mut input, &mut lines)
                        } else {
                            run_by_words(&held, alloc, &mut input, &mut lines)
                        }
                    },
                    || scene.meet(rest, rows, &mut out),
                );
                Some(status?)
            }
            None => {
                scene.begin(text, &mut out);
                None
            }
        };
        drop(lines);
        patience = scene.end(status, &mut out)?;
        out.extend_from_slice(END.as_bytes())?;
        io::writer(&rt).write_all(out.as_slice())?;
        out.clear();
    }
    Ok(())
}
