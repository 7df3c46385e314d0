//! A directory that is published, of which calls find no memory.
ghost use Rattle.std.specs.Prelude.{◌≡◌};
ghost use Rattle.std.specs.Arc.{arc_value};

use crate::assertion::assert_holds;
use crate::refusals::hoard::Hoard;
use crate::refusals::messages::{
    ADVERT, AGENTS, ATTRIBUTES, BOTH_TAGS, FOUND, NOTHING, ONE_TAG, ONE_TYPE, REGISTERED,
    REGISTRATION_WITH_TAGS, REQUEST, TYPES, UPDATE, UPDATED_TAGS, WITHDRAWAL, WITHDRAWAL_OF_TAG,
    WITHDRAWN, bytes_of,
};
use crate::refusals::site::{CLOSED, OPEN, rules_of, site};
use access_rules::Rules;
use addresses::Addr;
use directory_judge::Site;
use published_view::{DirectoryWriter, LoopView, Naming, Note, OpenGate, Opened, ViewFault, open};
use slp_answer::{Answer, is_change};
use slp_text::NoMemory;
use std::alloc::Global;
use std::marker::Brand;
use std::sync::{Arc, Wait};

const OWN: Addr = Addr(0x7f00_0001);

const ASKER: Addr = Addr(0x0a00_0001);

#[derive(Clone, Copy, PartialEq, Eq)]
enum Deed {
    // A message: a change goes to the writer, a question to the loop.
    Send,
    // Rules.
    Reload,
    // A sweep after all lifetimes.
    Sweep,
    // The writer's note, and what the loop learns of it.
    Note,
    Learn,
}

// What is done, at which loop, with which message or rules; the digits of the reply; and whether it takes memory.
type Row = (Deed, usize, &'static str, &'static str, bool);

static ROWS: [Row; 32] = [
    (Deed::Send, 0, REQUEST, NOTHING, true),
    (Deed::Send, 0, REGISTRATION_WITH_TAGS, REGISTERED, true),
    (Deed::Note, 0, "", "", false),
    (Deed::Learn, 0, "", "", false),
    (Deed::Send, 0, REQUEST, FOUND, true),
    (Deed::Learn, 1, "", "", false),
    (Deed::Send, 1, REQUEST, FOUND, true),
    (Deed::Send, 1, ATTRIBUTES, BOTH_TAGS, true),
    (Deed::Send, 1, TYPES, ONE_TYPE, true),
    (Deed::Send, 1, AGENTS, ADVERT, true),
    (Deed::Send, 0, UPDATE, REGISTERED, true),
    (Deed::Note, 0, "", "", false),
    (Deed::Learn, 0, "", "", false),
    (Deed::Send, 0, ATTRIBUTES, UPDATED_TAGS, true),
    (Deed::Send, 0, WITHDRAWAL_OF_TAG, WITHDRAWN, true),
    (Deed::Note, 0, "", "", false),
    (Deed::Learn, 0, "", "", false),
    (Deed::Send, 0, ATTRIBUTES, ONE_TAG, true),
    (Deed::Reload, 0, CLOSED, "", true),
    (Deed::Note, 0, "", "", false),
    (Deed::Learn, 0, "", "", false),
    (Deed::Send, 0, REQUEST, NOTHING, true),
    (Deed::Reload, 0, OPEN, "", true),
    (Deed::Note, 0, "", "", false),
    (Deed::Learn, 0, "", "", false),
    (Deed::Send, 0, REQUEST, FOUND, true),
    (Deed::Send, 0, WITHDRAWAL, WITHDRAWN, true),
    (Deed::Send, 0, REGISTRATION_WITH_TAGS, REGISTERED, true),
    (Deed::Sweep, 0, "", "", false),
    (Deed::Note, 0, "", "", false),
    (Deed::Learn, 0, "", "", false),
    (Deed::Send, 0, REQUEST, NOTHING, true),
];

// How rows ended.
#[derive(Clone, Copy, PartialEq, Eq)]
enum Ending {
    // As they have to.
    Well,
    // A publish was refused, and the writer is shut. Its loops go on.
    Shut,
    // The opening was refused.
    Unopened,
    // At this row otherwise.
    Wrong(usize),
}

// What a row needs beside the scene. Rules are lost where they are refused.
#[derive(Drop)]
struct Parts {
    bytes: Vec<u8>,
    rules: Option<Rules>,
}

fn parts_of(alloc: Global, row: &Row) -> Result<Parts, NoMemory> {
    let (deed, _, text, _, _) = *row;
    let mut parts = Parts {
        bytes: Vec::new(alloc),
        rules: None,
    };
    match deed {
        Deed::Send => parts.bytes = bytes_of(alloc, text)?,
        Deed::Reload => parts.rules = Some(rules_of(alloc, text)?),
        Deed::Sweep | Deed::Note | Deed::Learn => {}
    }
    Ok(parts)
}

// A writer, its loops, its last note, and the last answer.
#[derive(Drop)]
struct Scene<'r, J: Naming, R: Wait> {
    alloc: Global,
    writer: DirectoryWriter<J, &'r R>,
    views: Vec<LoopView<J>>,
    note: Option<Note<J>>,
    answer: Answer,
}

impl<'r, J: Naming, R: Wait> Scene<'r, J, R> {
    fn send(&mut self, place: usize, bytes: &[u8]) -> Result<(), ViewFault> {
        let answer = &mut self.answer;
        if is_change(bytes) {
            self.writer.change(self.alloc, 0, ASKER, bytes, answer)?;
            return Ok(());
        }
        let Some(view) = self.views.get_mut(place) else {
            return Err(ViewFault::NoPlace);
        };
        view.answer(self.alloc, &OpenGate, OWN, 0, ASKER, bytes, 1_400, answer)?;
        Ok(())
    }

    fn learn(&mut self, place: usize) -> Result<(), ViewFault> {
        let (Some(note), Some(view)) = (&self.note, self.views.get_mut(place)) else {
            return Err(ViewFault::NoPlace);
        };
        view.learn(note)
    }

    fn reload(&mut self, rules: Option<Rules>) -> Result<(), ViewFault> {
        match rules {
            Some(rules) => self.writer.reload(self.alloc, 0, rules),
            None => Err(ViewFault::NoPlace),
        }
    }

    // Does what a row says.
    fn make(&mut self, row: &Row, parts: Parts) -> Result<(), ViewFault> {
        let (deed, place, _, _, _) = *row;
        let Parts { bytes, rules } = parts;
        match deed {
            Deed::Send => self.send(place, bytes.as_slice()),
            Deed::Reload => self.reload(rules),
            Deed::Sweep => self.writer.sweep(1_000),
            Deed::Note => {
                self.note = Some(self.writer.note()?);
                Ok(())
            }
            Deed::Learn => self.learn(place),
        }
    }

    // Whether the answer is that of a row, or that nothing is left in it.
    fn is_answered(&self, row: &Row, want: &[u8]) -> bool {
        let (deed, _, _, _, _) = *row;
        deed != Deed::Send
            || (self.answer.bytes.as_slice() == want && !self.answer.audit.is_empty())
    }

    fn is_left_empty(&self, row: &Row) -> bool {
        let (deed, _, _, _, _) = *row;
        deed != Deed::Send || (self.answer.bytes.is_empty() && self.answer.audit.is_empty())
    }

    // What a row that was refused does once more, with memory: the same, or the writer is shut.
    fn make_again(&mut self, row: &Row, want: &[u8]) -> Result<Ending, NoMemory> {
        let parts = parts_of(self.alloc, row)?;
        match self.make(row, parts) {
            Ok(()) if self.is_answered(row, want) => Ok(Ending::Well),
            Err(ViewFault::Closed) => Ok(Ending::Shut),
            _ => Ok(Ending::Wrong(0)),
        }
    }

    // Does what a row says, while all memory is in the hoard if it has to be refused. What takes memory is refused then, leaves nothing, and
    // does the same once more; what takes none is not.
    fn take_row(
        &mut self,
        row: &Row,
        hoard: &mut Hoard,
        is_refused: bool,
    ) -> Result<Ending, NoMemory> {
        let (_, _, _, reply, takes_memory) = *row;
        let want = bytes_of(self.alloc, reply)?;
        let parts = parts_of(self.alloc, row)?;
        let is_taken = is_refused && hoard.fill(self.alloc);
        let first = self.make(row, parts);
        hoard.empty();
        match first {
            Ok(()) if is_refused && takes_memory => Ok(Ending::Wrong(0)),
            Ok(()) if self.is_answered(row, want.as_slice()) => Ok(Ending::Well),
            Err(ViewFault::NoMemory)
                if takes_memory && is_taken == is_refused && self.is_left_empty(row) => {
                self.make_again(row, want.as_slice())
            }
            _ => Ok(Ending::Wrong(0)),
        }
    }

    // Whether a loop still answers.
    fn goes_on(&mut self) -> Result<bool, NoMemory> {
        let bytes = bytes_of(self.alloc, REQUEST)?;
        Ok(self.send(0, bytes.as_slice()).is_ok() && !self.answer.bytes.is_empty())
    }

    fn take_rows(&mut self, hoard: &mut Hoard, is_refused: bool) -> Result<Ending, NoMemory> {
        for (place, row) in ROWS.iter().enumerate() {
            match self.take_row(row, hoard, is_refused)? {
                Ending::Well => {}
                Ending::Shut if !is_refused && self.goes_on()? => return Ok(Ending::Shut),
                _ => return Ok(Ending::Wrong(place)),
            }
        }
        Ok(Ending::Well)
    }
}

// What an opening begins with.
#[derive(Drop)]
struct Beginning {
    site: Site,
    rules: Arc<Rules>,
}

// What is refused.
#[derive(Clone, Copy, PartialEq, Eq)]
enum Refused {
    Opening,
    Rows,
    Nothing,
}

// Opens a writer and two loops, while all memory is in the hoard if the opening has to be refused, and takes the rows.
fn run<J: Naming, R: Wait>(
    rt: &R,
    alloc: Global,
    opened: Opened,
    begun: Beginning,
    hoard: &mut Hoard,
    refused: Refused,
) -> Result<Ending, NoMemory>
    requires book { opened.seen.book ≡ J.book }
    requires opening { J.opening ≡ record { rules = arc_value begun.rules; site = begun.site } }
{
    let Beginning { site, rules } = begun;
    if refused == Refused::Opening {
        hoard.fill(alloc);
    }
    let told = open::<J, &R>(alloc, rt, opened, &site, rules, 2);
    hoard.empty();
    drop(site);
    match told {
        Ok((writer, views)) => {
            let mut scene = Scene {
                alloc,
                writer,
                views,
                note: None,
                answer: Answer::new(alloc),
            };
            scene.take_rows(hoard, refused == Refused::Rows)
        }
        Err(ViewFault::NoMemory) => Ok(Ending::Unopened),
        Err(_) => Ok(Ending::Wrong(0)),
    }
}

fn prepared(alloc: Global) -> Result<Beginning, NoMemory> {
    let site = site(alloc, 4)?;
    let rules = Arc::new(alloc, rules_of(alloc, OPEN)?)?;
    Ok(Beginning { site, rules })
}

fn run_once<R: Wait>(rt: &R, alloc: Global, refused: Refused) -> Result<Ending, NoMemory> {
    let begun = prepared(alloc)?;
    let mut hoard = Hoard::new(alloc)?;
    let opened = Opened::new();
    run::<Brand, R>(rt, alloc, opened, begun, &mut hoard, refused)
}

#[test]
fn a_published_call_without_memory_changes_nothing(rt: HostRuntime) {
    let told = run_once(&rt, rt.alloc(), Refused::Opening);
    assert_holds(&rt, told == Ok(Ending::Unopened), "an opening");
    let told = run_once(&rt, rt.alloc(), Refused::Rows);
    assert_holds(&rt, told == Ok(Ending::Well), "each call");
}

#[test]
fn published_calls_are_answered(rt: HostRuntime) {
    let told = run_once(&rt, rt.alloc(), Refused::Nothing);
    assert_holds(&rt, told == Ok(Ending::Well), "each call");
}

// It passes, too, where what it makes ready is refused. An opening that was refused is made once more.
#[test]
fn published_calls_survive_a_refusal(rt: HostRuntime) {
    let mut told = run_once(&rt, rt.alloc(), Refused::Nothing);
    if told == Ok(Ending::Unopened) {
        told = run_once(&rt, rt.alloc(), Refused::Nothing);
        assert_holds(&rt, told == Ok(Ending::Well), "the second opening");
    }
    let is_lawful = matches!(told, Ok(Ending::Well | Ending::Shut) | Err(NoMemory));
    assert_holds(&rt, is_lawful, "each call");
}
