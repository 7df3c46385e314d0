//! Replays that find no memory.
use crate::assertion::assert_holds;
use crate::refusals::hoard::Hoard;
use replay_program::{Replay, RunFault};
use slp_text::NoMemory;
use std::alloc::{AllocError, Global};
use std::io;
use std::io::Read;

const REGISTRATION: &str =
    "udp 020300004e400000000000020002656e00012c0017736572766963653a7072696e7465723a6c70723a2f2f61000013736572766963653a7072696e7465723a6c7072000744454641554c54000000\n";

const WITHDRAWAL: &str =
    "udp 0204000038000000000000030002656e000744454641554c540000000017736572766963653a7072696e7465723a6c70723a2f2f61000000\n";

const REQUEST: &str =
    "udp 0201000030000000000000010002656e0000000f736572766963653a7072696e746572000744454641554c5400000000\n";

const REQUEST_TO_MANY: &str =
    "udp 0201000030200000000000010002656e0000000f736572766963653a7072696e746572000744454641554c5400000000\n";

const ACCEPTED: &str =
    "> 0205000012000000000000020002656e0000\n# allow code=0 by=rule:all-register action=register asker=10.0.0.1 type=service:printer:lpr scope=default\n";

const REGISTRATION_REFUSED: &str =
    "> 0205000012000000000000020002656e000a\n# deny code=10 by=memory action=register asker=10.0.0.1 type=- scope=-\n";

const WITHDRAWN: &str =
    "> 0205000012000000000000030002656e0000\n# allow code=0 by=rule:all-withdraw action=withdraw asker=10.0.0.1 type=service:printer:lpr scope=default\n";

const NOTHING: &str =
    "> 0202000014000000000000010002656e00000000\n# allow code=0 by=none action=see asker=10.0.0.1 type=service:printer scope=-\n";

const FOUND: &str =
    "> 0202000031000000000000010002656e0000000100012c0017736572766963653a7072696e7465723a6c70723a2f2f6100\n# allow code=0 by=none action=see asker=10.0.0.1 type=service:printer scope=-\n";

const REQUEST_REFUSED: &str =
    "> 0202000012000000000000010002656e000a\n# deny code=10 by=memory action=see asker=10.0.0.1 type=- scope=-\n";

const SILENTLY_REFUSED: &str =
    "> -\n# deny code=10 by=memory action=see asker=10.0.0.1 type=- scope=-\n";

// What memory is left while a line is carried out: all, one block with room for this many bytes, or none.
#[derive(Clone, Copy)]
enum Left {
    All,
    Block(usize),
    Nothing,
}

// A line, what is left for it, and what it prints. The bytes of a message that is read take one block; what is made of it finds none.
type Row = (&'static str, Left, &'static str);

static REFUSED: [Row; 7] = [
    (REGISTRATION, Left::All, ACCEPTED),
    (WITHDRAWAL, Left::All, WITHDRAWN),
    (REGISTRATION, Left::Block(78), REGISTRATION_REFUSED),
    (REQUEST, Left::All, NOTHING),
    (REQUEST, Left::Block(48), REQUEST_REFUSED),
    (REQUEST_TO_MANY, Left::Block(48), SILENTLY_REFUSED),
    (REGISTRATION, Left::All, ACCEPTED),
];

// The line itself finds none, and the run ends there.
static ENDED: [Row; 3] = [
    (REGISTRATION, Left::All, ACCEPTED),
    (REQUEST, Left::All, FOUND),
    (REQUEST, Left::Nothing, ""),
];

// Gives a line a read, and sees to what memory is left for it.
#[derive(Drop)]
struct Stinted<'a> {
    alloc: Global,
    hoard: Hoard,
    rows: &'a [Row],
    next: usize,
}

impl Stinted<'_> {
    fn leave(&mut self, left: Left) {
        self.hoard.empty();
        match left {
            Left::All => {}
            Left::Block(size) => {
                let block: Result<Vec<u8>, AllocError> = Vec::with_capacity(self.alloc, size);
                self.hoard.fill(self.alloc);
                drop(block);
            }
            Left::Nothing => {
                self.hoard.fill(self.alloc);
            }
        }
    }
}

impl Read for Stinted<'_> {
    fn read(&mut self, buf: &mut [u8]) -> io::Result<usize> {
        let Some((line, left, _)) = self.rows.get(self.next).copied() else {
            return Ok(0);
        };
        self.next = self.next.saturating_add(1);
        self.leave(left);
        line.as_bytes().read(buf)
    }
}

fn joined(alloc: Global, rows: &[Row]) -> Result<String, NoMemory> {
    let mut text = String::new(alloc);
    for (_, _, printed) in rows {
        text.push_str(*printed)?;
    }
    Ok(text)
}

// Whether a run of these rows prints what each says, and ends so.
fn is_printed(
    alloc: Global,
    rows: &[Row],
    outcome: Result<(), RunFault>,
) -> Result<bool, NoMemory> {
    let want = joined(alloc, rows)?;
    let mut out = Vec::with_capacity(alloc, 4_096)?;
    let mut reader = Stinted {
        alloc,
        hoard: Hoard::new(alloc)?,
        rows,
        next: 0,
    };
    let told = Replay::new(alloc).run(alloc, &mut reader, &mut out);
    drop(reader);
    Ok(told == outcome && out.as_slice() == want.as_bytes())
}

#[test]
fn a_message_without_memory_is_refused(rt: HostRuntime) {
    let told = is_printed(rt.alloc(), &REFUSED, Ok(()));
    assert_holds(&rt, told == Ok(true), "code 10");
}

#[test]
fn a_line_without_memory_ends_a_replay(rt: HostRuntime) {
    let told = is_printed(rt.alloc(), &ENDED, Err(RunFault::NoMemory));
    assert_holds(&rt, told == Ok(true), "status 4");
}

// What a run of two messages prints that ends well: both answered, or one of them refused; and what it prints before it ends for want of
// memory.
static WELL: [[&str; 2]; 3] = [
    [ACCEPTED, FOUND],
    [REGISTRATION_REFUSED, NOTHING],
    [ACCEPTED, REQUEST_REFUSED],
];

static BEFORE: [[&str; 2]; 2] = [["", ""], [ACCEPTED, ""]];

fn is_one_of(bytes: &[u8], texts: &[[&str; 2]]) -> bool {
    for [first, second] in texts {
        let (first, second) = (first.as_bytes(), second.as_bytes());
        if bytes.len() == first.len() + second.len()
            && bytes.starts_with(first)
            && bytes.ends_with(second)
        {
            return true;
        }
    }
    false
}

// Whether a run that may be refused memory once prints what it may.
fn is_replayed(alloc: Global) -> Result<bool, NoMemory> {
    let mut script = String::from_str(alloc, REGISTRATION)?;
    script.push_str(REQUEST)?;
    let mut out = Vec::with_capacity(alloc, 4_096)?;
    let mut reader = script.as_bytes();
    match Replay::new(alloc).run(alloc, &mut reader, &mut out) {
        Ok(()) => Ok(is_one_of(out.as_slice(), &WELL)),
        Err(RunFault::NoMemory) => Ok(is_one_of(out.as_slice(), &BEFORE)),
        Err(_) => Ok(false),
    }
}

// It passes, too, where what it makes ready is refused.
#[test]
fn a_replay_survives_a_refusal(rt: HostRuntime) {
    let told = is_replayed(rt.alloc());
    assert_holds(&rt, told != Ok(false), "a registration and a request");
}
