//! Replays whose reader or writer fails, and a word.
use crate::assertion::assert_holds;
use crate::programs::fakes::Unflushed;
use replay_program::{Replay, RunFault, replay_run};
use std::alloc::Global;
use std::io;
use std::io::{Error, ErrorKind, Read, Write};
use std::sync::atomic::{AtomicUsize, Ordering};
use std::test::Fail;

const REQUEST: &str =
    "0201000030000000000000010002656e0000000f736572766963653a7072696e746572000744454641554c5400000000";

const REGISTRATION: &str =
    "020300004e400000000000020002656e00012c0017736572766963653a7072696e7465723a6c70723a2f2f61000013736572766963653a7072696e7465723a6c7072000744454641554c54000000";

const ACCEPTED: &str =
    "> 0205000012000000000000020002656e0000\n# allow code=0 by=rule:all-register action=register asker=10.0.0.1 type=service:printer:lpr scope=default\n";

const FOUND: &str =
    "> 0202000031000000000000010002656e0000000100012c0017736572766963653a7072696e7465723a6c70723a2f2f6100\n# allow code=0 by=none action=see asker=10.0.0.1 type=service:printer scope=-\n";

fn joined(alloc: Global, parts: &[&str]) -> Result<String, Fail> {
    let mut text = String::new(alloc);
    for part in parts {
        text.push_str(part)?;
    }
    Ok(text)
}

/// Gives one byte a read, is interrupted before each, and may fail at the end.
#[derive(Drop)]
struct Trickle<'a> {
    rest: &'a [u8],
    is_interrupted: bool,
    fails: bool,
}

impl Read for Trickle<'_> {
    fn read(&mut self, buf: &mut [u8]) -> io::Result<usize> {
        self.is_interrupted = !self.is_interrupted;
        if self.is_interrupted {
            return Err(Error::from(ErrorKind::Interrupted));
        }
        if self.rest.is_empty() && self.fails {
            return Err(Error::from(ErrorKind::Other));
        }
        if self.rest.is_empty() || buf.is_empty() {
            return Ok(0);
        }
        buf[0] = self.rest[0];
        self.rest = &self.rest[1..];
        Ok(1)
    }
}

// Whether a script is carried out byte by byte, and ends so.
fn is_carried_out(
    alloc: Global,
    script: &str,
    fails: bool,
    outcome: Result<(), RunFault>,
) -> Result<bool, Fail> {
    let mut out = Vec::new(alloc);
    let mut reader = Trickle {
        rest: script.as_bytes(),
        is_interrupted: false,
        fails,
    };
    let told = Replay::new(alloc).run(alloc, &mut reader, &mut out);
    let want = joined(alloc, &[ACCEPTED, FOUND])?;
    Ok(told == outcome && out.as_slice() == want.as_bytes())
}

#[test]
fn reads_may_be_cut_anywhere(rt: HostRuntime) -> Result<(), Fail> {
    let parts = ["udp ", REGISTRATION, "\nudp ", REQUEST, "\n"];
    let mut script = joined(rt.alloc(), &parts)?;
    // More reads than any bound of some hundred or thousand, and a last line without its end.
    for _ in 0..3_000 {
        script.push('\n')?;
    }
    script.push_str("at 1")?;
    let ends = is_carried_out(rt.alloc(), script.as_str(), false, Ok(()))?;
    assert_holds(&rt, ends, "an end");
    let fails = is_carried_out(rt.alloc(), script.as_str(), true, Err(RunFault::Read))?;
    assert_holds(&rt, fails, "a failure at the end");
    Ok(())
}

/// Gives its front, fails once, and would then give the rest.
#[derive(Drop)]
struct Broken<'a> {
    front: &'a [u8],
    has_failed: bool,
    rest: &'a [u8],
}

impl Read for Broken<'_> {
    fn read(&mut self, buf: &mut [u8]) -> io::Result<usize> {
        if !self.front.is_empty() {
            return self.front.read(buf);
        }
        if !self.has_failed {
            self.has_failed = true;
            return Err(Error::from(ErrorKind::Other));
        }
        self.rest.read(buf)
    }
}

// The halves of the request.
const FIRST_HALF: &str = "0201000030000000000000010002656e0000000f73657276";

const SECOND_HALF: &str = "6963653a7072696e746572000744454641554c5400000000";

fn make_broken<'a>(front: &'a str, rest: &'a str) -> Broken<'a> {
    Broken {
        front: front.as_bytes(),
        has_failed: false,
        rest: rest.as_bytes(),
    }
}

// Whether a run ends with the failure: only the first line is carried out, and the rest is not read.
fn ends_a_run(alloc: Global, front: &str, rest: &str) -> bool {
    let mut out = Vec::new(alloc);
    let mut reader = make_broken(front, rest);
    let told = Replay::new(alloc).run(alloc, &mut reader, &mut out);
    told == Err(RunFault::Read)
        && out.as_slice() == ACCEPTED.as_bytes()
        && reader.rest == rest.as_bytes()
}

// Whether the program does so too, and answers status 1.
fn ends_the_program(alloc: Global, front: &str, rest: &str) -> bool {
    let mut out = Vec::new(alloc);
    let mut reader = make_broken(front, rest);
    let status = replay_run(alloc, &[], &mut reader, &mut out);
    status == 1 && out.as_slice() == ACCEPTED.as_bytes() && reader.rest == rest.as_bytes()
}

#[test]
fn a_read_that_fails_once_ends_a_run(rt: HostRuntime) -> Result<(), Fail> {
    let front = joined(rt.alloc(), &["udp ", REGISTRATION, "\nudp ", FIRST_HALF])?;
    let rest = joined(rt.alloc(), &[SECOND_HALF, "\nudp ", REQUEST, "\n"])?;
    assert_holds(
        &rt,
        ends_a_run(rt.alloc(), front.as_str(), rest.as_str()),
        "a run",
    );
    let told = ends_the_program(rt.alloc(), front.as_str(), rest.as_str());
    assert_holds(&rt, told, "the program");
    Ok(())
}

fn flush_gives(alloc: Global, full: usize, want: u8) -> bool {
    let mut writer = Unflushed {
        bytes: Vec::new(alloc),
        full,
    };
    let mut reader = b"sweep\nsweep".as_slice();
    let status = replay_run(alloc, &[], &mut reader, &mut writer);
    status == want && writer.bytes.as_slice() == b"# sweep\n# sweep\n".as_slice()
}

// A writer may keep what is written until it is flushed: where the last flush fails, nobody got it, and
// the status has to tell. The script's last line has no LF, so it is carried out after the last read
// and the flush in front of that: no flush but the last fails.
#[test]
fn the_last_flush_is_asked(rt: HostRuntime) {
    assert_holds(&rt, flush_gives(rt.alloc(), 16, 2), "a flush that fails");
    assert_holds(&rt, flush_gives(rt.alloc(), 17, 0), "none that fails");
}

#[test]
fn a_word_is_wrong_usage(rt: HostRuntime) -> Result<(), Fail> {
    let words = vec![in rt.alloc(); String::from_str(rt.alloc(), "x")?]?;
    let mut out = Vec::new(rt.alloc());
    let mut reader = b"at x\n".as_slice();
    let status = replay_run(rt.alloc(), words.as_slice(), &mut reader, &mut out);
    let told = status == 64 && out.as_slice() == b"usage: slpreplay\n".as_slice();
    assert_holds(&rt, told, "a word");
    Ok(())
}

/// Gives a line, and at the next read looks at how much was written out by then.
#[derive(Drop)]
struct Watching<'a> {
    line: &'a [u8],
    written_out: &'a AtomicUsize,
    seen: usize,
}

impl Read for Watching<'_> {
    fn read(&mut self, buf: &mut [u8]) -> io::Result<usize> {
        if !self.line.is_empty() {
            return self.line.read(buf);
        }
        self.seen = self.written_out.load(Ordering::SeqCst);
        Ok(0)
    }
}

/// Tells at each flush how many bytes were written.
#[derive(Drop)]
struct Telling<'a> {
    written: usize,
    written_out: &'a AtomicUsize,
}

impl Write for Telling<'_> {
    fn write(&mut self, buf: &[u8]) -> io::Result<usize> {
        self.written = self.written.saturating_add(buf.len());
        Ok(buf.len())
    }

    fn flush(&mut self) -> io::Result<()> {
        self.written_out.store(self.written, Ordering::SeqCst);
        Ok(())
    }
}

#[test]
fn a_reply_is_out_before_more_is_read(rt: HostRuntime) -> Result<(), Fail> {
    let line = joined(rt.alloc(), &["udp ", REGISTRATION, "\n"])?;
    let written_out = AtomicUsize::new(0);
    let mut reader = Watching {
        line: line.as_bytes(),
        written_out: &written_out,
        seen: 0,
    };
    let mut writer = Telling {
        written: 0,
        written_out: &written_out,
    };
    let status = replay_run(rt.alloc(), &[], &mut reader, &mut writer);
    assert_holds(
        &rt,
        status == 0 && reader.seen == ACCEPTED.len(),
        "the reply and its line",
    );
    Ok(())
}
