//! A directory agent: listens at the address of its configuration until standard input ends.
#![tactic(auto)]

use agent_program::{agent_run, unread_words};
use std::env;
use std::io::{self, BufWriter, Write};
use std::process::ExitCode;

/// The status where no memory is found for the output.
const NO_MEMORY: u8 = 3;

// The words without the program's own name.
fn words(rt: &HostRuntime) -> io::Result<Vec<String>> {
    let mut words = Vec::new(rt.alloc());
    for word in env::args(rt)?.skip(1) {
        words.push(word)?;
    }
    Ok(words)
}

// The status of a call whose words cannot be read.
fn refuse(rt: &HostRuntime, fault: &io::Error) -> ExitCode {
    let (status, words) = unread_words(fault);
    let _ = io::writer(rt).write_all(words.as_bytes());
    ExitCode::from(status)
}

fn main(rt: HostRuntime) -> ExitCode {
    let words = match words(&rt) {
        Ok(words) => words,
        Err(fault) => return refuse(&rt, &fault),
    };
    let Ok(mut writer) = BufWriter::new(rt.alloc(), io::writer(&rt)) else {
        return ExitCode::from(NO_MEMORY);
    };
    let mut reader = rt.reader();
    ExitCode::from(agent_run(&rt, rt.alloc(), words.as_slice(), &mut reader, &mut writer))
}
