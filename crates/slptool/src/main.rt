//! A client of directory agents: finds, registers and withdraws services.
#![tactic(auto)]

use std::env;
use std::io::{self, BufWriter, Write};
use std::process::ExitCode;
use tool_program::{tool_run, unread_words};

// The words without the program's own name.
fn words(rt: &HostRuntime) -> io::Result<Vec<String>> {
    let mut words = Vec::new(rt.alloc());
    for word in env::args(rt)?.skip(1) {
        words.push(word)?;
    }
    Ok(words)
}

// Prints why nothing is asked: words that are not all text, or no memory for what comes first.
fn refuse(rt: &HostRuntime, fault: &io::Error) -> ExitCode {
    let (status, line) = unread_words(fault);
    let _ = io::writer(rt).write_all(line.as_bytes());
    ExitCode::from(status)
}

fn main(rt: HostRuntime) -> ExitCode {
    let words = match words(&rt) {
        Ok(words) => words,
        Err(fault) => return refuse(&rt, &fault),
    };
    let mut writer = match BufWriter::new(rt.alloc(), io::writer(&rt)) {
        Ok(writer) => writer,
        Err(fault) => return refuse(&rt, &fault),
    };
    let reader = rt.reader();
    ExitCode::from(tool_run(&rt, rt.alloc(), words.as_slice(), reader, &mut writer))
}
