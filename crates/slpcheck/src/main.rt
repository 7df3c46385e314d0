//! A check of the files of a site, before a server starts with them.
#![tactic(auto)]

use site_check::{call_words, check_run, unread_words};
use std::io::{self, BufWriter, Write};
use std::process::ExitCode;

// The status of a call whose words are read.
fn run(rt: &HostRuntime) -> io::Result<u8> {
    let words = call_words(rt)?;
    let mut writer = BufWriter::new(rt.alloc(), io::writer(rt))?;
    Ok(check_run(rt, rt.alloc(), words.as_slice(), &mut writer))
}

fn main(rt: HostRuntime) -> ExitCode {
    let (status, text) = match run(&rt) {
        Ok(status) => (status, ""),
        Err(fault) => unread_words(&fault),
    };
    let _ = io::writer(&rt).write_all(text.as_bytes());
    ExitCode::from(status)
}
