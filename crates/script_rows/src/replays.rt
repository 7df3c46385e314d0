//! Scripts that are replayed.
use crate::expansion::push_expanded;
use replay_program::replay_run;
use std::alloc::{AllocError, Global};
use std::io::{self, Write};

// The script that these lines stand for. The last of them is here without its LF.
fn script_of(alloc: Global, lines: &str) -> Result<Vec<u8>, AllocError> {
    let mut script = Vec::new(alloc);
    match lines.strip_suffix('\\') {
        Some(unended) => push_expanded(alloc, &mut script, unended)?,
        None => {
            push_expanded(alloc, &mut script, lines)?;
            script.push(b'\n')?;
        }
    }
    Ok(script)
}

// Replays a script, adds what is printed, and gives the status.
fn replay(alloc: Global, script: &[u8], output: &mut Vec<u8>) -> u8 {
    let mut reader = script;
    replay_run(alloc, &[], &mut reader, output)
}

/// Replays a script, and gives what is printed, and then its status.
pub(crate) fn replay_row(alloc: Global, lines: &str) -> io::Result<Vec<u8>> {
    let script = script_of(alloc, lines)?;
    let mut output = Vec::new(alloc);
    let status = replay(alloc, script.as_slice(), &mut output);
    if !output.is_empty() && !output.ends_with(b"\n") {
        output.push(b'\n')?;
    }
    writeln!(output, "= {status}")?;
    Ok(output)
}
