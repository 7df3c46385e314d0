//! Tables of what is asked of texts, a row a line.
use crate::assertion::assert_holds;
use slp_text::NoMemory;
use std::alloc::{AllocError, Global};
use std::fmt::Debug;
use std::process::Abort;

/// A question of one word on a text and one beside it.
#[derive(Clone, Copy)]
pub struct Question<'a> {
    pub word: &'a str,
    pub text: &'a str,
    pub beside: &'a str,
}

/// What is asked about texts, in the rows of a table.
pub trait Asking: Copy {
    /// Why a text has no answer.
    type Fault: Debug + Copy;

    /// Appends the answer to a question.
    fn print(self, alloc: Global, row: Question<'_>, out: &mut String) -> Result<(), Self::Fault>;
}

/// What was read, where no fault is looked for.
pub fn found<T, E: Copy>(read: Result<T, E>) -> Result<T, NoMemory> {
    match read {
        Ok(found) => Ok(found),
        Err(_) => Err(NoMemory),
    }
}

// Appends a part as often as told. A `%` in it stands for the number of the time, counted from 1.
fn push_times(part: &str, times: u32, out: &mut String) -> Result<(), AllocError> {
    for number in 1..times.saturating_add(1) {
        match part.split_once('%') {
            Some((front, rest)) => write!(out, "{front}{number}{rest}")?,
            None => out.push_str(part)?,
        }
    }
    Ok(())
}

// Appends a piece: a number of times, a part, and after `>>` what follows them.
fn push_piece(piece: &str, out: &mut String) -> Result<(), AllocError> {
    let Some((repeated, rest)) = piece.split_once(">>") else {
        return out.push_str(piece);
    };
    if let Some((times, part)) = repeated.split_once(' ') {
        push_times(part, times.parse::<u32>().unwrap_or(0), out)?;
    }
    out.push_str(rest)
}

/// What a text stands for: `<<3 a%,>>` in it is `a1,a2,a3,`.
pub fn whole(alloc: Global, text: &str) -> Result<String, AllocError> {
    let mut out = String::new(alloc);
    for piece in text.split("<<") {
        push_piece(piece, &mut out)?;
    }
    Ok(out)
}

/// The part of a name, or the name itself.
pub fn part_of<'a>(line: &'a str, parts: &[(&str, &'a str)]) -> &'a str {
    for (name, part) in parts {
        if *name == line {
            return part;
        }
    }
    line
}

/// The lines of a text with `¶` in between. Of some there stands the name alone.
pub fn lines(alloc: Global, text: &str, parts: &[(&str, &str)]) -> Result<String, AllocError> {
    let mut out = String::new(alloc);
    for line in text.split('¶') {
        out.push_str(part_of(line, &*parts))?;
        out.push('\n')?;
    }
    out.pop();
    Ok(out)
}

fn is_answered<A: Asking>(alloc: Global, asking: A, row: &str) -> Result<bool, AllocError> {
    let row = whole(alloc, row)?;
    let mut columns = row.as_str().split('¦');
    let question = Question {
        word: columns.next().unwrap_or(""),
        text: columns.next().unwrap_or(""),
        beside: columns.next().unwrap_or(""),
    };
    let mut out = String::new(alloc);
    if let Err(fault) = asking.print(alloc, question, &mut out) {
        write!(out, "! {fault:?}")?;
    }
    Ok(out.as_str() == columns.next().unwrap_or(""))
}

/// Asks what stands in the rows of a table, one a line: a word, a text, one beside it, and the answer, with `¦` in
/// between, or `!` and a fault. Ends the test where the answer is another one.
pub fn assert_table<A: Asking>(rt: &impl Abort, alloc: Global, asking: A, table: &str) {
    for row in table.split('\n') {
        if !row.is_empty() {
            assert_holds(rt, is_answered(alloc, asking, row) == Ok(true), row);
        }
    }
}
