//! What is printed of bytes and of lines. Times are masked where they are the clock's, and of what is repeated the number is printed.
use std::io::{self, Write};

/// How much less than the lifetime of a registration is taken for it, and how old a stamp may be, in seconds.
const LATE: u16 = 10;

const OLD: u64 = 100;

/// So many equal bytes are printed as their number.
const MANY: usize = 16;

/// The times that are masked: lifetimes of at most so many seconds, and stamps up to a moment.
#[derive(Clone, Copy)]
pub(crate) struct Times {
    pub near: u16,
    pub now: u64,
}

impl Times {
    fn is_lifetime(&self, value: u16) -> bool {
        value <= self.near && value >= self.near.saturating_sub(LATE) && value != 0
    }

    fn is_stamp(&self, value: u32) -> bool {
        let value = u64::from(value);
        value <= self.now && value >= self.now.saturating_sub(OLD)
    }

    // Whether a number of a request is the clock's seconds modulo 65,536.
    fn is_number(&self, value: u16) -> bool {
        let late = (self.now & 0xffff) as u16;
        u64::from(late.wrapping_sub(value)) <= OLD
    }
}

// How many bytes at the front are equal.
fn equal_front(bytes: &[u8]) -> usize {
    match bytes.first() {
        Some(first) => bytes.iter().take_while(|byte| *byte == first).count(),
        None => 0,
    }
}

// Prints what stands at the front of bytes, in hexadecimal, and answers how many bytes more it was than one.
fn print_front<W: Write>(out: &mut W, rest: &[u8], times: Times) -> io::Result<usize> {
    let equal = equal_front(rest);
    match rest {
        [a, ..] if equal >= MANY => {
            write!(out, "{{{equal}*{a:02x}}}")?;
            Ok(equal.saturating_sub(1))
        }
        [a, b, c, d, ..] if times.is_stamp(u32::from_be_bytes([*a, *b, *c, *d])) => {
            out.write_all(b"@@@@@@@@")?;
            Ok(3)
        }
        [a, b, ..] if times.is_lifetime(u16::from_be_bytes([*a, *b])) => {
            out.write_all(b"~~~~")?;
            Ok(1)
        }
        [a, ..] => {
            write!(out, "{a:02x}")?;
            Ok(0)
        }
        [] => Ok(0),
    }
}

/// Prints bytes in hexadecimal: a lifetime as `~~~~`, a stamp as `@@@@@@@@`, and many equal bytes as `{N*61}`.
pub(crate) fn print_bytes<W: Write>(out: &mut W, bytes: &[u8], times: Times) -> io::Result<()> {
    let mut skipped = 0usize;
    for place in 0..bytes.len() {
        if skipped > 0 {
            skipped = skipped.saturating_sub(1);
        } else {
            skipped = print_front(out, &bytes[place..], times)?;
        }
    }
    Ok(())
}

/// Prints a request as bytes are, but for a number that is the clock's, which is `####`.
pub(crate) fn print_request<W: Write>(out: &mut W, bytes: &[u8], times: Times) -> io::Result<()> {
    if bytes.len() > 12 && times.is_number(u16::from_be_bytes([bytes[10], bytes[11]])) {
        print_bytes(out, &bytes[..10], times)?;
        out.write_all(b"####")?;
        return print_bytes(out, &bytes[12..], times);
    }
    print_bytes(out, bytes, times)
}

// Prints a text, in which many equal bytes are `{N*a}`.
fn print_text<W: Write>(out: &mut W, text: &[u8]) -> io::Result<()> {
    let mut skipped = 0usize;
    for place in 0..text.len() {
        if skipped > 0 {
            skipped = skipped.saturating_sub(1);
            continue;
        }
        let equal = equal_front(&text[place..]);
        if equal >= MANY {
            write!(out, "{{{equal}*")?;
            out.write_all(&text[place..=place])?;
            out.write_all(b"}")?;
            skipped = equal.saturating_sub(1);
        } else {
            out.write_all(&text[place..=place])?;
        }
    }
    Ok(())
}

// Prints a line: a lifetime at its end as `~` and the one that was registered.
fn print_line<W: Write>(out: &mut W, line: &str, times: Times) -> io::Result<()> {
    if let Some((front, end)) = line.split_once(' ') {
        if let Ok(value) = end.parse::<u16>() {
            if times.is_lifetime(value) {
                print_text(out, front.as_bytes())?;
                return writeln!(out, " ~{}", times.near);
            }
        }
    }
    print_text(out, line.as_bytes())?;
    out.write_all(b"\n")
}

/// Prints lines.
pub(crate) fn print_lines<W: Write>(out: &mut W, text: &[u8], times: Times) -> io::Result<()> {
    let Ok(text) = str::from_utf8(text) else {
        return out.write_all(b"(no text)\n");
    };
    for line in text.lines() {
        print_line(out, line, times)?;
    }
    Ok(())
}

// Prints a line that came so often.
fn print_run<W: Write>(out: &mut W, line: &[u8], count: u64) -> io::Result<()> {
    match count {
        0 => Ok(()),
        1 => {
            out.write_all(line)?;
            out.write_all(b"\n")
        }
        _ => {
            out.write_all(line)?;
            writeln!(out, " ({count} times)")
        }
    }
}

/// Prints lines, of which equal ones that follow each other are printed once, with their number.
pub(crate) fn print_runs<W: Write>(out: &mut W, text: &[u8]) -> io::Result<()> {
    if text.is_empty() {
        return Ok(());
    }
    let text = text.strip_suffix(b"\n").unwrap_or(text);
    let mut last = b"".as_slice();
    let mut count = 0u64;
    for line in text.split(|byte| *byte == b'\n') {
        if line == last {
            count = count.saturating_add(1);
            continue;
        }
        print_run(out, last, count)?;
        last = line;
        count = 1;
    }
    print_run(out, last, count)
}
