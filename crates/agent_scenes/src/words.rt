//! What rows are written in: words, numbers, addresses and messages.
ghost use Rattle.std.specs.Prelude.{◌≤◌};

use hex::decode;
use std::alloc::{AllocError, Global};
use std::net::Ipv4Addr;
use tool_program::request_of;

/// How long a text may become.
const LONGEST: usize = 1_000_000;

/// The address that a word is; loopback where it is none.
pub(crate) fn address_of(text: &str) -> Ipv4Addr {
    match text.parse::<Ipv4Addr>() {
        Ok(address) => address,
        Err(_) => Ipv4Addr::LOCALHOST,
    }
}

/// The number that a word is, up to a greatest one; 0 where it is none.
pub(crate) fn number_of(text: &str, greatest: u64) -> u64
    ensures { result ≤ greatest }
{
    match text.parse::<u64>() {
        Ok(number) => number.min(greatest),
        Err(_) => 0,
    }
}

/// A line's first word, and what follows it.
pub(crate) fn cut(line: &str) -> (&str, &str) {
    line.split_once(' ').unwrap_or((line, ""))
}

/// The words of a line, where `''` is an empty one.
pub fn words_of(alloc: Global, line: &str) -> Result<Vec<String>, AllocError> {
    let mut words = Vec::new(alloc);
    for word in line.split_whitespace() {
        let word = if word == "''" { "" } else { word };
        words.push(String::from_str(alloc, word)?)?;
    }
    Ok(words)
}

/// The message that a text says: the words of a command, which is sent with this number, or hexadecimal digits,
/// which are one word.
pub(crate) fn message_of(alloc: Global, xid: u16, text: &str) -> Result<Vec<u8>, AllocError> {
    let told = if text.contains(' ') {
        let words = words_of(alloc, text)?;
        request_of(alloc, xid, words.as_slice())
    } else {
        decode(alloc, text).ok()
    };
    Ok(told.unwrap_or(Vec::new(alloc)))
}

// A part of a line after a brace: `N*TEXT}` and what follows, as the number, the text and that.
fn repeated(part: &str) -> Option<(u64, &str, &str)> {
    let (inside, rest) = part.split_once('}')?;
    let (number, text) = inside.split_once('*')?;
    let number = number.parse::<u64>().ok()?;
    Some((number, text, rest))
}

/// A line in which each `{N*TEXT}` is made TEXT so many times.
pub(crate) fn expanded(alloc: Global, line: &str) -> Result<String, AllocError> {
    let mut parts = line.split('{');
    let mut text = String::from_str(alloc, parts.next().unwrap_or(""))?;
    for part in parts {
        let Some((number, piece, rest)) = repeated(part) else {
            text.push_str("{")?;
            text.push_str(part)?;
            continue;
        };
        for _ in 0..number {
            if text.len() < LONGEST {
                text.push_str(piece)?;
            }
        }
        text.push_str(rest)?;
    }
    Ok(text)
}
