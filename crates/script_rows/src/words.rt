//! What rows are written in: words, numbers, addresses and messages.
ghost use Rattle.std.specs.Prelude.{◌≤◌};

use addresses::Addr;
use hex::decode;
use std::alloc::{AllocError, Global};
use std::net::Ipv4Addr;
use tool_program::request_of;

/// The address that a word is; loopback where it is none.
pub(crate) fn address_of(text: &str) -> Addr {
    match text.parse::<Ipv4Addr>() {
        Ok(address) => Addr(u32::from(address)),
        Err(_) => Addr(0x7f00_0001),
    }
}

/// The number that a word is, up to a greatest one; 0 where it is none.
pub(crate) fn number_of(text: &str, greatest: u32) -> u32
    ensures { result ≤ greatest }
{
    match text.parse::<u32>() {
        Ok(number) => number.min(greatest),
        Err(_) => 0,
    }
}

/// A line's first word, and what follows it.
pub(crate) fn cut(line: &str) -> (&str, &str) {
    line.split_once(' ').unwrap_or((line, ""))
}

/// The message with this number that the words of a command of `slptool` ask for, if they are one.
pub(crate) fn request_in(
    alloc: Global,
    xid: u16,
    text: &str,
) -> Result<Option<Vec<u8>>, AllocError> {
    let mut words = Vec::new(alloc);
    for word in text.split_whitespace() {
        words.push(String::from_str(alloc, word)?)?;
    }
    Ok(request_of(alloc, xid, words.as_slice()))
}

/// The message that a text says: the words of a command of `slptool`, or hexadecimal digits, which are one word.
pub(crate) fn message_of(alloc: Global, text: &str) -> Result<Vec<u8>, AllocError> {
    let told = if text.contains(' ') {
        request_in(alloc, 1, text)?
    } else {
        decode(alloc, text).ok()
    };
    Ok(told.unwrap_or(Vec::new(alloc)))
}
