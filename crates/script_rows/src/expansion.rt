//! What braces in a script of the data stand for.

use crate::words::request_in;
use std::alloc::{AllocError, Global};

/// The most bytes that a pair of braces stands for.
const LONGEST: usize = 4_000_000;

/// What a pair of braces stands for: a byte, or a text so many times.
enum Form<'a> {
    Byte(u8),
    Repeated(usize, &'a str),
}

impl<'a> Form<'a> {
    // Reads what stands between braces. Where it is no form, they stand for themselves.
    fn parse(inner: &'a str) -> Option<Form<'a>> {
        if let Some(digits) = inner.strip_prefix('x') {
            let byte = u8::from_str_radix(digits, 16).ok()?;
            return Some(Form::Byte(byte));
        }
        let (number, text) = inner.split_once('*')?;
        let count = number.parse::<usize>().ok()?;
        if count.checked_mul(text.len().max(1))? > LONGEST {
            return None;
        }
        Some(Form::Repeated(count, text))
    }

    fn push_to(self, bytes: &mut Vec<u8>) -> Result<(), AllocError> {
        match self {
            Form::Byte(byte) => bytes.push(byte)?,
            Form::Repeated(count, text) => {
                for _ in 0..count {
                    bytes.extend_from_slice(text.as_bytes())?;
                }
            }
        }
        Ok(())
    }
}

// The message that a number and the words of a command of `slptool` ask for.
fn message_in(alloc: Global, inner: &str) -> Result<Option<Vec<u8>>, AllocError> {
    let Some((number, words)) = inner.split_once(' ') else {
        return Ok(None);
    };
    match number.parse::<u16>() {
        Ok(number) => request_in(alloc, number, words),
        Err(_) => Ok(None),
    }
}

// Adds the hexadecimal digits of the message that stands before a closing brace, and gives the text behind it, if there is one.
fn push_message<'a>(
    alloc: Global,
    bytes: &mut Vec<u8>,
    part: &'a str,
) -> Result<Option<&'a str>, AllocError> {
    let Some((inner, rest)) = part.split_once('}') else {
        return Ok(None);
    };
    let Some(message) = message_in(alloc, inner)? else {
        return Ok(None);
    };
    let digits = hex::encode(alloc, message.as_slice())?;
    bytes.extend_from_slice(digits.as_bytes())?;
    Ok(Some(rest))
}

// Reads a form and the text behind its closing brace.
fn form_and_rest(part: &str) -> Option<(Form<'_>, &str)> {
    let (inner, rest) = part.split_once('}')?;
    Some((Form::parse(inner)?, rest))
}

// Adds what a brace and the text behind it stand for.
fn push_braced(alloc: Global, bytes: &mut Vec<u8>, part: &str) -> Result<(), AllocError> {
    if let Some(rest) = push_message(alloc, bytes, part)? {
        return bytes.extend_from_slice(rest.as_bytes());
    }
    match form_and_rest(part) {
        Some((form, rest)) => {
            form.push_to(bytes)?;
            bytes.extend_from_slice(rest.as_bytes())
        }
        None => {
            bytes.push(b'{')?;
            bytes.extend_from_slice(part.as_bytes())
        }
    }
}

/// Adds what a text stands for.
pub fn push_expanded(alloc: Global, bytes: &mut Vec<u8>, text: &str) -> Result<(), AllocError> {
    let mut parts = text.split('{');
    bytes.extend_from_slice(parts.next().unwrap_or("").as_bytes())?;
    for part in parts {
        push_braced(alloc, bytes, part)?;
    }
    Ok(())
}
