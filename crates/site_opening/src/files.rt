//! The texts of files.
use std::alloc::Global;
use std::fs;
use std::io::{self, ErrorKind, Read};
use std::rt::Files;
use thiserror::Error;

/// The bytes of the longest text that is taken.
const LONGEST: usize = 1_048_576;

/// The bytes of a file that are read: so many more that a longer text is still longer where its last character
/// is cut.
const MOST_READ: u64 = 1_048_580;

/// Why a file has no text.
#[derive(Clone, Copy, Debug, PartialEq, Eq, Error)]
pub enum FileFault {
    #[error("there is no such file")]
    Missing,
    #[error("it cannot be read")]
    Unread,
    #[error("it is not UTF-8")]
    NotText,
    #[error("out of memory")]
    NoMemory,
}

// Why a call of the system failed.
fn fault_of(e: &io::Error) -> FileFault {
    match e.kind() {
        ErrorKind::NotFound => FileFault::Missing,
        ErrorKind::OutOfMemory => FileFault::NoMemory,
        _ => FileFault::Unread,
    }
}

// The bytes of a file, or its beginning where it is longer than any text that is taken.
fn read_bytes<R: Files>(rt: &R, alloc: Global, path: &str) -> Result<Vec<u8>, FileFault> {
    let file = match fs::open(rt, path) {
        Ok(file) => file,
        Err(e) => return Err(fault_of(&e)),
    };
    let mut bytes = Vec::new(alloc);
    match file.take(MOST_READ).read_to_end(&mut bytes) {
        Ok(_) => Ok(bytes),
        Err(e) => Err(fault_of(&e)),
    }
}

// The text that bytes are. Of a longer one than is taken the last character may be cut: that is left out.
fn text_of(mut bytes: Vec<u8>) -> Result<String, FileFault> {
    if let Err(e) = str::from_utf8(bytes.as_slice()) {
        if e.valid_up_to() <= LONGEST {
            return Err(FileFault::NotText);
        }
        bytes.truncate(e.valid_up_to());
    }
    match String::from_utf8(bytes) {
        Ok(text) => Ok(text),
        Err(_) => Err(FileFault::NotText),
    }
}

/// The text of a file, or its beginning where it is longer than any that is taken, which is still too long.
pub fn read<R: Files>(rt: &R, alloc: Global, path: &str) -> Result<String, FileFault> {
    text_of(read_bytes(rt, alloc, path)?)
}
