//! A reader and a writer that do as they are told.
use std::io;
use std::io::{ErrorKind, Read, Write};

/// Gives its bytes in pieces, and fails once, at one call.
#[derive(Drop)]
pub struct Source<'a> {
    pub rest: &'a [u8],
    pub piece: usize,
    pub calls: usize,
    pub trouble: Option<(usize, ErrorKind)>,
    /// What it gives after its bytes: the end, or else "would block".
    pub ends: bool,
}

impl<'a> Read for Source<'a> {
    fn read(&mut self, buf: &mut [u8]) -> io::Result<usize> {
        let call = self.calls;
        self.calls = call.saturating_add(1);
        if let Some((place, kind)) = self.trouble {
            if place == call {
                return Err(io::Error::from(kind));
            }
        }
        let count = self.piece.min(self.rest.len()).min(buf.len());
        if count == 0 && !self.ends {
            return Err(io::Error::from(ErrorKind::WouldBlock));
        }
        buf[..count].copy_from_slice(&self.rest[..count]);
        self.rest = &self.rest[count..];
        Ok(count)
    }
}

/// Takes bytes in pieces, and fails once, at one call.
#[derive(Drop)]
pub struct Sink {
    pub bytes: Vec<u8>,
    pub piece: usize,
    pub calls: usize,
    pub trouble: Option<(usize, ErrorKind)>,
}

impl Write for Sink {
    fn write(&mut self, buf: &[u8]) -> io::Result<usize> {
        let call = self.calls;
        self.calls = call.saturating_add(1);
        if let Some((place, kind)) = self.trouble {
            if place == call {
                return Err(io::Error::from(kind));
            }
        }
        let count = self.piece.min(buf.len());
        self.bytes.extend_from_slice(&buf[..count])?;
        Ok(count)
    }

    fn flush(&mut self) -> io::Result<()> {
        Ok(())
    }
}

/// Takes all that is written. Its `flush` fails from the moment that so many bytes are there.
#[derive(Drop)]
pub struct Unflushed {
    pub bytes: Vec<u8>,
    pub full: usize,
}

impl Write for Unflushed {
    fn write(&mut self, buf: &[u8]) -> io::Result<usize> {
        self.bytes.extend_from_slice(buf)?;
        Ok(buf.len())
    }

    fn flush(&mut self) -> io::Result<()> {
        if self.bytes.len() < self.full {
            Ok(())
        } else {
            Err(io::Error::from(ErrorKind::Other))
        }
    }
}
