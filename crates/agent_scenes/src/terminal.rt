//! The terminal of an agent: two streams, of which rows have the other ends.
use crate::sockets::pair;
use std::alloc::Global;
use std::io::{self, Write};
use std::net::{Net, TcpListener, TcpStream};
use std::sync::atomic::{AtomicBool, Ordering};
use std::thread;
use std::time::{Clock, Duration};

/// How many bytes one write takes.
const TAKEN: usize = 10;

/// How often a closed valve is looked at, and how long between, in milliseconds.
const LOOKS: u32 = 6_000;

const NAP: u64 = 5;

/// Holds who asks for the time, and tells that one waits.
#[derive(Drop)]
pub struct Valve {
    is_closed: AtomicBool,
    is_waited_at: AtomicBool,
}

impl Valve {
    pub(crate) fn new() -> Valve {
        Valve {
            is_closed: AtomicBool::new(false),
            is_waited_at: AtomicBool::new(false),
        }
    }

    pub(crate) fn close(&self) {
        self.is_closed.store(true, Ordering::SeqCst);
    }

    pub(crate) fn open(&self) {
        self.is_closed.store(false, Ordering::SeqCst);
    }

    /// Waits until the valve is open, for thirty seconds at most.
    pub(crate) fn pass<R: Clock>(&self, rt: &R) {
        for _ in 0..LOOKS {
            if !self.is_closed.load(Ordering::SeqCst) {
                break;
            }
            self.is_waited_at.store(true, Ordering::SeqCst);
            thread::sleep(rt, Duration::from_millis(NAP));
        }
        self.is_waited_at.store(false, Ordering::SeqCst);
    }

    /// Waits until someone waits at the valve, for thirty seconds at most, and answers whether one does.
    pub(crate) fn is_reached<R: Clock>(&self, rt: &R) -> bool {
        for _ in 0..LOOKS {
            if self.is_waited_at.load(Ordering::SeqCst) {
                return true;
            }
            thread::sleep(rt, Duration::from_millis(NAP));
        }
        false
    }
}

/// What an agent writes to. Only what it has flushed comes out; and a write takes some bytes alone.
#[derive(Drop)]
pub struct Terminal {
    stream: TcpStream,
    waiting: Vec<u8>,
}

impl Write for Terminal {
    fn write(&mut self, buf: &[u8]) -> io::Result<usize> {
        let count = buf.len().min(TAKEN);
        self.waiting.extend_from_slice(&buf[..count])?;
        Ok(count)
    }

    fn flush(&mut self) -> io::Result<()> {
        let told = self.stream.write_all(self.waiting.as_slice());
        self.waiting.clear();
        told
    }
}

/// The two ends of a terminal: what an agent reads and writes, and what rows have of it.
pub fn open_terminal<R>(
    rt: &R,
    alloc: Global,
) -> io::Result<(TcpStream, Terminal, (TcpStream, TcpStream))>
where
    R: Net<Listener = TcpListener, Stream = TcpStream>,
{
    let (console, input) = pair(rt)?;
    let (log, output) = pair(rt)?;
    let terminal = Terminal {
        stream: output,
        waiting: Vec::new(alloc),
    };
    Ok((input, terminal, (console, log)))
}
