//! A directory that answers with given bytes, or not at all.
use crate::sockets::{number, read_message, receive};
use std::alloc::Global;
use std::io::{self, ErrorKind, Write};
use std::net::{Ipv4Addr, Net, SocketAddr, TcpListener, TcpStream, UdpSocket};
use std::sync::atomic::{AtomicU64, Ordering};
use std::thread;
use std::time::{Clock, Duration};

/// How often a stream is looked for, and how long between, in milliseconds.
const LOOKS: u32 = 300;

const NAP: u64 = 10;

/// The moments to which a silent directory sets the clock, one after each request.
const MOMENTS: [u64; 4] = [2, 6, 14, 15];

/// How long a silent directory waits for the next request, in milliseconds.
const PATIENCE: u64 = 700;

/// How long another one waits for a request, in seconds.
const LONG_PATIENCE: u64 = 2;

/// What it answers: datagrams of another sender, its own, and the pieces of a stream. Each datagram and
/// the first piece get the number of the request.
#[derive(Drop)]
pub(crate) struct Answers {
    pub strays: Vec<Vec<u8>>,
    pub datagrams: Vec<Vec<u8>>,
    pub pieces: Vec<Vec<u8>>,
    /// Whether no stream can be opened.
    pub is_deaf: bool,
}

impl Answers {
    pub(crate) fn none(alloc: Global) -> Answers {
        Answers {
            strays: Vec::new(alloc),
            datagrams: Vec::new(alloc),
            pieces: Vec::new(alloc),
            is_deaf: false,
        }
    }
}

/// Its two sockets, at one port of loopback.
#[derive(Drop)]
pub(crate) struct Fake {
    socket: UdpSocket,
    listener: Option<TcpListener>,
}

// Sends each message with the number of a request.
fn send_all(
    socket: &UdpSocket,
    messages: &mut [Vec<u8>],
    xid: u16,
    to: SocketAddr,
) -> io::Result<()> {
    for message in messages.iter_mut() {
        number(message.as_mut_slice(), xid);
        socket.send_to(message.as_slice(), to)?;
    }
    Ok(())
}

// The number of a request.
fn number_of(request: &[u8]) -> u16 {
    match request.get(10..12) {
        Some([high, low]) => u16::from_be_bytes([*high, *low]),
        _ => 0,
    }
}

impl Fake {
    pub(crate) fn new<R>(rt: &R) -> io::Result<Fake>
    where
        R: Net<Listener = TcpListener, Stream = TcpStream>,
    {
        let listener = TcpListener::bind(rt, SocketAddr::from((Ipv4Addr::LOCALHOST, 0)))?;
        listener.set_nonblocking(true)?;
        let socket = UdpSocket::bind(rt, listener.local_addr()?)?;
        Ok(Fake {
            socket,
            listener: Some(listener),
        })
    }

    pub(crate) fn port(&self) -> io::Result<u16> {
        Ok(self.socket.local_addr()?.port())
    }

    // The stream that is opened, if one is.
    fn accept<R: Clock>(&self, rt: &R) -> io::Result<TcpStream> {
        for _ in 0..LOOKS {
            if let Some(listener) = self.listener.as_ref() {
                if let Ok((stream, _)) = listener.accept() {
                    stream.set_nonblocking(false)?;
                    stream.set_read_timeout(Some(Duration::from_secs(LONG_PATIENCE)))?;
                    return Ok(stream);
                }
            }
            thread::sleep(rt, Duration::from_millis(NAP));
        }
        Err(io::Error::from(ErrorKind::TimedOut))
    }

    // Answers on the stream that is opened, piece after piece: the request that came on it.
    fn answer_stream<R: Clock>(
        &self,
        rt: &R,
        alloc: Global,
        pieces: &mut [Vec<u8>],
    ) -> io::Result<Vec<u8>> {
        let mut stream = self.accept(rt)?;
        let request = read_message(alloc, &mut stream)?;
        if let Some(first) = pieces.first_mut() {
            number(first.as_mut_slice(), number_of(request.as_slice()));
        }
        for piece in pieces.iter() {
            stream.write_all(piece.as_slice())?;
            thread::sleep(rt, Duration::from_millis(NAP));
        }
        Ok(request)
    }

    // Answers by datagrams: the request that came.
    fn answer_datagram<R: Net>(
        &self,
        rt: &R,
        alloc: Global,
        answers: &mut Answers,
    ) -> io::Result<Vec<u8>> {
        self.socket
            .set_read_timeout(Some(Duration::from_secs(LONG_PATIENCE)))?;
        let (request, from) = receive(alloc, &self.socket)?;
        let xid = number_of(request.as_slice());
        let other = UdpSocket::bind(rt, SocketAddr::from((Ipv4Addr::LOCALHOST, 0)))?;
        send_all(&other, answers.strays.as_mut_slice(), xid, from)?;
        send_all(&self.socket, answers.datagrams.as_mut_slice(), xid, from)?;
        Ok(request)
    }

    /// Answers one request, by datagrams first if there are any, and then on a stream: the requests that came.
    pub(crate) fn answer<R>(
        &mut self,
        rt: &R,
        alloc: Global,
        answers: &mut Answers,
    ) -> io::Result<Vec<Vec<u8>>>
    where
        R: Net<Listener = TcpListener, Stream = TcpStream> + Clock,
    {
        if answers.is_deaf {
            self.listener = None;
        }
        let mut requests = Vec::new(alloc);
        if !answers.datagrams.is_empty() {
            requests.push(self.answer_datagram(rt, alloc, answers)?)?;
        }
        if !answers.pieces.is_empty() {
            requests.push(self.answer_stream(rt, alloc, answers.pieces.as_mut_slice())?)?;
        }
        Ok(requests)
    }

    /// Answers nothing, and sets the clock on after each request, where a datagram without meaning has the asker
    /// look at it. Prints the moments at which requests came.
    pub(crate) fn stay_silent<W: Write>(&self, moment: &AtomicU64, out: &mut W) -> io::Result<()> {
        self.socket
            .set_read_timeout(Some(Duration::from_millis(PATIENCE)))?;
        let mut buffer = [0; 512];
        let mut asker = None;
        out.write_all(b"*")?;
        for next in MOMENTS {
            if let Ok((_, from)) = self.socket.recv_from(&mut buffer) {
                asker = Some(from);
                write!(out, " {}", moment.load(Ordering::SeqCst))?;
            }
            moment.store(next, Ordering::SeqCst);
            if let Some(to) = asker {
                self.socket.send_to(b"?", to)?;
            }
        }
        out.write_all(b"\n")
    }
}
