ghost use Rattle.std.specs.Prelude.{◌≡◌, ◌+◌, ◌<◌, ◌≤◌, ◌↔◌, length, IfOk, IfSome, IsSome, IsTrue};
ghost use Rattle.std.specs.Duration.{as_nanos};
ghost use Rattle.std.specs.declared.net.ip_addr.IpAddr.TheVariants.{V4};
ghost use Rattle.std.specs.IoError.{error_kind};
ghost use Rattle.std.specs.Net.Socket.{socket_ip, socket_port};
ghost use Rattle.std.specs.Option.{SomeIff};
ghost use Rattle.agent_clients.specs.Sockets as spec;

use crate::fault::ClientFault;
use crate::wire::Wire;
use std::io::{self, ErrorKind, Read, Write};
use std::net::{Ipv4Addr, Net, SocketAddr, TcpStream, UdpSocket};
use std::time::{Clock, Duration, Instant};

/// How long a stream may take to open, or to take the request, in seconds.
const PATIENCE: u64 = 15;

// Whether a failed call means no more than that nothing came.
fn is_nothing(kind: ErrorKind) -> bool
    ensures { result ≡ spec.is_nothing kind }
{
    matches!(
        kind,
        ErrorKind::WouldBlock
            | ErrorKind::TimedOut
            | ErrorKind::Interrupted
            | ErrorKind::ConnectionRefused
    )
}

// A time in whole seconds.
pub(crate) fn moment_of(elapsed: Duration) -> u32
    ensures { result ≡ spec.moment_of elapsed }
{
    elapsed.as_secs().min(u64::from(u32::MAX)) as u32
}

// How long it is until a moment; `None` where it is past.
fn left_until(moment: u32, elapsed: Duration) -> Option<Duration>
    ensures variant { IsSome result ↔ (as_nanos elapsed < spec.nanos moment) }
    ensures some { IfSome result (λ left. as_nanos left + as_nanos elapsed ≡ spec.nanos moment) }
{
    match Duration::from_secs(u64::from(moment)).checked_sub(elapsed) {
        Some(left) if !left.is_zero() => Some(left),
        _ => None,
    }
}

// What comes of a datagram that is sent.
fn sent_by(told: io::Result<usize>) -> Result<(), ClientFault>
    ensures { result ≡ spec.sent_by told }
{
    match told {
        Ok(_) => Ok(()),
        Err(e) if is_nothing(e.kind()) => Ok(()),
        Err(_) => Err(ClientFault::Io),
    }
}

// What comes of a failed wait for bytes.
fn unless_nothing(kind: ErrorKind) -> Result<Option<usize>, ClientFault>
    ensures { result ≡ spec.unless_nothing kind }
{
    if is_nothing(kind) {
        Ok(None)
    } else {
        Err(ClientFault::Io)
    }
}

// What comes of a read of the stream.
fn read_by(told: io::Result<usize>) -> Result<Option<usize>, ClientFault>
    ensures { result ≡ spec.read_by told }
{
    match told {
        Ok(0) => Err(ClientFault::Io),
        Ok(count) => Ok(Some(count)),
        Err(e) => unless_nothing(e.kind()),
    }
}

// How many bytes of a datagram count: all, where the peer sent it.
fn counted(from: SocketAddr, peer: SocketAddr, count: usize) -> Option<usize>
    ensures { SomeIff result (from ≡ peer) count }
{
    if from == peer { Some(count) } else { None }
}

/// The clock and the sockets of one request. A stream is there once one is opened.
#[derive(Drop)]
pub(crate) struct Sockets<'r, R: Clock + Net> {
    rt: &'r R,
    start: Instant,
    socket: UdpSocket,
    peer: SocketAddr,
    stream: Option<TcpStream>,
}

// Any address and any port of this machine.
fn any_address() -> SocketAddr
    ensures { (socket_ip result ≡ V4 Ipv4Addr.UNSPECIFIED) × (socket_port result ≡ 0) }
{
    SocketAddr::from((Ipv4Addr::UNSPECIFIED, 0))
}

// How long a stream may take to open, or to take the request.
fn patience() -> Duration
    ensures { as_nanos result ≡ spec.nanos 15 }
{
    Duration::from_secs(PATIENCE)
}

impl<'r, R: Clock + Net> Sockets<'r, R> {
    /// A socket from which a peer is asked, and a clock that begins now.
    pub fn open(rt: &'r R, peer: SocketAddr) -> Result<Sockets<'r, R>, ClientFault> {
        let Ok(start) = Instant::now(rt) else {
            return Err(ClientFault::Io);
        };
        let Ok(socket) = UdpSocket::bind(rt, any_address()) else {
            return Err(ClientFault::Io);
        };
        Ok(Sockets {
            rt,
            start,
            socket,
            peer,
            stream: None,
        })
    }

    // How long it is until a moment; `None` where it is past.
    fn until(&self, moment: u32) -> Result<Option<Duration>, ClientFault> {
        match self.start.elapsed(self.rt) {
            Ok(elapsed) => Ok(left_until(moment, elapsed)),
            Err(_) => Err(ClientFault::Io),
        }
    }
}

// Waits for a datagram of a peer, this long at most.
fn receive_within(
    socket: &UdpSocket,
    peer: SocketAddr,
    left: Duration,
    buffer: &mut [u8],
) -> Result<Option<usize>, ClientFault>
    ensures { IfOk result (λ told. IfSome told (λ count. count ≤ length buffer.new)) }
{
    if socket.set_read_timeout(Some(left)).is_err() {
        return Err(ClientFault::Io);
    }
    match socket.recv_from(buffer) {
        Ok((count, from)) => Ok(counted(from, peer, count)),
        Err(e) => unless_nothing(e.kind()),
    }
}

// A stream to a peer on which a request was written.
fn stream_with<R>(rt: &R, peer: SocketAddr, request: &[u8]) -> io::Result<TcpStream>
where
    R: Net<Stream = TcpStream>,
{
    let mut stream = TcpStream::connect_timeout(rt, &peer, patience())?;
    stream.set_write_timeout(Some(patience()))?;
    stream.write_all(request)?;
    Ok(stream)
}

// Waits for bytes of a stream, this long at most.
fn read_within(
    stream: &mut TcpStream,
    left: Duration,
    buffer: &mut [u8],
) -> Result<Option<usize>, ClientFault>
    ensures { IfOk result (λ told. IfSome told (λ count. count ≤ length buffer.new)) }
{
    if stream.set_read_timeout(Some(left)).is_err() {
        return Err(ClientFault::Io);
    }
    read_by(stream.read(buffer))
}

impl<'r, R: Clock + Net<Stream = TcpStream>> Wire for Sockets<'r, R> {
    ghost use Rattle.std.specs.Prelude.{⊤};

    // What a system's clock and sockets give and take is in no clause.
    ghost may = { λ before deed after. ⊤ };

    fn now(&mut self) -> Result<u32, ClientFault> {
        match self.start.elapsed(self.rt) {
            Ok(elapsed) => Ok(moment_of(elapsed)),
            Err(_) => Err(ClientFault::Io),
        }
    }

    fn send(&mut self, request: &[u8]) -> Result<(), ClientFault> {
        sent_by(self.socket.send_to(request, self.peer))
    }

    fn receive(&mut self, until: u32, buffer: &mut [u8]) -> Result<Option<usize>, ClientFault> {
        match self.until(until) {
            Ok(Some(left)) => receive_within(&self.socket, self.peer, left, buffer),
            Ok(None) => Ok(None),
            Err(fault) => Err(fault),
        }
    }

    fn open(&mut self, request: &[u8]) -> bool {
        match stream_with(self.rt, self.peer, request) {
            Ok(stream) => {
                self.stream = Some(stream);
                true
            }
            Err(_) => false,
        }
    }

    fn read(&mut self, until: u32, buffer: &mut [u8]) -> Result<Option<usize>, ClientFault> {
        let left = match self.until(until) {
            Ok(Some(left)) => left,
            Ok(None) => return Ok(None),
            Err(fault) => return Err(fault),
        };
        match &mut self.stream {
            Some(stream) => read_within(stream, left, buffer),
            None => Err(ClientFault::Io),
        }
    }
}
