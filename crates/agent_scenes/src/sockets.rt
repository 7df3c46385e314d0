//! Sockets over loopback: ports that are free, the two ends of a stream, messages, and many at once.
use std::alloc::Global;
use std::io::{self, ErrorKind, Read, Write};
use std::net::{Ipv4Addr, Net, SocketAddr, TcpListener, TcpStream, UdpSocket};
use std::time::{Clock, Duration, SystemTime, UNIX_EPOCH};

/// The first of the ports that are tried: below those that a system hands out by itself.
const FIRST: u16 = 20_000;

/// How many ports are tried.
const TRIES: u16 = 100;

/// The bytes of the longest message.
const LONGEST: usize = 65_535;

/// How long it is looked whether more comes than was asked for, in milliseconds.
const MORE: u64 = 50;

// The time since 1970; none where the clock can't be read.
fn since_1970<R: Clock>(rt: &R) -> Duration {
    let Ok(now) = SystemTime::now(rt) else {
        return Duration::from_secs(0);
    };
    match now.duration_since(UNIX_EPOCH) {
        Ok(since) => since,
        Err(_) => Duration::from_secs(0),
    }
}

/// The seconds since 1970.
pub(crate) fn seconds<R: Clock>(rt: &R) -> u64 {
    since_1970(rt).as_secs()
}

// Whether a port is free for datagrams and for streams, at every address.
fn is_free<R>(rt: &R, port: u16) -> bool
where
    R: Net<Listener = TcpListener, Stream = TcpStream>,
{
    let any = SocketAddr::from((Ipv4Addr::UNSPECIFIED, port));
    TcpListener::bind(rt, any).is_ok() && UdpSocket::bind(rt, any).is_ok()
}

/// A port that is free: another one at each moment.
pub(crate) fn free_port<R>(rt: &R) -> io::Result<u16>
where
    R: Net<Listener = TcpListener, Stream = TcpStream> + Clock,
{
    let first = FIRST.saturating_add((since_1970(rt).subsec_nanos() / 1_000 % 10_000) as u16);
    for step in 0..TRIES {
        let port = first.saturating_add(step);
        if is_free(rt, port) {
            return Ok(port);
        }
    }
    Err(io::Error::from(ErrorKind::AddrInUse))
}

/// The two ends of a stream: what is written to one is read from the other, which ends with it.
pub(crate) fn pair<R>(rt: &R) -> io::Result<(TcpStream, TcpStream)>
where
    R: Net<Listener = TcpListener, Stream = TcpStream>,
{
    let listener = TcpListener::bind(rt, SocketAddr::from((Ipv4Addr::LOCALHOST, 0)))?;
    let ours = TcpStream::connect(rt, listener.local_addr()?)?;
    let (theirs, _) = listener.accept()?;
    Ok((ours, theirs))
}

/// A socket for datagrams at an address, which waits for one so long at most, in milliseconds.
pub(crate) fn socket<R: Net>(rt: &R, at: Ipv4Addr, patience: u64) -> io::Result<UdpSocket> {
    let socket = UdpSocket::bind(rt, SocketAddr::from((at, 0)))?;
    socket.set_read_timeout(Some(Duration::from_millis(patience)))?;
    Ok(socket)
}

/// A stream to an address, which is read for so long at most, in milliseconds.
pub(crate) fn stream<R>(rt: &R, to: SocketAddr, patience: u64) -> io::Result<TcpStream>
where
    R: Net<Stream = TcpStream>,
{
    let stream = TcpStream::connect(rt, to)?;
    stream.set_read_timeout(Some(Duration::from_millis(patience)))?;
    Ok(stream)
}

/// The next datagram, and from where it comes.
pub(crate) fn receive(alloc: Global, socket: &UdpSocket) -> io::Result<(Vec<u8>, SocketAddr)> {
    let mut bytes = vec![in alloc; 0; LONGEST]?;
    let (count, from) = socket.recv_from(bytes.as_mut_slice())?;
    bytes.truncate(count);
    Ok((bytes, from))
}

/// A whole message of a stream, by the length in its header.
pub(crate) fn read_message(alloc: Global, stream: &mut TcpStream) -> io::Result<Vec<u8>> {
    let mut head = [0; 5];
    stream.read_exact(&mut head)?;
    let [_, _, high, middle, low] = head;
    let length = u64::from(u32::from_be_bytes([0, high, middle, low]));
    let mut message = Vec::from_slice(alloc, &head)?;
    stream
        .take(length.saturating_sub(5))
        .read_to_end(&mut message)?;
    Ok(message)
}

/// Gives a message a number.
pub(crate) fn number(message: &mut [u8], xid: u16) {
    if let Some(field) = message.get_mut(10..12) {
        field.copy_from_slice(&xid.to_be_bytes());
    }
}

// Whether a message has a number.
fn has_number(message: &[u8], xid: u16) -> bool {
    message.get(10..12) == Some(xid.to_be_bytes().as_slice())
}

/// Messages that were sent, numbered from the first on, and whose replies are not yet read.
#[derive(Drop)]
pub(crate) enum Sent {
    Datagrams(UdpSocket, u16),
    Stream(TcpStream, u16, u16),
}

/// Sends a message so many times at once, numbered from 0 on.
pub(crate) fn send_datagrams(
    socket: UdpSocket,
    to: SocketAddr,
    message: &mut [u8],
    count: u16,
) -> io::Result<Sent> {
    for xid in 0..count {
        number(message, xid);
        socket.send_to(message, to)?;
    }
    Ok(Sent::Datagrams(socket, count))
}

/// Writes a message so many times at once, numbered from a first one on.
pub(crate) fn send_messages(
    alloc: Global,
    mut stream: TcpStream,
    message: &mut [u8],
    (first, count): (u16, u16),
) -> io::Result<Sent> {
    let mut all = Vec::new(alloc);
    for step in 0..count {
        number(message, first.wrapping_add(step));
        all.extend_from_slice(message)?;
    }
    stream.write_all(all.as_slice())?;
    Ok(Sent::Stream(stream, first, count))
}

// How many datagrams come in order, each once; none where more come than were asked for.
fn datagrams_in_order(alloc: Global, socket: &UdpSocket, count: u16) -> u16 {
    for xid in 0..count {
        match receive(alloc, socket) {
            Ok((reply, _)) if has_number(reply.as_slice(), xid) => {}
            _ => return xid,
        }
    }
    let _ = socket.set_read_timeout(Some(Duration::from_millis(MORE)));
    if receive(alloc, socket).is_ok() {
        0
    } else {
        count
    }
}

// How many messages of a stream come in order.
fn messages_in_order(alloc: Global, stream: &mut TcpStream, first: u16, count: u16) -> u16 {
    for step in 0..count {
        match read_message(alloc, stream) {
            Ok(reply) if has_number(reply.as_slice(), first.wrapping_add(step)) => {}
            _ => return step,
        }
    }
    count
}

/// How many replies come in order, each once.
pub(crate) fn replies_in_order(alloc: Global, sent: &mut Sent) -> u16 {
    match sent {
        Sent::Datagrams(socket, count) => datagrams_in_order(alloc, socket, *count),
        Sent::Stream(stream, first, count) => messages_in_order(alloc, stream, *first, *count),
    }
}
