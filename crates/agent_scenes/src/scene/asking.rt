//! What the rows ask an agent: by datagrams and on streams; and what it prints.
use crate::scene::{HASTY, MOST_FILES, QUIET, Scene};
use crate::sockets::{
    read_message, receive, replies_in_order, send_datagrams, send_messages, socket, stream,
};
use crate::words::{cut, number_of};
use std::fs;
use std::fs::File;
use std::io::{self, BufRead, ErrorKind, Read, Write};
use std::net::{Net, TcpListener, TcpStream, UdpSocket};
use std::rt::Files;
use std::sync::Wait;
use std::thread::Threads;
use std::time::{Clock, Duration};

impl<R> Scene<'_, R>
where
    R: Net<Listener = TcpListener, Stream = TcpStream>
        + Clock
        + Wait
        + Threads
        + Files<File = File>
        + Sync,
{
    // Sends a datagram, and waits for one.
    fn ask(&self, message: &[u8], patience: u64) -> io::Result<Vec<u8>> {
        let socket = socket(self.rt, self.place.from, patience)?;
        socket.send_to(message, self.peer())?;
        Ok(receive(self.alloc, &socket)?.0)
    }

    pub(super) fn udp(&mut self, text: &str, out: &mut Vec<u8>) -> io::Result<()> {
        let message = self.message(text)?;
        match self.ask(message.as_slice(), self.wait()) {
            Ok(reply) => self.print_reply(reply.as_slice(), out),
            Err(_) => self.print_no_reply(out),
        }
    }

    // Sends a datagram that is not to be answered.
    pub(super) fn quiet(&self, text: &str, out: &mut Vec<u8>) -> io::Result<()> {
        let message = self.message(text)?;
        match self.ask(message.as_slice(), QUIET) {
            Ok(reply) => self.print_reply(reply.as_slice(), out),
            Err(_) => out.write_all(b"> -\n"),
        }
    }

    // Closes the valve, sends a datagram for which the agent can't ask for the time then, and waits until it waits there. No reply leaves before.
    // Without a message it closes the valve alone.
    pub(super) fn hold(&mut self, text: &str, out: &mut Vec<u8>) -> io::Result<()> {
        self.props.by_words.valve.close();
        if text.is_empty() {
            return Ok(());
        }
        let message = self.message(text)?;
        let socket = socket(self.rt, self.place.from, QUIET)?;
        socket.send_to(message.as_slice(), self.peer())?;
        self.print_held(&socket, out)?;
        self.held = Some(socket);
        Ok(())
    }

    // Waits until the agent waits at the valve, and prints where it does not.
    pub(super) fn held(&self, out: &mut Vec<u8>) -> io::Result<()> {
        if self.props.by_words.valve.is_reached(self.rt) {
            return Ok(());
        }
        out.write_all(b"(not held)\n")
    }

    // The same, and prints where a reply came all the same.
    fn print_held(&self, socket: &UdpSocket, out: &mut Vec<u8>) -> io::Result<()> {
        self.held(out)?;
        match receive(self.alloc, socket) {
            Ok(_) => out.write_all(b"(answered)\n"),
            Err(_) => Ok(()),
        }
    }

    // Opens the valve, and prints the reply to the datagram that was held.
    pub(super) fn release(&mut self, out: &mut Vec<u8>) -> io::Result<()> {
        self.props.by_words.valve.open();
        let Some(socket) = self.held.take() else {
            return Ok(());
        };
        socket.set_read_timeout(Some(Duration::from_millis(self.wait())))?;
        match receive(self.alloc, &socket) {
            Ok((reply, _)) => self.print_reply(reply.as_slice(), out),
            Err(_) => self.print_no_reply(out),
        }
    }

    // Opens a stream, which the next rows mean.
    pub(super) fn open(&mut self) -> io::Result<()> {
        let stream = stream(self.rt, self.peer(), self.wait())?;
        self.streams.push(stream)?;
        Ok(())
    }

    // Writes a piece on the stream that was opened last.
    pub(super) fn send(&mut self, text: &str) -> io::Result<()> {
        let piece = self.message(text)?;
        if let Some(stream) = self.streams.last_mut() {
            let _ = stream.write_all(piece.as_slice());
        }
        Ok(())
    }

    // A message of the stream that was opened last, or that it ended.
    pub(super) fn take(&mut self, out: &mut Vec<u8>) -> io::Result<()> {
        let Some(stream) = self.streams.last_mut() else {
            return out.write_all(b"(no stream)\n");
        };
        match read_message(self.alloc, stream) {
            Ok(reply) => self.print_reply(reply.as_slice(), out),
            Err(e) if matches!(e.kind(), ErrorKind::WouldBlock | ErrorKind::TimedOut) => {
                self.print_no_reply(out)
            }
            Err(_) => out.write_all(b"> closed\n"),
        }
    }

    // The same where no message is to come.
    pub(super) fn still(&mut self, out: &mut Vec<u8>) -> io::Result<()> {
        let (wait, patience) = (self.wait(), self.patience);
        self.set_stream_patience(QUIET)?;
        let told = self.take(out);
        self.set_stream_patience(wait)?;
        self.patience = patience;
        told
    }

    // How long the stream that was opened last is read, in milliseconds.
    fn set_stream_patience(&self, millis: u64) -> io::Result<()> {
        match self.streams.last() {
            Some(stream) => stream.set_read_timeout(Some(Duration::from_millis(millis))),
            None => Ok(()),
        }
    }

    // Ends the stream that was opened last, where a byte is taken first and others are left: so it is reset.
    pub(super) fn reset(&mut self) {
        if let Some(mut stream) = self.streams.pop() {
            let mut byte = [0; 1];
            let _ = stream.read(&mut byte);
            drop(stream);
        }
    }

    // Sends a message so many times at once from one socket.
    pub(super) fn datagrams(&mut self, text: &str) -> io::Result<()> {
        let (count, text) = cut(text);
        let mut message = self.message(text)?;
        let socket = socket(self.rt, self.place.from, self.wait())?;
        let count = number_of(count, 60_000) as u16;
        let sent = send_datagrams(socket, self.peer(), message.as_mut_slice(), count)?;
        self.sent.push(sent)?;
        Ok(())
    }

    // Opens a stream, and writes a message so many times at once, numbered from a first one on.
    fn send_on_stream(&mut self, message: &mut [u8], numbers: (u16, u16)) -> io::Result<()> {
        let stream = stream(self.rt, self.peer(), self.wait())?;
        let sent = send_messages(self.alloc, stream, message, numbers)?;
        self.sent.push(sent)?;
        Ok(())
    }

    // Opens so many streams, and writes a message on each.
    pub(super) fn streams(&mut self, text: &str) -> io::Result<()> {
        let (count, text) = cut(text);
        let mut message = self.message(text)?;
        for xid in 0..number_of(count, 1_000) {
            self.send_on_stream(message.as_mut_slice(), (xid as u16, 1))?;
        }
        Ok(())
    }

    // Opens a stream, and writes a message so many times at once.
    pub(super) fn messages(&mut self, text: &str) -> io::Result<()> {
        let (count, text) = cut(text);
        let mut message = self.message(text)?;
        let numbers = (0, number_of(count, 60_000) as u16);
        self.send_on_stream(message.as_mut_slice(), numbers)
    }

    // Waits for the replies to what was sent at once, and prints how many came in order.
    pub(super) fn replies(&mut self, out: &mut Vec<u8>) -> io::Result<()> {
        let mut count = 0u64;
        for sent in self.sent.iter_mut() {
            count = count.saturating_add(u64::from(replies_in_order(self.alloc, sent)));
        }
        self.sent.clear();
        writeln!(out, "> {count} replies")
    }

    // Opens files until no more can be opened, and no socket either.
    pub(super) fn take_files(&mut self) -> io::Result<()> {
        for _ in 0..MOST_FILES {
            match fs::open(self.rt, "agent.toml") {
                Ok(file) => self.files.push(file)?,
                Err(_) => break,
            }
        }
        Ok(())
    }

    // The next line of the agent's output.
    pub(super) fn log(&mut self, out: &mut Vec<u8>) -> io::Result<()> {
        let patience = Some(Duration::from_millis(self.wait()));
        self.log.get_ref().set_read_timeout(patience)?;
        let mut line = Vec::new(self.alloc);
        let told = self.log.read_until(b'\n', &mut line);
        if told.is_err() || line.is_empty() {
            self.patience = self.patience.min(HASTY);
            return out.write_all(b"(no line)\n");
        }
        out.write_all(line.as_slice())
    }
}
