//! Rows about several loops.
use crate::meeting::{BESIDE, FIRST};
use crate::scene::Scene;
use crate::sockets::{receive, socket};
use std::fs::File;
use std::io::{self, Write};
use std::net::{Ipv4Addr, Net, SocketAddr, TcpListener, TcpStream, UdpSocket};
use std::rt::Files;
use std::sync::Wait;
use std::thread::Threads;
use std::time::Clock;

impl<'r, R> Scene<'r, R>
where
    R: Net<Listener = TcpListener, Stream = TcpStream>
        + Clock
        + Wait
        + Threads
        + Files<File = File>
        + Sync,
{
    // Sends a datagram to a loop, from a socket of its own: the first loop listens at 127.0.0.1, the second at 127.0.0.2.
    fn send_to_loop(&self, number: u8, message: &[u8]) -> io::Result<UdpSocket> {
        let socket = socket(self.rt, Ipv4Addr::LOCALHOST, self.wait())?;
        let to = Ipv4Addr::new(127, 0, 0, number);
        socket.send_to(message, SocketAddr::from((to, self.port())))?;
        Ok(socket)
    }

    // The reply that a socket has, if one comes.
    fn reply_of(&mut self, socket: &UdpSocket, out: &mut Vec<u8>) -> io::Result<()> {
        match receive(self.alloc, socket) {
            Ok((reply, _)) => self.print_reply(reply.as_slice(), out),
            Err(_) => self.print_no_reply(out),
        }
    }

    // Asks the second loop, once the first is inside its entry, and has that go on then.
    fn ask_second(&mut self, message: &[u8], out: &mut Vec<u8>) -> io::Result<()> {
        self.props.meeting.wait_for_first(self.rt);
        let second = self.send_to_loop(2, message)?;
        self.reply_of(&second, out)?;
        self.props.meeting.end();
        Ok(())
    }

    // Asks both loops the same.
    fn ask_both(&mut self, message: &[u8], out: &mut Vec<u8>) -> io::Result<()> {
        let first = self.send_to_loop(1, message)?;
        self.ask_second(message, out)?;
        self.reply_of(&first, out)
    }

    /// Sends the first loop what is no message. It enters what is published all the same, and stays there until it may go on.
    pub(crate) fn enter(&self, out: &mut Vec<u8>) -> io::Result<()> {
        self.props.meeting.call(FIRST);
        self.send_to_loop(1, &[0])?;
        self.print_unless_inside(out)
    }

    // Prints where the loop that was called does not come to be inside its entry.
    fn print_unless_inside(&self, out: &mut Vec<u8>) -> io::Result<()> {
        if self.props.meeting.wait_for_first(self.rt) {
            return Ok(());
        }
        out.write_all(b"(not inside)\n")
    }

    /// Sends the first loop a message that takes long. The loop beside it enters what is published, and stays there until it may go on.
    pub(crate) fn enter_beside(&mut self, text: &str, out: &mut Vec<u8>) -> io::Result<()> {
        let message = self.message(text)?;
        self.props.meeting.call(BESIDE);
        self.send_to_loop(1, message.as_slice())?;
        self.print_unless_inside(out)
    }

    /// Lets the loop go on.
    pub(crate) fn leave(&self) {
        self.props.meeting.end();
    }

    /// The first loop stays in its entry until the second has answered the same.
    pub(crate) fn two_loops_at_once(&mut self, text: &str, out: &mut Vec<u8>) -> io::Result<()> {
        let message = self.message(text)?;
        self.props.meeting.call(FIRST);
        self.ask_both(message.as_slice(), out)?;
        let told = if self.props.meeting.were_both_inside() {
            "# both were inside at once: yes\n"
        } else {
            "# both were inside at once: no\n"
        };
        out.write_all(told.as_bytes())
    }
}
