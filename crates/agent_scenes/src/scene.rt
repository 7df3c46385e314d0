//! The rows of a scene.
mod asking;
mod calling;

use crate::fake::Answers;
use crate::kinds::{AgentRow, PlaceRow, PrepareRow, Row, StreamRow, ToolRow, Way};
use crate::printing::{Times, print_bytes, print_runs};
use crate::props::Props;
use crate::sockets::{Sent, free_port, seconds, stream};
use crate::words::{address_of, cut, expanded, message_of, number_of};
use std::alloc::Global;
use std::fs::File;
use std::io::{self, BufReader, Read, Write};
use std::net::{Ipv4Addr, Net, SocketAddr, TcpListener, TcpStream, UdpSocket};
use std::rt::Files;
use std::sync::Wait;
use std::sync::atomic::Ordering;
use std::thread::Threads;
use std::time::{Clock, Duration};
use std::{fs, thread};

/// How long a reply or a line is waited for, in milliseconds; and how long once one did not come.
pub const PATIENT: u64 = 5_000;

/// The file with the configuration of an agent.
pub const CONFIG: &str = "agent.toml";

const HASTY: u64 = 300;

/// How long a row waits that is not to be answered.
const QUIET: u64 = 200;

/// How long an agent may take to end once its input ended.
const LATE: u64 = 3_000;

/// The status of the tool where no answer came.
const NO_ANSWER: u8 = 2;

/// The configuration of an agent without rules.
const SITE: &str = "scopes = \"DEFAULT\"\nlisten = [\"127.0.0.1:PORT\"]\ncapacity = 16\n";

/// How many characters of a row are printed.
const SHOWN: usize = 90;

/// More files than a process may open.
const MOST_FILES: u32 = 1_100_000;

/// A file that is written, line by line.
#[derive(Drop)]
struct Block {
    name: String,
    text: String,
}

/// Where the agent listens and from where it is asked, the number of the next message, and the lifetimes that are masked.
#[derive(Clone, Copy)]
struct Place {
    port: u16,
    to: Ipv4Addr,
    from: Ipv4Addr,
    xid: u16,
    near: u16,
}

/// What the rows of a scene act on: the two ends of the agent's terminal, what is held of it, the streams that are open,
/// what was sent and is not yet answered, what a directory that is none answers, and what is held.
#[derive(Drop)]
pub struct Scene<'r, R> {
    pub rt: &'r R,
    pub alloc: Global,
    pub props: &'r Props,
    place: Place,
    // How long a reply or a line is waited for, in milliseconds: less once one did not come, and 0 once the tool had none.
    patience: u64,
    console: Option<TcpStream>,
    log: BufReader<TcpStream>,
    streams: Vec<TcpStream>,
    sent: Vec<Sent>,
    answers: Answers,
    held: Option<UdpSocket>,
    taken: Option<TcpListener>,
    files: Vec<File>,
    block: Option<Block>,
    // When the agent's input ended.
    ended: Duration,
    fault: Option<io::Error>,
}

impl<'r, R> Scene<'r, R>
where
    R: Net<Listener = TcpListener, Stream = TcpStream>
        + Clock
        + Wait
        + Threads
        + Files<File = File>
        + Sync,
{
    /// A scene in which nothing was done yet, at a free port. It has the other ends of the agent's terminal.
    pub fn new(
        rt: &'r R,
        alloc: Global,
        props: &'r Props,
        patience: u64,
        (console, log): (TcpStream, TcpStream),
    ) -> io::Result<Scene<'r, R>> {
        let port = free_port(rt)?;
        Ok(Scene {
            rt,
            alloc,
            props,
            place: Place {
                port,
                to: Ipv4Addr::LOCALHOST,
                from: Ipv4Addr::LOCALHOST,
                xid: 1,
                near: 0,
            },
            patience,
            console: Some(console),
            log: BufReader::new(alloc, log)?,
            streams: Vec::new(alloc),
            sent: Vec::new(alloc),
            answers: Answers::none(alloc),
            held: None,
            taken: None,
            files: Vec::new(alloc),
            block: None,
            ended: Duration::from_secs(0),
            fault: None,
        })
    }

    pub(crate) fn port(&self) -> u16 {
        self.place.port
    }

    fn peer(&self) -> SocketAddr {
        SocketAddr::from((self.place.to, self.place.port))
    }

    fn times(&self) -> Times {
        Times {
            near: self.place.near,
            now: seconds(self.rt),
        }
    }

    // How long is waited, in milliseconds.
    pub(crate) fn wait(&self) -> u64 {
        self.patience.max(1)
    }

    pub(crate) fn message(&self, text: &str) -> io::Result<Vec<u8>> {
        Ok(message_of(self.alloc, self.place.xid, text)?)
    }

    // Prints a reply.
    pub(crate) fn print_reply(&self, reply: &[u8], out: &mut Vec<u8>) -> io::Result<()> {
        out.write_all(b"> ")?;
        print_bytes(out, reply, self.times())?;
        out.write_all(b"\n")
    }

    // Prints that no reply came.
    pub(crate) fn print_no_reply(&mut self, out: &mut Vec<u8>) -> io::Result<()> {
        self.patience = self.patience.min(HASTY);
        out.write_all(b"> -\n")
    }

    fn type_in(&mut self, text: &str, end: &str) {
        if let Some(console) = self.console.as_mut() {
            let _ = console.write_all(text.as_bytes());
            let _ = console.write_all(end.as_bytes());
        }
    }

    // A text with the agent's port for `PORT`.
    fn with_port(&self, text: &str) -> io::Result<String> {
        let port = format!(in self.alloc; "{}", self.place.port)?;
        Ok(text.replace(self.alloc, "PORT", port.as_str())?)
    }

    // Writes the configuration of an agent in one scope, at one address, with a file of rules where one is named.
    fn write_site(&self, rules: &str) -> io::Result<()> {
        let mut text = self.with_port(SITE)?;
        if !rules.is_empty() {
            writeln!(text, "rules = \"{rules}\"")?;
        }
        fs::write(self.rt, CONFIG, text.as_str())
    }

    // Appends a line to the text of a file.
    fn add_line(&self, text: &mut String, line: &str) -> io::Result<()> {
        let line = self.with_port(line)?;
        text.push_str(line.as_str())?;
        text.push_str("\n")?;
        Ok(())
    }

    // Takes a line of a file, or its end.
    fn take_line(&mut self, mut block: Block, line: &str) -> io::Result<()> {
        if line == "." {
            return fs::write(self.rt, block.name.as_str(), block.text.as_str());
        }
        self.add_line(&mut block.text, line)?;
        self.block = Some(block);
        Ok(())
    }

    // Takes the agent's address before it does.
    fn take_port(&mut self) -> io::Result<()> {
        let listener = TcpListener::bind(self.rt, self.peer())?;
        self.taken = Some(listener);
        Ok(())
    }

    // What a directory that is none will answer, in one of three ways.
    fn add_answer(&mut self, way: Way, text: &str) -> io::Result<()> {
        let bytes = self.message(text)?;
        let answers = match way {
            Way::Stray => &mut self.answers.strays,
            Way::Reply => &mut self.answers.datagrams,
            Way::Piece => &mut self.answers.pieces,
        };
        answers.push(bytes)?;
        Ok(())
    }

    fn begin_file(&mut self, name: &str) -> io::Result<()> {
        self.block = Some(Block {
            name: String::from_str(self.alloc, name)?,
            text: String::new(self.alloc),
        });
        Ok(())
    }

    // Rows that say how others are meant.
    fn place(&mut self, row: PlaceRow, rest: &str) {
        match row {
            PlaceRow::At => self.place.to = address_of(rest),
            PlaceRow::From => self.place.from = address_of(rest),
            PlaceRow::Near => self.place.near = number_of(rest, 65_535) as u16,
            PlaceRow::Xid => self.place.xid = number_of(rest, 65_535) as u16,
            PlaceRow::Clock => {
                let seconds = number_of(rest, u64::from(u32::MAX));
                self.props.seconds.store(seconds, Ordering::SeqCst);
            }
            PlaceRow::Steady => {
                let seconds = number_of(rest, u64::from(u32::MAX));
                self.props.steady.store(seconds, Ordering::SeqCst);
            }
        }
    }

    // Rows that prepare something.
    fn prepare(&mut self, row: PrepareRow, rest: &str) -> io::Result<()> {
        match row {
            PrepareRow::File => self.begin_file(rest),
            PrepareRow::Site => self.write_site(rest),
            PrepareRow::Remove => fs::remove_file(self.rt, rest),
            PrepareRow::Taken => self.take_port(),
            PrepareRow::Answer(place) => self.add_answer(place, rest),
            PrepareRow::Deaf => {
                self.answers.is_deaf = true;
                Ok(())
            }
            PrepareRow::NoFiles => self.take_files(),
            PrepareRow::Files => {
                self.files.clear();
                Ok(())
            }
        }
    }

    // Rows about streams, and about many messages at once.
    fn stream(&mut self, row: StreamRow, rest: &str, out: &mut Vec<u8>) -> io::Result<()> {
        match row {
            StreamRow::Open => self.open(),
            StreamRow::Send => self.send(rest),
            StreamRow::Take => self.take(out),
            StreamRow::Still => self.still(out),
            StreamRow::Close => {
                self.streams.pop();
                Ok(())
            }
            StreamRow::Reset => {
                self.reset();
                Ok(())
            }
            StreamRow::Datagrams => self.datagrams(rest),
            StreamRow::Streams => self.streams(rest),
            StreamRow::Messages => self.messages(rest),
            StreamRow::Replies => self.replies(out),
        }
    }

    // Rows that ask the agent.
    fn ask_agent(&mut self, row: AgentRow, rest: &str, out: &mut Vec<u8>) -> io::Result<()> {
        match row {
            AgentRow::Udp => self.udp(rest, out),
            AgentRow::Quiet => self.quiet(rest, out),
            AgentRow::Hold => self.hold(rest, out),
            AgentRow::Held => self.held(out),
            AgentRow::Release => self.release(out),
            AgentRow::Log => self.log(out),
            AgentRow::Console(end) => {
                self.type_in(rest, end);
                Ok(())
            }
            AgentRow::TwoLoopsAtOnce => self.two_loops_at_once(rest, out),
            AgentRow::Enter => self.enter(out),
            AgentRow::EnterBeside => self.enter_beside(rest, out),
            AgentRow::Leave => {
                self.leave();
                Ok(())
            }
            AgentRow::Pause => {
                thread::sleep(self.rt, Duration::from_millis(number_of(rest, 10_000)));
                Ok(())
            }
            AgentRow::Idle => self.idle(rest, out),
        }
    }

    // Prints whether an agent that has nothing to do asks for its clock, or for a sleep, more than 20 times a second.
    fn idle(&self, text: &str, out: &mut Vec<u8>) -> io::Result<()> {
        let millis = number_of(text, 10_000);
        let before = self.props.asked.clock.load(Ordering::SeqCst);
        thread::sleep(self.rt, Duration::from_millis(millis));
        let after = self.props.asked.clock.load(Ordering::SeqCst);
        let times = after.saturating_sub(before);
        if times.saturating_mul(50) > millis {
            return writeln!(out, "# its clock was asked {times} times");
        }
        out.write_all(b"# idle\n")
    }

    // Rows that call a program, other than the agent.
    fn call_tool(&mut self, row: ToolRow, rest: &str, out: &mut Vec<u8>) -> io::Result<()> {
        match row {
            ToolRow::Tool => self.tool(PATIENT, rest, out),
            ToolRow::Keep => self.keep(rest, out),
            ToolRow::Call => self.call_by_words(rest, out),
            ToolRow::Serve => self.serve(rest, out),
            ToolRow::Silent => self.silent(rest, out),
            ToolRow::Sockets => self.props.asked.print(out),
            ToolRow::Check => self.check(rest, out),
        }
    }

    fn row(&mut self, row: Row, rest: &str, out: &mut Vec<u8>) -> io::Result<()> {
        match row {
            Row::Place(row) => {
                self.place(row, rest);
                Ok(())
            }
            Row::Prepare(row) => self.prepare(row, rest),
            Row::Stream(row) => self.stream(row, rest, out),
            Row::Agent(row) => self.ask_agent(row, rest, out),
            Row::Tool(row) => self.call_tool(row, rest, out),
            Row::None => out.write_all(b"(no row)\n"),
        }
    }

    // Prints a row, and then what comes of it.
    fn told_row(&mut self, line: &str, text: &str, out: &mut Vec<u8>) -> io::Result<()> {
        writeln!(out, ": {}", line.get(..SHOWN).unwrap_or(line))?;
        let (word, rest) = cut(text);
        self.row(Row::of(word), rest, out)
    }

    fn line(&mut self, line: &str, out: &mut Vec<u8>) -> io::Result<()> {
        let text = expanded(self.alloc, line)?;
        if let Some(block) = self.block.take() {
            return self.take_line(block, text.as_str());
        }
        if line.is_empty() {
            return Ok(());
        }
        if line.starts_with('#') {
            return writeln!(out, "{line}");
        }
        self.told_row(line, text.as_str(), out)
    }

    // Runs rows, and prints what comes of them.
    fn run(&mut self, text: &str, out: &mut Vec<u8>) -> io::Result<()> {
        for line in text.lines() {
            self.line(line, out)?;
        }
        Ok(())
    }

    // Keeps the fault of a row that failed itself, which no agent has to do with. It ends its scene.
    fn keep_fault(&mut self, told: io::Result<()>) {
        if let Err(fault) = told {
            self.fault = Some(fault);
        }
    }

    /// Runs the rows that prepare a scene, and prints what comes of them.
    pub fn begin(&mut self, text: &str, out: &mut Vec<u8>) {
        let told = self.run(text, out);
        self.keep_fault(told);
    }

    /// Runs the rows that meet an agent, prints what comes of them, and then ends the agent's input.
    pub fn meet(&mut self, start: &str, text: &str, out: &mut Vec<u8>) {
        let told = match writeln!(out, ": start{start}") {
            Ok(()) => self.run(text, out),
            Err(fault) => Err(fault),
        };
        self.keep_fault(told);
        self.props.by_words.valve.open();
        self.console = None;
        if let Ok(now) = self.rt.monotonic() {
            self.ended = now;
        }
    }

    // Whether the agent took long to end.
    fn is_late(&self) -> bool {
        match self.rt.monotonic() {
            Ok(now) => now.saturating_sub(self.ended) > Duration::from_millis(LATE),
            Err(_) => false,
        }
    }

    // Prints what is left of the agent's output, and its status.
    fn print_end(&mut self, status: u8, out: &mut Vec<u8>) -> io::Result<()> {
        let late = if self.is_late() { " (late)" } else { "" };
        let patience = Some(Duration::from_millis(HASTY));
        self.log.get_ref().set_read_timeout(patience)?;
        let mut rest = Vec::new(self.alloc);
        let _ = self.log.read_to_end(&mut rest);
        print_runs(out, rest.as_slice())?;
        writeln!(out, "= {status}{late}")
    }

    // Prints the row that failed itself, if one did.
    fn print_fault(&self, out: &mut Vec<u8>) -> io::Result<()> {
        match &self.fault {
            Some(fault) => writeln!(out, "(a row failed: {fault})"),
            None => Ok(()),
        }
    }

    // Prints how the scene ended.
    fn print_ending(&mut self, status: Option<u8>, out: &mut Vec<u8>) -> io::Result<()> {
        self.print_fault(out)?;
        match status {
            Some(status) => self.print_end(status, out),
            None => Ok(()),
        }
    }

    /// Prints how an agent ended, if there was one, and answers how long the next scene waits.
    pub fn end(mut self, status: Option<u8>, out: &mut Vec<u8>) -> io::Result<u64> {
        let told = self.print_ending(status, out);
        let patience = self.patience;
        drop(self);
        told?;
        Ok(patience)
    }
}
