//! Programs that the rows call: the tool and the check.
use crate::fake::{Answers, Fake};
use crate::handed::Handed;
use crate::printing::{print_lines, print_request};
use crate::scene::{NO_ANSWER, PATIENT, Scene};
use crate::sockets::pair;
use crate::words::{cut, number_of, words_of};
use site_check::check_run;
use std::fs::File;
use std::io::{self, Read, Write};
use std::net::{Ipv4Addr, Net, TcpListener, TcpStream};
use std::rt::Files;
use std::sync::Wait;
use std::sync::atomic::AtomicU64;
use std::thread::{Threads, join};
use std::time::{Clock, Duration};
use tool_program::tool_run;

/// What is called with a directory that is none: it, the words of the tool, and the two ends of the tool's input.
#[derive(Drop)]
struct Called {
    fake: Fake,
    words: Vec<String>,
    ours: TcpStream,
    theirs: TcpStream,
}

impl<'r, R> Scene<'r, R>
where
    R: Net<Listener = TcpListener, Stream = TcpStream>
        + Clock
        + Wait
        + Threads
        + Files<File = File>
        + Sync,
{
    // The words of the tool, with an address before them.
    fn words(&self, to: Ipv4Addr, port: u16, line: &str) -> io::Result<Vec<String>> {
        let line = format!(in self.alloc; "{to}:{port} {line}")?;
        Ok(words_of(self.alloc, line.as_str())?)
    }

    fn print_call(&self, status: u8, printed: &[u8], out: &mut Vec<u8>) -> io::Result<()> {
        print_lines(out, printed, self.times())?;
        writeln!(out, "= {status}")
    }

    // Has the tool not be called any more where it had no answer.
    fn note_status(&mut self, status: u8) {
        if status == NO_ANSWER {
            self.patience = 0;
        }
    }

    // A runtime whose clock runs, and which tells the seconds that rows set.
    fn handed(&self) -> Handed<'r, R> {
        Handed {
            rt: self.rt,
            moment: &self.props.steady,
            is_running: true,
            seconds: &self.props.seconds,
            asked: &self.props.asked,
        }
    }

    // The two ends of the tool's input, which begins with a line, and ends after so long.
    fn input(&self, after: u64) -> io::Result<(TcpStream, TcpStream)> {
        let (mut ours, theirs) = pair(self.rt)?;
        ours.write_all(b"a\n")?;
        theirs.set_read_timeout(Some(Duration::from_millis(after.max(1))))?;
        Ok((ours, theirs))
    }

    // Calls the tool, whose input ends after so long. Once it had no answer it is not called any more.
    fn call(&mut self, after: u64, words: &[String], out: &mut Vec<u8>) -> io::Result<()> {
        if self.patience == 0 {
            return out.write_all(b"(not called)\n");
        }
        let (_ours, theirs) = self.input(after)?;
        let mut printed = Vec::new(self.alloc);
        let status = tool_run(&self.handed(), self.alloc, words, theirs, &mut printed);
        self.note_status(status);
        self.print_call(status, printed.as_slice(), out)
    }

    // Calls the tool with these words as they are.
    pub(super) fn call_by_words(&mut self, line: &str, out: &mut Vec<u8>) -> io::Result<()> {
        let words = words_of(self.alloc, line)?;
        self.call(PATIENT, words.as_slice(), out)
    }

    // Calls the check of a site with these words as they are.
    pub(super) fn check(&self, line: &str, out: &mut Vec<u8>) -> io::Result<()> {
        let words = words_of(self.alloc, line)?;
        let mut printed = Vec::new(self.alloc);
        let status = check_run(self.rt, self.alloc, words.as_slice(), &mut printed);
        self.print_call(status, printed.as_slice(), out)
    }

    // Calls the tool at the agent.
    pub(super) fn tool(&mut self, after: u64, line: &str, out: &mut Vec<u8>) -> io::Result<()> {
        let words = self.words(self.place.to, self.place.port, line)?;
        self.call(after, words.as_slice(), out)
    }

    // Keeps a service registered for so long.
    pub(super) fn keep(&mut self, line: &str, out: &mut Vec<u8>) -> io::Result<()> {
        let (after, words) = cut(line);
        let words = format!(in self.alloc; "keep {words}")?;
        self.tool(number_of(after, 10_000), words.as_str(), out)
    }

    // What is called with a directory that is none, which is asked with these words.
    fn called(&self, line: &str) -> io::Result<Called> {
        let fake = Fake::new(self.rt)?;
        let words = self.words(Ipv4Addr::LOCALHOST, fake.port()?, line)?;
        let (ours, theirs) = pair(self.rt)?;
        Ok(Called {
            fake,
            words,
            ours,
            theirs,
        })
    }

    // Calls the tool with a directory that answers what the rows before said.
    pub(super) fn serve(&mut self, line: &str, out: &mut Vec<u8>) -> io::Result<()> {
        if self.patience == 0 {
            return out.write_all(b"(not called)\n");
        }
        let Called {
            mut fake,
            words,
            ours: _ours,
            theirs,
        } = self.called(line)?;
        let mut printed = Vec::new(self.alloc);
        let (rt, alloc, handed) = (self.rt, self.alloc, self.handed());
        let answers = &mut self.answers;
        let (requests, status) = join(
            rt,
            || fake.answer(rt, alloc, answers),
            || tool_run(&handed, alloc, words.as_slice(), theirs, &mut printed),
        );
        self.answers = Answers::none(self.alloc);
        self.note_status(status);
        self.print_served(&requests, status, printed.as_slice(), out)
    }

    // Prints what a directory was asked, where that is known, and what the tool printed.
    fn print_served(
        &self,
        requests: &io::Result<Vec<Vec<u8>>>,
        status: u8,
        printed: &[u8],
        out: &mut Vec<u8>,
    ) -> io::Result<()> {
        if let Ok(requests) = requests {
            self.print_requests(requests.as_slice(), out)?;
        }
        self.print_call(status, printed, out)
    }

    fn print_requests(&self, requests: &[Vec<u8>], out: &mut Vec<u8>) -> io::Result<()> {
        for request in requests {
            out.write_all(b"< ")?;
            print_request(out, request.as_slice(), self.times())?;
            out.write_all(b"\n")?;
        }
        Ok(())
    }

    // Calls the tool with a directory that is silent, by a clock that is handed in.
    pub(super) fn silent(&self, line: &str, out: &mut Vec<u8>) -> io::Result<()> {
        let Called {
            fake,
            words,
            ours: _ours,
            theirs,
        } = self.called(line)?;
        let moment = AtomicU64::new(0);
        let handed = Handed {
            rt: self.rt,
            moment: &moment,
            is_running: false,
            seconds: &self.props.seconds,
            asked: &self.props.asked,
        };
        let (mut printed, mut moments) = (Vec::new(self.alloc), Vec::new(self.alloc));
        let (_, status) = join(
            self.rt,
            || fake.stay_silent(&moment, &mut moments).is_ok(),
            || tool_run(&handed, self.alloc, words.as_slice(), theirs, &mut printed),
        );
        self.print_silent(moments.as_slice(), status, printed.as_slice(), out)
    }

    // Prints at which moments a directory was asked, and what the tool printed.
    fn print_silent(
        &self,
        moments: &[u8],
        status: u8,
        printed: &[u8],
        out: &mut Vec<u8>,
    ) -> io::Result<()> {
        out.write_all(moments)?;
        self.print_call(status, printed, out)
    }
}
