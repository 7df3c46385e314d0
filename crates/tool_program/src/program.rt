ghost use Rattle.std.specs.Prelude.{◌≡◌, ◌≤◌, None, Some, Result, length, map, string_bytes, IfSome, OnOk};
ghost use Rattle.std.specs.Io.KnownBytes.{Appends, IsAtEnd};
ghost use Rattle.std.specs.IoError.{error_kind};
ghost use Rattle.std.specs.Option.{option_map};
ghost use Rattle.agent_clients.specs.Keeping.{IsRegistration};
ghost use Rattle.agent_clients.specs.declared.fault.ClientFault.{ClientFault};
ghost use Rattle.agent_clients.specs.declared.items.Items.{Items};
ghost use Rattle.tool_program.specs.Calls.{call_in, call_of, peer_of, told_status, told_text, unread, usage_text, Answers, IsReported};
ghost use Rattle.tool_program.specs.Commands.{asked};
ghost use Rattle.tool_program.specs.Calls as spec;

use crate::command::{Command, header_with};
use crate::printing::{fault_status, print_fault, print_items};
use addresses::Addr;
use agent_clients::{ClientFault, Items, ServiceAgent, ask, keep_alive, registration};
use std::alloc::Global;
use std::io::{self, ErrorKind, Read, Write};
use std::net::{Ipv4Addr, Net, SocketAddr, SocketAddrV4, TcpStream};
use std::sync::atomic::{AtomicBool, Ordering};
use std::sync::{Arc, Wait};
use std::thread;
use std::thread::Threads;
use std::time::{Clock, SystemTime, UNIX_EPOCH};

/// The status of a call with words that are not understood.
const USAGE: u8 = 64;

/// How the tool is called.
const USAGE_LINE: &str = "usage: slptool HOST:PORT COMMAND\n";

/// The status where no memory is found before anything is asked.
const NO_MEMORY: u8 = 4;

/// The status of a call whose output failed.
const UNWRITTEN: u8 = 1;

/// The bytes that one read of the input asks for.
const CHUNK: usize = 256;

// The number of a request that is sent so many seconds after 1970: they modulo 65,536, and 1 where that is 0.
fn xid_of(seconds: u64) -> u16
    ensures { result ≡ spec.xid_of seconds }
{
    match (seconds % 65_536) as u16 {
        0 => 1,
        xid => xid,
    }
}

// The number of the request: by the clock, and 1 where that can't be read.
fn xid_now<C: Clock>(clock: &C) -> u16 {
    let Ok(now) = SystemTime::now(clock) else {
        return 1;
    };
    match now.duration_since(UNIX_EPOCH) {
        Ok(since) => xid_of(since.as_secs()),
        Err(_) => 1,
    }
}

// Reads input to its end.
fn read_through<I: Read>(input: &mut I) -> io::Result<()>
    ensures { OnOk result (IsAtEnd (I.remaining input.new)) }
{
    let mut chunk = [0; CHUNK];
    for _ in 0..u64::MAX {
        match input.read(&mut chunk) {
            Ok(0) => return Ok(()),
            Ok(_) => {}
            Err(e) if e.kind() == ErrorKind::Interrupted => {}
            Err(e) => return Err(e),
        }
    }
    Err(ErrorKind::Interrupted.into())
}

// Reads input to its end, and then sets the flag.
fn wait_for_end<I: Read>(input: &mut I, stop: &AtomicBool) {
    let _ = read_through(input);
    stop.store(true, Ordering::SeqCst);
}

// Sends the registration that is kept first, and waits for its acknowledgement.
fn register_first<R>(
    rt: &R,
    alloc: Global,
    peer: SocketAddr,
    agent: &mut ServiceAgent,
) -> Result<(), ClientFault>
where
    R: Net<Stream = TcpStream> + Clock + Wait,
{
    let mut messages = Vec::new(alloc);
    agent.turn(alloc, 0, &mut messages)?;
    for message in messages {
        drop(ask(rt, alloc, peer, message)?);
    }
    Ok(())
}

// Registers a service, and keeps it registered until the input ends. The thread that reads the input is made before
// anything is registered, and not joined: where a refresh fails, the call ends at once.
fn keep<R, I>(
    rt: &R,
    alloc: Global,
    peer: SocketAddr,
    request: Vec<u8>,
    mut input: I,
) -> Result<(), ClientFault>
where
    R: Net<Stream = TcpStream> + Clock + Wait + Threads,
    I: Read + Send + Drop + 'static,
    requires read { IsRegistration request.items }
    requires short { length request.items ≤ 65535 }
{
    let mut agent = ServiceAgent::new(alloc);
    agent.keep(alloc, request)?;
    let stop = Arc::new(alloc, AtomicBool::new(false))?;
    let theirs = Arc::try_clone(&stop)?;
    if thread::spawn(rt, move || wait_for_end(&mut input, &theirs)).is_err() {
        return Err(ClientFault::NoMemory);
    }
    register_first(rt, alloc, peer, &mut agent)?;
    keep_alive(rt, alloc, peer, agent, &stop)
}

// What a call comes to. A registration that is kept is acknowledged at the end.
fn outcome<R, I>(
    rt: &R,
    alloc: Global,
    call: (SocketAddr, Command<'_>),
    reader: I,
) -> Result<Items, ClientFault>
where
    R: Net<Stream = TcpStream> + Clock + Wait + Threads,
    I: Read + Send + Drop + 'static,
    ensures { Answers (asked call.entry.1) result }
{
    let (peer, command) = call;
    let header = header_with(xid_now(rt));
    if let Command::Keep(service) = command {
        let request = registration(alloc, &header, &service)?;
        keep(rt, alloc, peer, request, reader)?;
        return Ok(Items::Acknowledged);
    }
    match command.request(alloc, &header) {
        Ok(request) => ask(rt, alloc, peer, request),
        Err(fault) => Err(fault),
    }
}

// Prints what a call came to, and answers the status, but for the output's.
fn report<W: Write>(told: Result<Items, ClientFault>, writer: &mut W) -> (u8, io::Result<()>)
    ensures status { result.0 ≡ told_status told }
    ensures text { OnOk result.1 (Appends (W.contents writer.old) (W.contents writer.new) (told_text told)) }
{
    match told {
        Ok(items) => {
            let printed = print_items(&items, writer);
            drop(items);
            (0, printed)
        }
        Err(fault) => (fault_status(fault), print_fault(fault, writer)),
    }
}

// An address of IPv4 with its port.
fn peer_at(bits: u32, port: u16) -> SocketAddr
    ensures { peer_of result ≡ Some (bits, port) }
{
    SocketAddr::V4(SocketAddrV4::new(Ipv4Addr::from_bits(bits), port))
}

// The agent and the command that words name.
fn called(words: &[String]) -> Option<(SocketAddr, Command<'_>)>
    ensures { option_map call_of result ≡ option_map (λ c. Some c) (call_in (map string_bytes words.now)) }
{
    let (peer, words) = words.split_first()?;
    let (Addr(bits), port) = Addr::parse_with_port(peer.as_bytes())?;
    Some((peer_at(bits, port), Command::of(words)?))
}

/// The status and the text where a call's words can't be read: how the tool is called where one is no text, or else that
/// there is no memory.
pub fn unread_words(fault: &io::Error) -> (u8, &'static str)
    ensures { (result.0, result.1.now) ≡ unread (error_kind fault.now) }
{
    match fault.kind() {
        ErrorKind::InvalidData => (USAGE, USAGE_LINE),
        _ => (NO_MEMORY, "! memory\n"),
    }
}

// Prints how the tool is called.
fn print_usage<W: Write>(writer: &mut W) -> io::Result<()>
    ensures { OnOk result (Appends (W.contents writer.old) (W.contents writer.new) usage_text) }
{
    let written = writer.write_all(USAGE_LINE.as_bytes());
    let flushed = writer.flush();
    written.and(flushed)
}

// The status of a call, unless its output failed.
fn status_after(status: u8, printed: io::Result<()>) -> u8
    ensures { result ≡ spec.status_after status printed }
{
    match printed {
        Ok(()) => status,
        Err(_) => UNWRITTEN,
    }
}

// Prints what a call came to, and answers the status.
fn finish<W: Write>(told: Result<Items, ClientFault>, writer: &mut W) -> u8
    ensures { IsReported told (W.contents writer.old) (W.contents writer.new) result }
{
    let (status, printed) = report(told, writer);
    let written = match printed {
        Ok(()) => writer.flush(),
        Err(fault) => Err(fault),
    };
    status_after(status, written)
}

/// The program `slptool`: its words without its own name, its input, which `keep` alone reads, and its output.
/// It answers the status: 0, or 1 to 6 where there is no answer (a socket or the output failed, none came, a
/// code, no memory, an answer that is cut, a request that is too long), or 64 where the words are not understood.
pub fn tool_run<R, I, W>(rt: &R, alloc: Global, words: &[String], reader: I, writer: &mut W) -> u8
where
    R: Net<Stream = TcpStream> + Clock + Wait + Threads,
    I: Read + Send + Drop + 'static,
    W: Write,
    ensures usage { call_in (map string_bytes words.now) ≡ None → result ≡ 64 }
    ensures answer { IfSome (call_in (map string_bytes words.now)) (λ call. (told : Result Items ClientFault) × Answers call.1 told × IsReported told (W.contents writer.old) (W.contents writer.new) result) }
{
    let Some(call) = called(words) else {
        let _ = print_usage(writer);
        return USAGE;
    };
    let told = outcome(rt, alloc, call, reader);
    finish(told, writer)
}
