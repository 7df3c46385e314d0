ghost use Rattle.std.specs.Prelude.{◌≡◌, ◌≤◌, ◌<◌, ◌+◌, ◌^◌, ℕ, List, [], OnOk, IfOk, MatchResult, string_bytes, length};
ghost use Rattle.std.specs.Io.KnownBytes.{Appends};
ghost use Rattle.std.specs.Option.{option_map, option_copied};
ghost use Rattle.slp_script.specs.Commands.{longest_line, Single};
ghost use Rattle.slp_script.specs.declared.command.Order.TheVariants as order;
ghost use Rattle.replay_program.specs.Sessions.{Acts, Writes};
ghost use Rattle.replay_program.specs.Turns.{Closes, block_text_with, LacksLoop, TurnsOutside, TurnsInside, OrderFails, OutsideFails, InsideFails, TurnsTo, TurnFails};
ghost use Rattle.replay_program.specs.declared.fault.RunFault.TheVariants as fault;

use crate::exchange::meet;
use crate::fault::RunFault;
use crate::session::{LONGEST_ON_STREAM, LONGEST_REPLY, Session};
use crate::stream::take_piece;
use addresses::Addr;
use site_config::LONGEST_CONFIG;
use site_reports::{print_config, print_rules, print_template};
use slp_answer::Answer;
use slp_script::{Block, Order, Reading, read_line};
use slp_stream::Framer;
use slp_text::{NoMemory, Row};
use std::alloc::Global;
use std::io::Write;

/// The block that is open.
#[derive(Drop)]
pub struct OpenBlock {
    pub block: Block,
    /// The line that began it.
    pub begun: u64,
    /// Its lines so far, each with its LF; nothing where they are longer than a configuration, a
    /// template or a rule file may be.
    pub text: Option<String>,
}

/// Where a run stands between two lines.
#[derive(Drop)]
pub struct Progress {
    /// The lines so far.
    pub number: u64,
    pub block: Option<OpenBlock>,
    pub session: Session,
}

impl Progress {
    ghost use Rattle.replay_program.specs.Reads.{StandsAfter};

    /// Where a run stands before its first line.
    pub fn begin(alloc: Global) -> Result<Progress, NoMemory>
        ensures { IfOk result (λ p. StandsAfter [] [] [] p) }
    {
        Ok(Progress {
            number: 0,
            block: None,
            session: Session::open(alloc)?,
        })
    }
}

// What is kept of a block's text with one line more.
fn lengthen_text(text: Option<String>, line: &str) -> Result<Option<String>, NoMemory>
    ensures { IfOk result (λ t. option_map string_bytes t ≡ block_text_with (option_map string_bytes text) line.now) }
{
    let Some(mut text) = text else {
        return Ok(None);
    };
    if line.len() >= LONGEST_CONFIG - text.len().min(LONGEST_CONFIG) {
        return Ok(None);
    }
    text.push_str(line)?;
    text.push('\n')?;
    Ok(Some(text))
}

// Ends a block of which this text is kept. After a rule file it is too late for another site.
fn close<W: Write>(
    session: &mut Session,
    alloc: Global,
    block: Block,
    text: Option<&str>,
    writer: &mut W,
) -> Result<(), RunFault>
    ensures { Writes (W.contents writer.old) (W.contents writer.new) (λ now. Closes session.old block (option_copied text.entry) now session.new) result }
{
    let written = match block {
        Block::Rules => {
            let told = session.agent.reload(alloc, text)?;
            session.late = true;
            print_rules(told, writer)
        }
        Block::Config | Block::Template if session.late => writer.write_all(b"! late\n"),
        Block::Config => print_config(session.agent.configure(alloc, text)?, writer),
        Block::Template => print_template(session.agent.add_template(alloc, text)?, writer),
    };
    match written {
        Ok(()) => Ok(()),
        Err(_) => Err(RunFault::Write),
    }
}

// Answers a datagram, after which it is too late for another site.
fn take_datagram<W: Write>(
    session: &mut Session,
    alloc: Global,
    bytes: Row<u8>,
    answer: &mut Answer,
    writer: &mut W,
) -> Result<(), RunFault>
    ensures { MatchResult result
        (λ _. (now : List ℕ) × Appends (W.contents writer.old) (W.contents writer.new) now × Acts session.old (Single (order.Udp bytes)) now session.new)
        (λ e. e ≡ fault.Write) }
{
    session.late = true;
    meet(
        &mut session.agent,
        alloc,
        bytes.as_slice(),
        LONGEST_REPLY,
        answer,
        writer,
    )
}

// Takes the next bytes of the stream, after which it is too late for another site.
fn take_stream<W: Write>(
    session: &mut Session,
    alloc: Global,
    bytes: Row<u8>,
    answer: &mut Answer,
    writer: &mut W,
) -> Result<(), RunFault>
    ensures { Writes (W.contents writer.old) (W.contents writer.new) (λ now. Acts session.old (Single (order.Tcp bytes)) now session.new) result }
{
    session.late = true;
    take_piece(session, alloc, bytes.as_slice(), answer, writer)
}

// Drops what is dead, and says so.
fn sweep<W: Write>(session: &mut Session, writer: &mut W) -> Result<(), RunFault>
    ensures { MatchResult result
        (λ _. (now : List ℕ) × Appends (W.contents writer.old) (W.contents writer.new) now × Acts session.old (Single order.Sweep) now session.new)
        (λ e. e ≡ fault.Write) }
{
    session.agent.tidy();
    session.late = true;
    match writer.write_all(b"# sweep\n") {
        Ok(()) => Ok(()),
        Err(_) => Err(RunFault::Write),
    }
}

// Lets messages come to the loop that a line of this number names.
fn move_to_loop(session: &mut Session, named: u32, number: u64) -> Result<(), RunFault>
    ensures { MatchResult result
        (λ _. Acts session.old (Single (order.Loop named)) [] session.new)
        (λ e. (e ≡ fault.Line number) × LacksLoop session.old (order.Loop named)) }
{
    if session.agent.move_to_loop(named) {
        Ok(())
    } else {
        Err(RunFault::Line(number))
    }
}

// Carries out a command of one line, which has this number.
fn carry_out<W: Write>(
    session: &mut Session,
    alloc: Global,
    order: Order,
    number: u64,
    answer: &mut Answer,
    writer: &mut W,
) -> Result<(), RunFault>
    ensures { MatchResult result
        (λ _. (now : List ℕ) × Appends (W.contents writer.old) (W.contents writer.new) now × Acts session.old (Single order) now session.new)
        (OrderFails session.old order number (W.contents writer.old) (W.contents writer.new)) }
{
    match order {
        Order::Blank => {}
        Order::At(moment) => session.agent.moment = moment,
        Order::From(asker) => session.agent.asker = Addr(asker),
        Order::Loop(named) => move_to_loop(session, named, number)?,
        Order::Udp(bytes) => take_datagram(session, alloc, bytes, answer, writer)?,
        Order::Open => session.stream = Framer::new(alloc, LONGEST_ON_STREAM),
        Order::Tcp(bytes) => take_stream(session, alloc, bytes, answer, writer)?,
        Order::Sweep => sweep(session, writer)?,
    }
    Ok(())
}

// Carries out a line outside a block: the block that it begins, if it begins one, at this number.
fn turn_outside<W: Write>(
    session: &mut Session,
    alloc: Global,
    line: &[u8],
    number: u64,
    answer: &mut Answer,
    writer: &mut W,
) -> Result<Option<OpenBlock>, RunFault>
    requires short { length line.now ≤ longest_line }
    ensures { MatchResult result
        (λ left. (now : List ℕ) × Appends (W.contents writer.old) (W.contents writer.new) now × TurnsOutside session.old line.now number now session.new left)
        (OutsideFails session.old line.now number (W.contents writer.old) (W.contents writer.new)) }
{
    match read_line(alloc, line)? {
        Reading::Order(order) => {
            carry_out(session, alloc, order, number, answer, writer)?;
            Ok(None)
        }
        Reading::Begins(block) => {
            let text = Some(String::new(alloc));
            Ok(Some(OpenBlock {
                block,
                begun: number,
                text,
            }))
        }
        Reading::Fault => Err(RunFault::Line(number)),
    }
}

// Takes a line of a block, or its end: what of the block is still open.
fn turn_inside<W: Write>(
    session: &mut Session,
    alloc: Global,
    line: &[u8],
    number: u64,
    block: OpenBlock,
    writer: &mut W,
) -> Result<Option<OpenBlock>, RunFault>
    requires short { length line.now ≤ longest_line }
    ensures { MatchResult result
        (λ left. (now : List ℕ) × Appends (W.contents writer.old) (W.contents writer.new) now × TurnsInside session.old line.now block now session.new left)
        (InsideFails line.now number (W.contents writer.old) (W.contents writer.new)) }
{
    let OpenBlock { block, begun, text } = block;
    if line == b".".as_slice() {
        close(session, alloc, block, text.as_deref(), writer)?;
        return Ok(None);
    }
    match str::from_utf8(line) {
        Ok(line) => {
            let text = lengthen_text(text, line)?;
            Ok(Some(OpenBlock { block, begun, text }))
        }
        Err(_) => Err(RunFault::Line(number)),
    }
}

impl Progress {
    /// Takes the next line, which stands here without its LF.
    pub fn turn<W: Write>(
        &mut self,
        alloc: Global,
        line: &[u8],
        answer: &mut Answer,
        writer: &mut W,
    ) -> Result<(), RunFault>
        requires short { length line.now ≤ longest_line }
        requires room { self.old.number + 1 < 2 ^ 64 }
        ensures { MatchResult result
            (λ _. (now : List ℕ) × Appends (W.contents writer.old) (W.contents writer.new) now × TurnsTo self.old line.now now self.new)
            (TurnFails self.old line.now (W.contents writer.old) (W.contents writer.new)) }
    {
        let number = self.number + 1;
        self.block = match self.block.take() {
            None => turn_outside(&mut self.session, alloc, line, number, answer, writer)?,
            Some(block) => turn_inside(&mut self.session, alloc, line, number, block, writer)?,
        };
        self.number = number;
        Ok(())
    }
}
