ghost use Rattle.std.specs.Prelude.{◌≡◌, ◌≤◌, ◌<◌, None, length, IfOk};
ghost use Rattle.slp_script.specs.Commands.{at_word, from_word, longest_line, loop_word, rest_after};
ghost use Rattle.slp_script.specs.Readings.{IsReading};

use crate::command::{Block, Order};
use addresses::{Addr, number};
use hex::FromHexError;
use slp_text::{NoMemory, Row};
use std::alloc::Global;

/// The most bytes of a line, without its LF.
pub const LONGEST_LINE: usize = 140_000;

/// The most bytes of a datagram.
pub const LONGEST_DATAGRAM: usize = 65_535;

/// What a line is, where no block is open.
#[derive(Drop)]
pub enum Reading {
    Order(Order),
    /// It begins a block.
    Begins(Block),
    /// It is neither.
    Fault,
}

// What a line is that begins with none of `at`, `from` and `loop`.
#[tactic(auto, unfolding(crate::specs::Readings::IsReading, crate::specs::Commands::order_of))]
fn read_message(alloc: Global, line: &[u8]) -> Result<Reading, NoMemory>
    requires some { 0 < length line.now }
    requires short { length line.now ≤ longest_line }
    requires no_moment { rest_after at_word line.now ≡ None }
    requires no_address { rest_after from_word line.now ≡ None }
    requires no_loop { rest_after loop_word line.now ≡ None }
    ensures { IfOk result (IsReading line.now) }
{
    if let Some(text) = line.strip_prefix(b"udp ") {
        return match hex::decode(alloc, text) {
            Ok(bytes) if bytes.len() <= LONGEST_DATAGRAM => {
                Ok(Reading::Order(Order::Udp(Row::wrap(bytes))))
            }
            Err(FromHexError::OutOfMemory) => Err(NoMemory),
            _ => Ok(Reading::Fault),
        };
    }
    if line == b"open".as_slice() {
        return Ok(Reading::Order(Order::Open));
    }
    if line == b"sweep".as_slice() {
        return Ok(Reading::Order(Order::Sweep));
    }
    if line == b"config".as_slice() {
        return Ok(Reading::Begins(Block::Config));
    }
    if line == b"template".as_slice() {
        return Ok(Reading::Begins(Block::Template));
    }
    if line == b"rules".as_slice() {
        return Ok(Reading::Begins(Block::Rules));
    }
    if let Some(text) = line.strip_prefix(b"tcp ") {
        return match hex::decode(alloc, text) {
            Ok(bytes) => Ok(Reading::Order(Order::Tcp(Row::wrap(bytes)))),
            Err(FromHexError::OutOfMemory) => Err(NoMemory),
            Err(_) => Ok(Reading::Fault),
        };
    }
    Ok(Reading::Fault)
}

/// What a line is, which stands here without its LF.
#[tactic(auto, unfolding(crate::specs::Readings::IsReading, crate::specs::Commands::order_of))]
pub fn read_line(alloc: Global, line: &[u8]) -> Result<Reading, NoMemory>
    ensures { IfOk result (IsReading line.now) }
{
    if line.len() > LONGEST_LINE {
        return Ok(Reading::Fault);
    }
    if line.is_empty() {
        return Ok(Reading::Order(Order::Blank));
    }
    if let Some(digits) = line.strip_prefix(b"at ") {
        return Ok(match number(digits) {
            Some(moment) => Reading::Order(Order::At(moment)),
            None => Reading::Fault,
        });
    }
    if let Some(text) = line.strip_prefix(b"from ") {
        return Ok(match Addr::parse(text) {
            Some(from) => Reading::Order(Order::From(from.0)),
            None => Reading::Fault,
        });
    }
    if let Some(digits) = line.strip_prefix(b"loop ") {
        return Ok(match number(digits) {
            Some(number) => Reading::Order(Order::Loop(number)),
            None => Reading::Fault,
        });
    }
    read_message(alloc, line)
}
