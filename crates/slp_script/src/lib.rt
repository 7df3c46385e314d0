//! What the lines of a script of messages say, and which commands they spell.
#![tactic(auto)]

mod command;
pub mod laws;
mod reading;

pub use command::{Block, Order};
pub use reading::{LONGEST_DATAGRAM, LONGEST_LINE, Reading, read_line};
