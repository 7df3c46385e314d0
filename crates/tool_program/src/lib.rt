//! The program `slptool`: finds, registers and withdraws services at a directory agent.
#![tactic(auto)]

mod command;
mod printing;
mod program;

pub use command::request_of;
pub use program::{tool_run, unread_words};
