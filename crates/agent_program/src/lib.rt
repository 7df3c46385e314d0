//! The program `slpda`: a directory agent that listens at the addresses of its configuration.
#![tactic(auto)]

mod program;
mod starting;

pub use program::{agent_run, unread_words};
pub use starting::{Ends, start_loops};
