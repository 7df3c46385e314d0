//! The lines that a loop owes: where they wait, and how they go to the log.
#![tactic(auto)]

mod log;
mod queue;

pub use log::{Lines, Log, SharedOutput};
pub use queue::{LineWriter, Queue, QueuedOutput};
