//! The directory programs: so far the replay of a script of messages.
#![tactic(auto)]

mod agent;
mod exchange;
mod fault;
mod line_input;
mod opening;
mod output;
mod program;
mod progress;
mod replay;
mod session;
mod stream;

pub use fault::RunFault;
pub use program::replay_run;
pub use replay::Replay;
