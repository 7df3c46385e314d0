//! What a server has beside its loops: what it starts with, its threads, what sweeps, and the words of its operator.
#![tactic(auto)]

mod console;
mod fault;
mod logging;
mod opening;
mod sweeping;
mod threads;

pub use console::{Console, Operator, opened};
pub use fault::loop_fault;
pub use logging::serve_logged;
pub use opening::{Beginning, begun};
pub use sweeping::Sweeping;
pub use threads::{Job, Task};
