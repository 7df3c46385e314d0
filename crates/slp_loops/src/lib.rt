//! What serves the messages of a loop: the desk of an address. `slp_sockets` has the loop, `loop_log` the lines that it owes.
#![tactic(auto)]

mod desk;

pub use desk::{Desk, Shared};
pub use loop_log::{LineWriter, Lines, Log, Queue, QueuedOutput, SharedOutput};
pub use slp_sockets::{
    AgentLoop, Connection, Datagrams, LoopFault, Moments, Next, Port, Rest, Serve, Settled,
    SteadyClock, WallClock, settle,
};
