//! The sockets of an agent: what a stream and a datagram bring is served, and what is answered goes back.
#![tactic(auto)]

mod agent_loop;
mod clock;
mod connection;
mod datagrams;
mod exchange;
mod fault;
mod lane;
mod opening;
mod peer;
mod port;
mod serve;
mod streams;

pub use agent_loop::AgentLoop;
pub use clock::{Moments, SteadyClock, WallClock};
pub use connection::{Connection, Next};
pub use datagrams::Datagrams;
pub use exchange::Rest;
pub use fault::LoopFault;
pub use port::Port;
pub use serve::{Serve, Settled, settle};
