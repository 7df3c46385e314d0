//! When a directory is swept: what has expired is dropped, whether or not anyone asks for it.
#![tactic(auto)]

mod schedule;
mod sweeper;

pub use schedule::Schedule;
pub use sweeper::Sweeper;
