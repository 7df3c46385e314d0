//! Addresses of IPv4 and prefixes of them, and decimal numbers, as they are written.
#![tactic(auto)]

mod address;
mod prefix;

pub use address::{Addr, number};
pub use prefix::Prefix;
