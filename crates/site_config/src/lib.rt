//! The configuration of a site, from TOML.
#![tactic(auto)]

mod config;
mod fault;
pub mod keys;
mod sockets;
mod values;

pub use config::{Config, LONGEST_CONFIG};
pub use fault::ConfigFault;
pub use keys::{CONFIG_KEYS, ConfigKey};
