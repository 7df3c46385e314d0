//! Rule files, which are TOML: what one says, to its first fault.
#![tactic(auto)]

mod fault;
pub mod fields;
mod files;
pub mod laws;
mod version;

pub use fault::RuleFault;
pub use files::{rules_of_table, rules_of_text};
pub use version::Version;
