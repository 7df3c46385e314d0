//! Lists of scopes (RFC 2608, section 6.4.1), which contracts see as their keys in key order, each once.
#![tactic(auto)]

pub mod laws;
mod scopes;

pub use scopes::{ScopeList, is_plain};
