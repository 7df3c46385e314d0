//! Service templates (RFC 2609): which attributes conform to one.
#![tactic(auto)]

mod definition;
mod fault;
pub mod laws;
mod templates;

pub use definition::{Definition, ValueKind};
pub use fault::{FaultKind, ParseFault, TemplateFault};
pub use templates::{Template, Templates};
