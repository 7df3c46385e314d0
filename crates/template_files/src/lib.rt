//! The texts of templates (RFC 2609): what one means, and what is wrong with one that means none.
#![tactic(auto)]

mod defaults;
mod faults;
pub mod laws;
mod lines;
mod parsing;
mod parts;
mod reading;
mod values;
mod words;

pub use defaults::refused_defaults;
pub use faults::DefinitionFault;
pub use parsing::template_of_text;
pub use parts::{Part, faulty_part};
