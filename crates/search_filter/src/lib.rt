//! Search filters (RFC 2608, section 8.1; RFC 2254): what the text of one means, and on which attributes
//! it holds.
#![tactic(auto)]

mod fault;
mod filter;
mod item;
pub mod laws;
mod looks;
mod parsing;
mod reading;
mod tree;

pub use attr_operands::Operand;
pub use fault::FilterFault;
pub use filter::Filter;
