//! Values of attributes (RFC 2608, section 5): what the text of one means, and how one is written.
#![tactic(auto)]

mod fault;
mod integer;
pub mod laws;
mod reading;
mod value;
mod writing;

pub use fault::AttrFault;
pub use integer::integer_of;
pub use reading::{opaque_rest, read_value};
pub use value::Value;
