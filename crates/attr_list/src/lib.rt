//! Attribute lists (RFC 2608, section 5), which contracts see as finite maps from tags.
#![tactic(auto)]

mod attrs;
mod combining;
mod distinct;
mod elements;
mod firsts;
mod gathering;
mod held;
pub mod laws;
mod merging;
mod order;
mod parsing;
mod reading;
mod values;
mod writing;

pub use attr_values::{AttrFault, Value, read_value};
pub use attrs::Attrs;
pub use held::Held;
pub use reading::{cut_at, opened, read_tag};
pub use values::Values;
