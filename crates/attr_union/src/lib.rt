//! Attributes of several lists, joined where they lie: no value is copied (RFC 2608, section 10.4).
#![tactic(auto)]

mod distinct;
mod gathering;
mod lent;
mod pieces;
mod union;
mod writing;

pub use pieces::Gathering;
pub use union::AttrUnion;
