//! Lists of tags (RFC 2608, section 10.3), in which `*` stands for any run of characters, and searches for a text with `*`.
#![tactic(auto)]

mod signs;
mod tag_index;
mod tags;

pub use signs::{Search, Signs};
pub use tags::TagList;
