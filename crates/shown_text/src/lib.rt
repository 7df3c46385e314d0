//! Texts of others, as they are shown to a reader.
#![tactic(auto)]

mod shown;

pub use shown::{print_byte, print_text};
