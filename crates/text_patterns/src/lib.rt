//! Texts that are compared by their keys, and patterns that match them, with no key made: what is asked
//! of an attribute's text takes no memory.
#![tactic(auto)]

mod characters;
mod comparing;
mod patterns;

pub use comparing::compare;
pub use patterns::Pattern;
