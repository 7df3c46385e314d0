//! What waits beside the loops of a server: for the words of an operator, and for the next second. Who acts on either is handed in.
#![tactic(auto)]

mod watching;
mod words;

pub use watching::{Watch, sweep_on};
pub use words::{Act, End, Input, SharedInput, Word, hear};
