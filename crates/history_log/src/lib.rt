//! The history of a directory, which exists in proofs alone: what threads share of it is its length, and each knows a
//! beginning of it.
#![tactic(auto)]

mod book;
mod front;
mod happening;

pub use book::{Book, Law, Naming, Opened};
pub use front::{Front, Trail};
pub use happening::{Happened, Happening};
