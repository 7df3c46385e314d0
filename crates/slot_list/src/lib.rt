//! A list of slots' numbers, in memory that was taken when it was made.
#![tactic(auto)]

mod list;

pub use list::SlotList;
