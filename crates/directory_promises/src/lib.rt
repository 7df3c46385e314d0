//! What callers rely on of a directory and of what stands below it, in the form of `promises`: contracts of public calls, each said once
//! more by a function that makes the one call, with wrong bodies beside it.
#![tactic(auto)]

mod judging;
mod messages;
mod questions;
mod registries;
mod rules;

pub use judging::{is_full, judge, rule};
pub use messages::read_question;
pub use questions::{find, find_attributes, holds, holds_where, now, updated};
pub use registries::put;
pub use rules::verdict;
