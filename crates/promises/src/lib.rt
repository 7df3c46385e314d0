//! What callers rely on: contracts of public calls, each said once more by a function that makes the one call. The wrong bodies
//! beside it make another call in its place, and its contract refuses each.
#![tactic(auto)]

mod clients;
mod published;
mod replies;

pub use clients::user_step;
pub use published::{answer, change};
pub use replies::{audit_line, reply};
