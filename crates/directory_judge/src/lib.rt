//! What histories of a directory mean, and how a message that may change it is judged.
#![tactic(auto)]

mod change;
mod copies;
mod grounds;
mod judgement;
mod particulars;
mod reading;
mod reason;
mod registrations;
mod removals;
mod site;
mod updates;
mod withdrawals;

pub use change::{Change, Placed, Withdrawing, Withdrawn};
pub use copies::{Judged, change_view, judge_on};
pub use grounds::Grounds;
pub use judgement::Decision;
pub use particulars::{Particulars, Reading};
pub use reading::{ReadChange, read_change};
pub use reason::{Because, Decider, Finding};
pub use site::Site;
