//! Who may register, withdraw or see which type in which scope: rules, of which the first that fits
//! decides. And which tags are hidden from whom.
#![tactic(auto)]

mod about;
mod asking;
mod hide;
pub mod laws;
mod rule;
mod rules;

pub use about::RulesAbout;
pub use addresses::{Addr, Prefix};
pub use hide::{FittingHides, Hide};
pub use rule::{Action, Deed, Rule};
pub use rules::{Rules, Verdict};
