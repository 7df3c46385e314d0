//! The program `slpcheck`: what is wrong with the files of a site, said before a server starts with them.
#![tactic(auto)]

mod config_faults;
mod descriptors;
mod elements;
mod fault;
mod hiding;
pub mod laws;
mod listening;
mod problem;
mod program;
mod rule_faults;
mod rule_keys;
mod site;
mod template_faults;
mod warnings;

pub use hiding::hides;
pub use program::{check_run, unread_words};
pub use site_opening::call_words;
