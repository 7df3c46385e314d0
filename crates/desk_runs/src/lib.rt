//! What desks and a writer did over one directory is a run that keeps what users are promised.
#![tactic(auto)]

pub mod laws;
mod serving;

pub use serving::serve;
