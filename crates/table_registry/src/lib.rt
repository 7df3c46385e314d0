//! A registry of fixed slots, whose walks lie in order.
#![tactic(auto)]

mod table;

pub use table::TableRegistry;

/// The registry that the programs keep a site's entries in.
pub type SiteRegistry = TableRegistry;
