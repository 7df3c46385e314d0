//! What a site begins with: its configuration, and the rules and templates of the files that it names.
#![tactic(auto)]

mod descriptors;
mod fault;
mod files;
pub mod laws;
mod opening;
mod words;

pub use descriptors::{descriptor_limit, needed_descriptors, shared_streams};
pub use fault::{ReadFault, StartFault};
pub use files::{FileFault, read};
pub use opening::{SiteFiles, open_site, rules_at};
pub use words::{call_words, config_path};
