//! What was gathered of a directory.
ghost use Rattle.std.specs.Prelude.{map};
ghost use Rattle.std.specs.Arc.{arc_value};
ghost use Rattle.directory_state.specs.Searches.{HasOneOfEachPair};

use access_rules::Rules;
use directory_judge::Site;
use registry_core::Entry;
use std::sync::Arc;

/// Shares of all entries that a question is about, with what decides on them. None of it ever changes: what is answered from it is what the directory
/// answered when it was gathered, whatever became of that since.
#[derive(Drop)]
pub struct Gathered {
    pub(crate) entries: Vec<Arc<Entry>>,
    pub(crate) rules: Arc<Rules>,
    pub(crate) site: Arc<Site>,
    pub(crate) clock: u32,
    ghost once: { HasOneOfEachPair (map arc_value entries.items) },
}
