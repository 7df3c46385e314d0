ghost use Rattle.std.specs.Prelude.{◌≡◌, IfOk};
ghost use Rattle.std.proofs.Common.{rules};
ghost use Rattle.std.specs.Cmp.{partial_order_from_own_ties};
ghost use Rattle.std.specs.Cmp.Rules.{comparing, hashing};
ghost use Rattle.std.specs.Ordering.{as_partial_cmp};
ghost use Rattle.std.specs.Hash as fed;
ghost use Rattle.slp_text.specs.Keys.{key_of};
ghost use Rattle.slp_text.specs.Words.{bytes_eq, bytes_cmp};

use crate::faults::{NoMemory, TextFault};
use crate::folding::key;
use arrayvec::ArrayString;
use std::alloc::Global;
use std::cmp::Ordering;
use std::hash::{Hash, Hasher};
use std::marker::Model;

/// The text of a key. One of at most 16 bytes, as most are, can lie where the key does, and takes no memory of its own.
#[derive(Drop)]
pub(crate) enum KeyText {
    Short(ArrayString<16>),
    Long(String),
}

/// A text with its white space squeezed and its case folded, which contracts see as its bytes. Keys
/// are ordered by their UTF-8 bytes.
pub struct Key {
    pub(crate) text: KeyText,
}

impl Drop for Key {
    #[inline(always)]
    fn drop(self) {
        let Key { text: _ } = self;
    }
}

impl Model for Key {
    ghost use Rattle.std.specs.Prelude.{List, ℕ};
    ghost use Rattle.slp_text.specs.KeyTexts.{key_bytes};

    ghost Value = { List ℕ };

    ghost view = { λ a. key_bytes a.text };
}

impl Key {
    /// The key of a text, as `key` makes it, which fails for want of memory alone.
    pub fn of(alloc: Global, text: &str) -> Result<Key, NoMemory>
        ensures { IfOk result (λ k. k ≡ key_of text.now) }
    {
        match key(alloc, text) {
            Ok(made) => Ok(made),
            Err(TextFault::NoMemory) => Err(NoMemory),
            Err(_) => unreachable!(),
        }
    }

    /// The text of the key.
    #[inline(always)]
    pub fn as_str(&self) -> &str
        ensures { result.now ≡ self.now }
    {
        match &self.text {
            KeyText::Short(text) => text.as_str(),
            KeyText::Long(text) => text.as_str(),
        }
    }

    /// An equal key.
    pub fn copy(&self, alloc: Global) -> Result<Key, NoMemory>
        ensures { IfOk result (λ k. k ≡ self.now) }
    {
        let text = match &self.text {
            KeyText::Short(text) => KeyText::Short(*text),
            KeyText::Long(text) => KeyText::Long(String::from_str(alloc, text.as_str())?),
        };
        Ok(Key { text })
    }
}

impl PartialEq for Key {
    ghost eq = { bytes_eq };

    ghost laws = { Prim.search (comparing, rules) };

    #[inline(always)]
    fn eq(&self, other: &Key) -> bool {
        self.as_str() == other.as_str()
    }
}

impl Eq for Key {
    ghost laws = { Prim.search (comparing, rules) };
}

impl Ord for Key {
    ghost cmp = { bytes_cmp };

    ghost total = { Prim.search (comparing, rules) };

    ghost matches_partial_cmp = { Prim.search (comparing, rules) };

    ghost matches_eq = { Prim.search (comparing, rules) };

    fn cmp(&self, other: &Key) -> Ordering {
        self.as_str().cmp(other.as_str())
    }
}

impl PartialOrd for Key {
    ghost partial_cmp = { as_partial_cmp bytes_cmp };

    ghost laws = { partial_order_from_own_ties (Prim.search (comparing, rules)) (Prim.search (comparing, rules)) };

    fn partial_cmp(&self, other: &Key) -> Option<Ordering> {
        Some(self.cmp(other))
    }
}

impl Hash for Key {
    ghost hash_input = { fed.str };

    ghost respects_eq = { Prim.search (hashing, rules) };

    fn hash<H: Hasher>(&self, state: &mut H) {
        self.as_str().hash(state);
    }
}
