ghost use Rattle.std.specs.Prelude.{◌≡◌, ◌||◌, ℕ, List, map, Some, IfOk, IfSome};
ghost use Rattle.std.specs.List.{list_any};
ghost use Rattle.slp_tags.specs.TagIndexes.{is_found, IsIndex};
ghost use Rattle.slp_tags.specs.Tags.{is_match};

use crate::signs::Signs;
use slp_text::NoMemory;
use std::alloc::Global;
use std::collections::BTreeSet;

// The parts of a list of tags: those without a `*` are looked up, the others are tried.
pub struct TagIndex {
    words: BTreeSet<Vec<u8>>,
    patterns: Vec<Signs>,
}

impl Drop for TagIndex {
    fn drop(self) {
        let TagIndex {
            words: _,
            patterns: _,
        } = self;
    }
}

// The bytes of a part, unless a `*` stands in it.
fn word_of(alloc: Global, part: &[Option<u8>]) -> Result<Option<Vec<u8>>, NoMemory>
    ensures { IfOk result (λ found. IfSome found (λ word. part.now ≡ map Some word.items)) }
{
    let mut word = Vec::new(alloc);
    for sign in part {
        match sign {
            Some(b) => word.push(*b)?,
            None => return Ok(None),
        }
    }
    Ok(Some(word))
}

fn character_of(sign: Option<u8>) -> Option<char>
    ensures { result ≡ sign }
{
    match sign {
        Some(b) => Some(char::from(b)),
        None => None,
    }
}

// A part as signs.
fn signs_of(alloc: Global, part: &[Option<u8>]) -> Result<Signs, NoMemory>
    ensures { IfOk result (λ signs. signs ≡ part.now) }
{
    let mut signs = Vec::with_capacity(alloc, part.len())?;
    for sign in part {
        signs.push(character_of(*sign))?;
    }
    Signs::new(alloc, &signs)
}

// Whether signs match bytes.
#[inline(always)]
fn matches_bytes(signs: &Signs, bytes: &[u8]) -> bool
    ensures { result ≡ is_match signs.now bytes.now }
{
    let mut search = signs.search();
    for b in bytes {
        if let Some(found) = search.step(u32::from(*b)) {
            return found;
        }
    }
    search.ends()
}

fn some_pattern_matches(patterns: &[Signs], tag: &[u8]) -> bool
    ensures { result ≡ list_any (λ signs. is_match signs tag.now) patterns.now }
{
    patterns.iter().any(|signs| matches_bytes(signs, tag))
}

impl TagIndex {
    // Of one part more.
    fn add(&mut self, alloc: Global, part: &[Option<u8>]) -> Result<(), NoMemory>
        ensures { IfOk result (λ _. (tag : List ℕ) → is_found self.new tag ≡ (is_found self.old tag || is_match part.now tag)) }
    {
        match word_of(alloc, part)? {
            Some(word) => {
                self.words.insert(word)?;
            }
            None => self.patterns.push(signs_of(alloc, part)?)?,
        }
        Ok(())
    }

    // That of parts.
    pub fn of(alloc: Global, parts: &[Vec<Option<u8>>]) -> Result<TagIndex, NoMemory>
        ensures { IfOk result (λ index. IsIndex index (map (λ p. p.items) parts.now)) }
    {
        let mut index = TagIndex {
            words: BTreeSet::new(alloc),
            patterns: Vec::new(alloc),
        };
        for part in parts {
            index.add(alloc, part.as_slice())?;
        }
        Ok(index)
    }

    // Whether some part matches a tag.
    pub fn has(&self, tag: &[u8]) -> bool
        ensures { result ≡ is_found self.now tag.now }
    {
        self.words.contains(tag) || some_pattern_matches(&self.patterns, tag)
    }
}
