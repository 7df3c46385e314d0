ghost use Rattle.std.specs.Prelude.{◌≡◌, ◌∷◌, ◌++◌, List, Some, IfOk, map, chars, string_bytes};
ghost use Rattle.caseless.specs.Caseless.{default_case_fold};
ghost use Rattle.slp_tags.specs.Tags as tags;
ghost use Rattle.slp_tags.specs.Tags.{Sign};
ghost use Rattle.text_patterns.specs.Patterns.{matches_key, pattern_of, pattern_with};

use crate::characters::KeyCharacters;
use caseless::Caseless;
use slp_tags::Signs;
use slp_text::{NoMemory, is_white_space};
use std::alloc::Global;
use std::marker::Model;

/// A text with `*` for any run of characters (RFC 2254), which contracts see as its signs: a character,
/// or `None` for a `*`.
pub struct Pattern {
    signs: Signs,
}

impl Drop for Pattern {
    fn drop(self) {
        let Pattern { signs: _ } = self;
    }
}

impl Model for Pattern {
    ghost use Rattle.std.specs.Prelude.{List};
    ghost use Rattle.slp_tags.specs.Tags.{Sign};

    ghost Value = { List Sign };

    ghost view = { λ p. p.signs };
}

fn is_white_sign(sign: Option<char>) -> bool
    ensures { result ≡ tags.is_white_sign sign }
{
    match sign {
        Some(c) => is_white_space(c),
        None => false,
    }
}

// Appends a folded sign, after a space if white space came since the last one. White space itself is
// put off; whether it was is answered.
fn add_sign(sign: Option<char>, gap: bool, signs: &mut Vec<Option<char>>) -> Result<bool, NoMemory>
    ensures { IfOk result (λ now. (rest : List Sign) → pattern_with now signs.new.items rest ≡ pattern_with gap signs.old.items (sign ∷ rest)) }
{
    if is_white_sign(sign) {
        return Ok(true);
    }
    if gap && !signs.is_empty() {
        signs.push(Some(' '))?;
    }
    signs.push(sign)?;
    Ok(false)
}

// The same of the characters of a text, folded.
fn add_text(text: &str, gap: bool, signs: &mut Vec<Option<char>>) -> Result<bool, NoMemory>
    ensures { IfOk result (λ now. (rest : List Sign) → pattern_with now signs.new.items rest ≡ pattern_with gap signs.old.items (map Some (default_case_fold (chars text.now)) ++ rest)) }
{
    let mut gap = gap;
    for c in text.chars().default_case_fold() {
        gap = add_sign(Some(c), gap, signs)?;
    }
    Ok(gap)
}

impl Pattern {
    /// The pattern of the pieces between its `*`s, in which nothing is escaped: folded and squeezed as a
    /// whole, so that white space goes at its two ends alone.
    pub fn new(alloc: Global, pieces: &[String]) -> Result<Pattern, NoMemory>
        ensures { IfOk result (λ p. p ≡ pattern_of (map (λ piece. chars (string_bytes piece)) pieces.now)) }
    {
        let mut signs = Vec::new(alloc);
        let mut gap = false;
        let mut begun = false;
        for piece in pieces {
            if begun {
                gap = add_sign(None, gap, &mut signs)?;
            }
            gap = add_text(piece.as_str(), gap, &mut signs)?;
            begun = true;
        }
        let signs = Signs::new(alloc, &signs)?;
        Ok(Pattern { signs })
    }

    /// Whether the pattern matches the key of a text. It takes no memory, and time for the length of the
    /// pattern and the text.
    pub fn matches(&self, text: &str) -> bool
        ensures { result ≡ matches_key self.now text.now }
    {
        let mut search = self.signs.search();
        let mut characters = KeyCharacters::new(text);
        loop {
            let count = search.take_plain(characters.plain_bytes());
            characters.skip(count);
            let Some(c) = characters.next() else {
                return search.ends();
            };
            if let Some(found) = search.step(u32::from(c)) {
                return found;
            }
        }
    }
}
