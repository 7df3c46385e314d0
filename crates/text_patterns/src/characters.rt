ghost use Rattle.std.specs.Char.{to_ascii_lowercase};
ghost use Rattle.std.specs.List.{list_all};
ghost use Rattle.std.specs.Prelude.{◌≡◌, ◌≤◌, ◌∷◌, ◌++◌, [], MatchOption, chars, drop, length, map, take, true};
ghost use Rattle.slp_text.specs.Keys.{is_word_byte};
ghost use Rattle.text_patterns.specs.Characters.{characters_left, folded_left, key_characters, plain_left};

use slp_text::is_white_space;
use ucd_case::full_folding;

/// The characters of the key of a text, which come one at a time: folded, and with white space squeezed.
#[derive(Clone, Copy)]
pub struct KeyCharacters<'a> {
    rest: &'a str,
    // What is left of the folding of a character.
    folding: &'static [char],
    // Whether a character came.
    begun: bool,
    // What comes after a space that stood for white space.
    ahead: Option<char>,
}

// The first character of a text, and what comes after it.
fn split_first(text: &str) -> Option<(char, &str)>
    ensures { MatchOption result (chars text.now ≡ []) (λ p. chars text.now ≡ p.0 ∷ chars p.1.now) }
{
    let mut characters = text.chars();
    let c = characters.next()?;
    Some((c, characters.as_str()))
}

// What comes after so many bytes of ASCII at the front of a text.
#[inline(always)]
fn behind(text: &str, count: usize) -> &str
    requires within { count ≤ length text.now }
    requires plain { list_all is_word_byte (take count text.now) ≡ true }
    ensures { result.now ≡ drop count text.now }
{
    &text[count..]
}

impl<'a> KeyCharacters<'a> {
    /// Those of a text.
    pub fn new(text: &'a str) -> KeyCharacters<'a>
        ensures { characters_left result ≡ key_characters text.now }
    {
        KeyCharacters {
            rest: text,
            folding: &[],
            begun: false,
            ahead: None,
        }
    }

    // The next character of the folded text.
    fn next_folded(&mut self) -> Option<char>
        ensures next { MatchOption result (folded_left self.old ≡ []) (λ c. folded_left self.old ≡ c ∷ folded_left self.new) }
        ensures begun { self.new.begun ≡ self.old.begun }
        ensures ahead { self.new.ahead ≡ self.old.ahead }
    {
        if let [first, rest @ ..] = self.folding {
            self.folding = rest;
            return Some(*first);
        }
        let (c, rest) = split_first(self.rest)?;
        self.rest = rest;
        if c.is_ascii() {
            return Some(c.to_ascii_lowercase());
        }
        match full_folding(c) {
            [] => Some(c),
            [first, rest @ ..] => {
                self.folding = rest;
                Some(*first)
            }
        }
    }

    /// The bytes that come next as they lie in the text, where nothing was put off. Takes no memory.
    #[inline(always)]
    pub fn plain_bytes(&self) -> &'a [u8]
        ensures { result.now ≡ plain_left self.now }
    {
        if self.ahead.is_none() && self.folding.is_empty() {
            self.rest.as_bytes()
        } else {
            &[]
        }
    }

    /// Goes on behind so many of them, which are of ASCII and no white space. Takes no memory.
    #[inline(always)]
    pub fn skip(&mut self, count: usize)
        requires within { count ≤ length (plain_left self.old) }
        requires plain { list_all is_word_byte (take count (plain_left self.old)) ≡ true }
        ensures { characters_left self.old ≡ map to_ascii_lowercase (take count (plain_left self.old)) ++ characters_left self.new }
    {
        if count > 0 {
            self.rest = behind(self.rest, count);
            self.begun = true;
        }
    }

    /// The next one, if there is one. Takes no memory.
    pub fn next(&mut self) -> Option<char>
        ensures { MatchOption result (characters_left self.old ≡ []) (λ c. characters_left self.old ≡ c ∷ characters_left self.new) }
    {
        if let Some(c) = self.ahead {
            self.ahead = None;
            return Some(c);
        }
        let mut gap = false;
        while let Some(c) = self.next_folded() {
            if is_white_space(c) {
                gap = true;
            } else if gap && self.begun {
                self.ahead = Some(c);
                return Some(' ');
            } else {
                self.begun = true;
                return Some(c);
            }
        }
        None
    }
}
