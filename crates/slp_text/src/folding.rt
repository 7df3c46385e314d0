ghost use Rattle.std.specs.Prelude.{◌≡◌, ℕ, List, ◌∷◌, IfOk, OnErr, chars, string_bytes, encode_utf8_all};
ghost use Rattle.slp_text.specs.Keys as keys;
ghost use Rattle.slp_text.specs.Keys.{is_white, key_of, squeezed_text, trimmed_text};
ghost use Rattle.slp_text.specs.Squeezing.{squeezed_with};
ghost use Rattle.slp_text.specs.Words as spec;
ghost use Rattle.slp_text.specs.declared.faults.TextFault.TheVariants as fault;

use crate::ascii::{is_word, lower_word, word_key};
use crate::faults::{NoMemory, TextFault};
use crate::keys::{Key, KeyText};
use caseless::Caseless;
use std::alloc::Global;

const WHITE_SPACE: [char; 4] = [' ', '\t', '\n', '\r'];

// A text that is squeezed as it is made.
#[derive(Drop)]
struct Squeezed {
    text: String,
    // Whether a character came that is not white space.
    begun: bool,
    // Whether white space came since.
    gap: bool,
}

impl Squeezed {
    // Of no characters yet.
    fn new(alloc: Global) -> Squeezed
        ensures { (cs : List ℕ) → squeezed_with result.begun result.gap (string_bytes result.text) cs ≡ encode_utf8_all (squeezed_text cs) }
    {
        Squeezed {
            text: String::new(alloc),
            begun: false,
            gap: false,
        }
    }

    // Appends a character, after a space if white space came since the last one. White space itself is
    // put off.
    fn push(&mut self, c: char) -> Result<(), NoMemory>
        ensures { IfOk result (λ _. (cs : List ℕ) → squeezed_with self.new.begun self.new.gap (string_bytes self.new.text) cs ≡ squeezed_with self.old.begun self.old.gap (string_bytes self.old.text) (c ∷ cs)) }
    {
        if is_white_space(c) {
            self.gap = true;
            return Ok(());
        }
        if self.begun && self.gap {
            self.text.push(' ')?;
        }
        self.text.push(c)?;
        self.begun = true;
        self.gap = false;
        Ok(())
    }
}

// The key of any text, as a string. The text is gone through once, and the key is the one text that is made.
fn folded_text(alloc: Global, text: &str) -> Result<String, TextFault>
    ensures value { IfOk result (λ s. string_bytes s ≡ key_of text.now) }
    ensures memory { OnErr result (result ≡ Err fault.NoMemory) }
{
    let mut squeezed = Squeezed::new(alloc);
    for c in text.chars().default_case_fold() {
        squeezed.push(c)?;
    }
    Ok(squeezed.text)
}

/// The key of a text, as a string. It is the one text that is made.
pub fn folded(alloc: Global, text: &str) -> Result<String, TextFault>
    ensures value { IfOk result (λ s. string_bytes s ≡ key_of text.now) }
    ensures memory { OnErr result (result ≡ Err fault.NoMemory) }
{
    if is_word(text.as_bytes()) {
        return lower_word(alloc, text);
    }
    folded_text(alloc, text)
}

/// The key by which texts are compared (RFC 2608, section 6.4). It is the one text that is made, and a word of at most 16
/// bytes takes no memory.
pub fn key(alloc: Global, text: &str) -> Result<Key, TextFault>
    ensures value { IfOk result (λ k. k ≡ key_of text.now) }
    ensures memory { OnErr result (result ≡ Err fault.NoMemory) }
{
    if is_word(text.as_bytes()) {
        return word_key(alloc, text);
    }
    let text = folded_text(alloc, text)?;
    Ok(Key {
        text: KeyText::Long(text),
    })
}

/// A text with its white space squeezed: none at either end, and one SPACE for each inner run of it.
pub fn squeeze(alloc: Global, text: &str) -> Result<String, NoMemory>
    ensures { IfOk result (λ s. string_bytes s ≡ encode_utf8_all (squeezed_text (chars text.now))) }
{
    let mut squeezed = Squeezed::new(alloc);
    for c in text.chars() {
        squeezed.push(c)?;
    }
    Ok(squeezed.text)
}

/// What comes after the white space at the start of a text. Takes no memory.
pub fn trim_start(text: &str) -> &str
    ensures { chars result.now ≡ keys.trim_start (chars text.now) }
{
    text.trim_start_matches(WHITE_SPACE)
}

/// The part of a text between the white space at its two ends. Takes no memory.
pub fn trim(text: &str) -> &str
    ensures { chars result.now ≡ trimmed_text (chars text.now) }
{
    trim_start(text).trim_end_matches(WHITE_SPACE)
}

/// Whether a character is SPACE, TAB, CR or LF. Takes no memory.
pub fn is_white_space(c: char) -> bool
    ensures { result ≡ is_white c }
{
    c == ' ' || c == '\t' || c == '\n' || c == '\r'
}

/// The same of a byte. Takes no memory.
pub fn is_white_byte(b: u8) -> bool
    ensures { result ≡ is_white b }
{
    b == b' ' || b == b'\t' || b == b'\n' || b == b'\r'
}

/// Whether a text has nothing but white space: SPACE, TAB, CR and LF.
pub fn is_blank(text: &str) -> bool
    ensures { result ≡ spec.is_blank text.now }
{
    text.as_bytes().iter().all(|b| is_white_byte(*b))
}
