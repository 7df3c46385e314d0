ghost use Rattle.std.specs.Prelude.{◌≡◌, ◌++◌, ℕ, List, MatchResult, encode_utf8};
ghost use Rattle.slp_text.specs.Keys.{key_of};
ghost use Rattle.slp_text.specs.Words.{bytes_cmp};

use crate::characters::KeyCharacters;
use slp_text::Key;
use std::cmp::Ordering;

// What comes after a character with which bytes begin, or else the order of the two, whatever follows
// the character.
fn after_character(c: char, bytes: &[u8]) -> Result<&[u8], Ordering>
    ensures { (more : List ℕ) → MatchResult result (λ after. bytes_cmp (encode_utf8 c ++ more) bytes.now ≡ bytes_cmp more after.now) (λ order. bytes_cmp (encode_utf8 c ++ more) bytes.now ≡ order) }
{
    let mut buffer = [0; 4];
    let mut rest = bytes;
    for b in c.encode_utf8(&mut buffer).as_bytes() {
        let Some((first, after)) = rest.split_first() else {
            return Err(Ordering::Greater);
        };
        match b.cmp(first) {
            Ordering::Equal => rest = after,
            order => return Err(order),
        }
    }
    Ok(rest)
}

/// How the key of a text stands to a key, by their bytes. No key is made: it takes no memory, and time
/// for the length of the text.
pub fn compare(text: &str, key: &Key) -> Ordering
    ensures { result ≡ bytes_cmp (key_of text.now) key.now }
{
    let mut characters = KeyCharacters::new(text);
    let mut rest = key.as_str().as_bytes();
    while let Some(c) = characters.next() {
        match after_character(c, rest) {
            Ok(after) => rest = after,
            Err(order) => return order,
        }
    }
    if rest.is_empty() {
        Ordering::Equal
    } else {
        Ordering::Less
    }
}
