//! Keys of words of ASCII: their case folding is their lower case, and they have nothing to squeeze.
ghost use Rattle.std.specs.Prelude.{◌≡◌, ◌≤◌, true, length, string_bytes, IfOk, OnErr};
ghost use Rattle.std.specs.List.{list_all};
ghost use Rattle.slp_text.specs.Keys.{is_not_capital, is_word_byte, key_of};
ghost use Rattle.slp_text.specs.declared.faults.TextFault.TheVariants as fault;

use crate::faults::TextFault;
use crate::keys::{Key, KeyText};
use arrayvec::ArrayString;
use std::alloc::Global;
use std::str;

/// Whether a text is of ASCII and has no white space, nor another control character but DEL.
pub fn is_word(text: &[u8]) -> bool
    ensures { result ≡ list_all is_word_byte text.now }
{
    text.iter().all(|b| *b > b' ' && *b < 0x80)
}

// Whether bytes have no capital letter of ASCII.
fn is_lower(text: &str) -> bool
    ensures { result ≡ list_all is_not_capital text.now }
{
    text.as_bytes().iter().all(|b| *b < b'A' || *b > b'Z')
}

// A short text as a key.
fn key_in_place(text: &str) -> Key
    requires { length text.now ≤ 16 }
    ensures { result ≡ text.now }
{
    let mut short = ArrayString::new();
    short.push_str(text);
    Key {
        text: KeyText::Short(short),
    }
}

// The lower case of a short word, whose bytes are copied for it.
fn lower_key(word: &[u8]) -> Key
    requires word { list_all is_word_byte word.now ≡ true }
    requires short { length word.now ≤ 16 }
    ensures { result ≡ key_of word.now }
{
    let mut bytes = [0; 16];
    bytes[..word.len()].copy_from_slice(word);
    bytes.make_ascii_lowercase();
    let Ok(lower) = str::from_utf8(&bytes[..word.len()]) else {
        unreachable!()
    };
    key_in_place(lower)
}

// The key of a short word.
fn short_key(word: &str) -> Key
    requires word { list_all is_word_byte word.now ≡ true }
    requires short { length word.now ≤ 16 }
    ensures { result ≡ key_of word.now }
{
    if is_lower(word) {
        return key_in_place(word);
    }
    lower_key(word.as_bytes())
}

/// The lower case of such a text.
pub fn lower_word(alloc: Global, word: &str) -> Result<String, TextFault>
    requires { list_all is_word_byte word.now ≡ true }
    ensures value { IfOk result (λ s. string_bytes s ≡ key_of word.now) }
    ensures memory { OnErr result (result ≡ Err fault.NoMemory) }
{
    let mut lower = String::from_str(alloc, word)?;
    lower.make_ascii_lowercase();
    Ok(lower)
}

/// The key of such a text, which is its lower case. A short one takes no memory.
pub fn word_key(alloc: Global, word: &str) -> Result<Key, TextFault>
    requires { list_all is_word_byte word.now ≡ true }
    ensures value { IfOk result (λ k. k ≡ key_of word.now) }
    ensures memory { OnErr result (result ≡ Err fault.NoMemory) }
{
    if word.len() <= 16 {
        return Ok(short_key(word));
    }
    let lower = lower_word(alloc, word)?;
    Ok(Key {
        text: KeyText::Long(lower),
    })
}
