//! Who has answered a question already (RFC 2608, section 6.3).
ghost use Rattle.std.specs.Prelude.{◌≡◌, IfOk};
ghost use Rattle.slp_text.specs.Keys.{trim_start, trimmed_text};
ghost use Rattle.directory_questions.specs.Questions as spec;

use addresses::Addr;
use slp_text::{NoMemory, cut, is_white_byte};
use std::alloc::Global;

// The bytes from the first on that is not white space.
fn after_white(text: &[u8]) -> &[u8]
    ensures { result.now ≡ trim_start text.now }
{
    let mut rest = text;
    while let Some((first, more)) = rest.split_first()
        && is_white_byte(*first)
    {
        rest = more;
    }
    rest
}

// The bytes between the white space at both ends.
fn trimmed(text: &[u8]) -> &[u8]
    ensures { result.now ≡ trimmed_text text.now }
{
    let mut rest = after_white(text);
    while let Some((last, before)) = rest.split_last()
        && is_white_byte(*last)
    {
        rest = before;
    }
    rest
}

// Whether one of the parts between commas is a text.
fn names(responders: &[u8], text: &[u8]) -> bool
    ensures { result ≡ spec.names responders.now text.now }
{
    let mut rest = responders;
    while let Some((part, more)) = cut(rest, b',') {
        if trimmed(part) == text {
            return true;
        }
        rest = more;
    }
    trimmed(rest) == text
}

/// Whether an address is one of those that have answered, which stand between commas as they are printed.
pub fn has_answered(alloc: Global, own: Addr, responders: &str) -> Result<bool, NoMemory>
    ensures { IfOk result (λ b. b ≡ spec.has_answered own responders.now) }
{
    if responders.is_empty() {
        return Ok(false);
    }
    let address = format!(in alloc; "{own}")?;
    Ok(names(responders.as_bytes(), address.as_bytes()))
}
