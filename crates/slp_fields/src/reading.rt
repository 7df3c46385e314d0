//! Reading of single fields: each answers its value and the bytes after it.
ghost use Rattle.slp_messages.specs.Views.{authority_in, entry_in};
ghost use Rattle.slp_fields.specs.Steps.{Gives};
ghost use Rattle.slp_fields.specs.Reading.{byte_at, number_at, long_at, string_at, no_block_at, no_index_at, entry_at, entries_at, listing_at, authority_at};

use crate::fault::WireFault;
use byteorder::{BigEndian, ByteOrder};
use slp_messages::{AuthorityView, EntryView, UrlEntry};
use slp_text::{Row, Text};
use std::alloc::Global;

#[tactic(auto, unfolding(crate::specs::Reading::byte_at))]
pub(crate) fn byte_of(bytes: &[u8]) -> Result<(u8, &[u8]), WireFault>
    ensures { Gives (λ x. (x.0, x.1.now)) result (byte_at bytes.now) }
{
    if bytes.is_empty() {
        return Err(WireFault::Parse);
    }
    Ok((bytes[0], &bytes[1..]))
}

/// A number of two bytes.
#[tactic(auto, unfolding(crate::specs::Reading::number_at))]
pub fn number_of(bytes: &[u8]) -> Result<(u16, &[u8]), WireFault>
    ensures { Gives (λ x. (x.0, x.1.now)) result (number_at bytes.now) }
{
    if bytes.len() < 2 {
        return Err(WireFault::Parse);
    }
    Ok((BigEndian::read_u16(bytes), &bytes[2..]))
}

/// A number of four bytes.
#[tactic(auto, unfolding(crate::specs::Reading::long_at))]
pub fn long_of(bytes: &[u8]) -> Result<(u32, &[u8]), WireFault>
    ensures { Gives (λ x. (x.0, x.1.now)) result (long_at bytes.now) }
{
    if bytes.len() < 4 {
        return Err(WireFault::Parse);
    }
    Ok((BigEndian::read_u32(bytes), &bytes[4..]))
}

/// A string, whose length stands in front of it, without a copy.
#[tactic(auto, using(crate::proofs::Texts::is_utf8_true, crate::proofs::Texts::is_utf8_false), unfolding(crate::specs::Reading::string_at))]
pub fn str_of(bytes: &[u8]) -> Result<(&str, &[u8]), WireFault>
    ensures { Gives (λ x. (x.0.now, x.1.now)) result (string_at bytes.now) }
{
    let (length, rest) = number_of(bytes)?;
    let length = usize::from(length);
    if rest.len() < length {
        return Err(WireFault::Parse);
    }
    let (text, rest) = rest.split_at(length);
    match str::from_utf8(text) {
        Ok(text) => Ok((text, rest)),
        Err(_) => Err(WireFault::Parse),
    }
}

/// A string, which is copied.
pub fn text_of(alloc: Global, bytes: &[u8]) -> Result<(Text, &[u8]), WireFault>
    ensures { Gives (λ x. (x.0, x.1.now)) result (string_at bytes.now) }
{
    let (text, rest) = str_of(bytes)?;
    Ok((Text::wrap(String::from_str(alloc, text)?), rest))
}

/// The bytes after a count of authentication blocks that is 0.
#[tactic(auto, unfolding(crate::specs::Reading::no_block_at))]
pub fn after_no_block(bytes: &[u8]) -> Result<&[u8], WireFault>
    ensures { Gives (λ x. (tt, x.now)) result (no_block_at bytes.now) }
{
    let (blocks, rest) = byte_of(bytes)?;
    if blocks != 0 {
        return Err(WireFault::Auth);
    }
    Ok(rest)
}

/// The bytes after a security parameter index whose name is empty.
#[tactic(auto, unfolding(crate::specs::Reading::no_index_at))]
pub fn after_no_index(bytes: &[u8]) -> Result<&[u8], WireFault>
    ensures { Gives (λ x. (tt, x.now)) result (no_index_at bytes.now) }
{
    let (index, rest) = str_of(bytes)?;
    if !index.is_empty() {
        return Err(WireFault::Auth);
    }
    Ok(rest)
}

/// A URL entry (RFC 2608, section 4.3) without authentication blocks, without a copy.
#[tactic(auto, unfolding(crate::specs::Reading::entry_at))]
pub fn entry_view_of(bytes: &[u8]) -> Result<(EntryView<'_>, &[u8]), WireFault>
    ensures { Gives (λ x. (entry_in x.0, x.1.now)) result (entry_at bytes.now) }
{
    let (_, rest) = byte_of(bytes)?;
    let (lifetime, rest) = number_of(rest)?;
    let (url, rest) = str_of(rest)?;
    let rest = after_no_block(rest)?;
    Ok((EntryView { lifetime, url }, rest))
}

// The same, which is copied.
fn entry_of(alloc: Global, bytes: &[u8]) -> Result<(UrlEntry, &[u8]), WireFault>
    ensures { Gives (λ x. (x.0, x.1.now)) result (entry_at bytes.now) }
{
    let (view, rest) = entry_view_of(bytes)?;
    Ok((view.copy(alloc)?, rest))
}

// The count is not trusted: memory is taken as the entries come.
fn entries_of(alloc: Global, count: u16, bytes: &[u8]) -> Result<(Vec<UrlEntry>, &[u8]), WireFault>
    ensures { Gives (λ x. (x.0.items, x.1.now)) result (entries_at count bytes.now) }
{
    let mut entries = Vec::new(alloc);
    let mut rest = bytes;
    for _ in 0..count {
        let (entry, after) = entry_of(alloc, rest)?;
        entries.push(entry)?;
        rest = after;
    }
    Ok((entries, rest))
}

/// A count, and so many URL entries.
#[tactic(auto, unfolding(crate::specs::Reading::listing_at))]
pub fn listing_of(alloc: Global, bytes: &[u8]) -> Result<(Row<UrlEntry>, &[u8]), WireFault>
    ensures { Gives (λ x. (x.0, x.1.now)) result (listing_at bytes.now) }
{
    let (count, rest) = number_of(bytes)?;
    let (entries, rest) = entries_of(alloc, count, rest)?;
    Ok((Row::wrap(entries), rest))
}

/// The greatest length of a naming authority stands for all of them.
pub(crate) const ALL: u16 = 0xffff;

/// A naming authority (RFC 2608, section 10.1), lent.
#[tactic(auto, unfolding(crate::specs::Reading::authority_at))]
pub fn authority_view_of(bytes: &[u8]) -> Result<(AuthorityView<'_>, &[u8]), WireFault>
    ensures { Gives (λ x. (authority_in x.0, x.1.now)) result (authority_at bytes.now) }
{
    let (length, rest) = number_of(bytes)?;
    if length == ALL {
        return Ok((AuthorityView::All, rest));
    }
    let (name, rest) = str_of(bytes)?;
    Ok((AuthorityView::Named(name), rest))
}
