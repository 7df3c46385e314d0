ghost use Rattle.std.specs.Prelude.{◌≡◌, false, true, MatchOption, None, Some};
ghost use Rattle.std.specs.List.{list_all};
ghost use Rattle.slp_headers.specs.Headers.{heading_in, heading_of, is_readable, tag_of};
ghost use Rattle.slp_messages.specs.Tags.{is_tag_byte};

use crate::offset;
use crate::view::HeaderView;
use byteorder::{BigEndian, ByteOrder};
use slp_messages::Tag;

fn is_printable(b: u8) -> bool
    ensures { result ≡ is_tag_byte b }
{
    (0x21..=0x7e).contains(&b)
}

fn are_printable(bytes: &[u8]) -> bool
    ensures { result ≡ list_all is_tag_byte bytes.now }
{
    bytes.iter().all(|b| is_printable(*b))
}

// The tag of a header that is readable. Printable ASCII is UTF-8, so the last arm is never taken.
#[tactic(auto, using(crate::proofs::Texts::is_utf8_tag))]
fn tag_in(bytes: &[u8]) -> Option<&str>
    ensures { MatchOption result (is_readable bytes.now ≡ false) (λ s. (is_readable bytes.now ≡ true) × (s.now ≡ tag_of bytes.now)) }
{
    if bytes.len() < offset::TAG {
        return None;
    }
    let length = usize::from(BigEndian::read_u16(&bytes[offset::TAG_LENGTH..]));
    let rest = &bytes[offset::TAG..];
    if length > Tag::LONGEST || rest.len() < length {
        return None;
    }
    let tag = &rest[..length];
    if !are_printable(tag) {
        return None;
    }
    match str::from_utf8(tag) {
        Ok(tag) => Some(tag),
        Err(_) => None,
    }
}

/// The header of a message (RFC 2608, section 8), where 14 bytes are there and a tag of at most 64
/// printable characters.
pub fn read_header(bytes: &[u8]) -> Option<HeaderView<'_>>
    ensures { MatchOption result (heading_of bytes.now ≡ None) (λ v. heading_of bytes.now ≡ Some (heading_in v)) }
{
    let language = tag_in(bytes)?;
    Some(HeaderView {
        version: bytes[offset::VERSION],
        function: bytes[offset::FUNCTION],
        length: BigEndian::read_u24(&bytes[offset::LENGTH..]),
        flags: BigEndian::read_u16(&bytes[offset::FLAGS..]),
        ext: BigEndian::read_u24(&bytes[offset::EXTENSION..]),
        xid: BigEndian::read_u16(&bytes[offset::XID..]),
        language,
    })
}
