//! The reply to a service request, written from what is lent (RFC 2608, section 8.2).
ghost use Rattle.std.specs.Prelude.{◌≡◌, ◌≤◌, ◌+◌, ◌-◌, ◌++◌, length, vec_len, vec_capacity, IfOk, []};
ghost use Rattle.std.specs.List.{flat_map};
ghost use Rattle.slp_fields.specs.Spelling.{entry_bytes};
ghost use Rattle.slp_headers.specs.Headers.{heading_in};
ghost use Rattle.slp_wire.specs.Spelling.{plain_bytes};
ghost use Rattle.directory_state.specs.Fronts.{items_in};
ghost use Rattle.slp_answer.specs.ServiceReplies.{service_reply};

use directory_state::{FoundItems, Room};
use slp_text::NoMemory;
use slp_wire::{HeaderView, append, code, function, offset, put_entry, reply_opening, two_bytes};

// The bytes of a reply with no item, but for the language tag: a header, a code and a count.
const EMPTY_REPLY: usize = offset::TAG + 2 + 2;

// The bytes of a URL entry, but for its URL: a reserved byte, a lifetime, a length and a count.
const EMPTY_ENTRY: usize = 6;

/// The room for URL entries in a reply within a limit, in bytes.
pub fn room_in(header: &HeaderView<'_>, limit: usize) -> Room
    requires { 1400 ≤ limit }
    ensures bytes { result.bytes + 18 + length header.now.language.now ≡ limit }
    ensures each { result.each ≡ 6 }
{
    Room {
        bytes: limit - EMPTY_REPLY - header.language.len(),
        each: EMPTY_ENTRY,
    }
}

// The bytes of the entries that were found.
fn entries_length(found: &FoundItems<'_>) -> usize
    requires { length (flat_map (entry_bytes 0) (items_in found.now)) ≤ 65535 }
    ensures { result ≡ length (flat_map (entry_bytes 0) (items_in found.now)) }
{
    let mut total = 0;
    for (url, _) in found.latest.as_slice() {
        total += EMPTY_ENTRY + url.text().len();
    }
    total
}

// Appends the entries that were found, for which there is room.
fn put_entries(bytes: &mut Vec<u8>, found: &FoundItems<'_>)
    requires room { vec_len bytes.old + length (flat_map (entry_bytes 0) (items_in found.now)) ≤ vec_capacity bytes.old }
    ensures items { bytes.new.items ≡ bytes.old.items ++ flat_map (entry_bytes 0) (items_in found.now) }
{
    for (url, deadline) in found.latest.as_slice() {
        let left = deadline
            .saturating_sub(found.moment)
            .min(u64::from(u16::MAX));
        put_entry(bytes, left as u16, url.text());
    }
}

/// Writes the reply to a service request with what was found.
pub fn put_found(
    header: &HeaderView<'_>,
    found: &FoundItems<'_>,
    bytes: &mut Vec<u8>,
) -> Result<(), NoMemory>
    requires empty { bytes.old.items ≡ [] }
    requires short { length (plain_bytes (service_reply (heading_in header.now) found.now.is_cut (items_in found.now))) ≤ 65535 }
    ensures { IfOk result (λ _. bytes.new.items ≡ plain_bytes (service_reply (heading_in header.now) found.now.is_cut (items_in found.now))) }
{
    let tag = header.language.as_bytes();
    let total = EMPTY_REPLY + tag.len() + entries_length(found);
    let fixed = reply_opening(header, function::SERVICE_REPLY, total, found.is_cut);
    bytes.reserve(total)?;
    append(bytes, &fixed);
    append(bytes, tag);
    append(bytes, &code::OK.to_be_bytes());
    append(bytes, &two_bytes(found.latest.len()));
    put_entries(bytes, found);
    Ok(())
}
