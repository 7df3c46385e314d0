//! How long fields are, in bytes. A sum stops growing one above the longest message.
ghost use Rattle.std.specs.Prelude.{◌≡◌, ◌≤◌, ◌+◌, length, min};
ghost use Rattle.std.specs.List.{AllByRecursion};
ghost use Rattle.slp_headers.specs.Headers.{string};
ghost use Rattle.slp_messages.specs.Fields.{IsString, IsEntry, AreEntries, IsAuthority};
ghost use Rattle.slp_fields.specs.Spelling.{entry_bytes, listing, authority_bytes};
ghost use Rattle.slp_fields.specs.Writing.{field_bytes, fields_bytes, IsField, longest};

use crate::field::Field;
use slp_messages::{Authority, UrlEntry};
use slp_text::Text;

/// A message that is sent has at most so many bytes.
pub const LONGEST: usize = 65535;

/// The bytes of a URL entry (RFC 2608, section 4.3).
pub fn entry_length(entry: &UrlEntry) -> usize
    ensures { result ≡ length (entry_bytes 0 entry.now) }
{
    6 + entry.url.as_str().len()
}

fn grown(total: usize, more: usize) -> usize
    ensures { result ≡ min (total + more) 65536 }
{
    total.saturating_add(more).min(LONGEST + 1)
}

fn with_text(total: usize, text: &Text) -> usize
    ensures length { result ≡ min (total + length (string text.now)) 65536 }
    ensures sound { result ≤ longest → IsString text.now }
{
    let bytes = text.as_str().as_bytes();
    grown(grown(total, 2), bytes.len())
}

fn with_entry(total: usize, entry: &UrlEntry) -> usize
    ensures length { result ≡ min (total + length (entry_bytes 0 entry.now)) 65536 }
    ensures sound { result ≤ longest → IsEntry entry.now }
{
    let _lifetime = entry.lifetime;
    with_text(grown(total, 4), &entry.url)
}

fn with_entries(total: usize, entries: &[UrlEntry]) -> usize
    ensures length { result ≡ min (total + length (listing entries.now)) 65536 }
    ensures sound { result ≤ longest → AreEntries entries.now }
{
    let mut total = grown(total, 2);
    for entry in entries {
        total = with_entry(total, entry);
    }
    total
}

fn with_authority(total: usize, authority: &Authority) -> usize
    ensures length { result ≡ min (total + length (authority_bytes authority.now)) 65536 }
    ensures sound { result ≤ longest → IsAuthority authority.now }
{
    match authority {
        Authority::All => grown(total, 2),
        Authority::Named(name) => with_text(total, name),
    }
}

fn with_field(total: usize, field: Field<'_>) -> usize
    ensures length { result ≡ min (total + length (field_bytes field.entry)) 65536 }
    ensures sound { result ≤ longest → IsField field.entry }
{
    match field {
        Field::Number(number) => {
            let _number = number;
            grown(total, 2)
        }
        Field::Long(number) => {
            let _number = number;
            grown(total, 4)
        }
        Field::Text(text) => with_text(total, text),
        Field::Entry(entry) => with_entry(total, entry),
        Field::Entries(entries) => with_entries(total, entries),
        Field::Authority(authority) => with_authority(total, authority),
        Field::NoBlock => grown(total, 1),
        Field::NoIndex => grown(total, 2),
    }
}

/// So many bytes and these fields. Where they are no more than the longest message has, each field
/// holds what its place can.
pub fn with_fields(total: usize, fields: &[Field<'_>]) -> usize
    ensures length { result ≡ min (total + length (fields_bytes fields.now)) 65536 }
    ensures sound { result ≤ longest → AllByRecursion IsField fields.now }
{
    let mut total = grown(total, 0);
    for field in fields {
        total = with_field(total, *field);
    }
    total
}
