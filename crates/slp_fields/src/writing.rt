//! Writing of fields into memory that is there already: nothing here can be refused.
ghost use Rattle.std.specs.Prelude.{◌≡◌, ◌≤◌, ◌+◌, ◌++◌, length, vec_len, vec_capacity};
ghost use Rattle.slp_headers.specs.Headers.{string};
ghost use Rattle.slp_fields.specs.Spelling.{entry_bytes, listing, authority_bytes};
ghost use Rattle.slp_fields.specs.Writing.{field_bytes, fields_bytes};

use crate::field::Field;
use slp_headers::two_bytes;
use slp_messages::{Authority, UrlEntry};

/// Appends bytes, for which there is room.
pub fn append(bytes: &mut Vec<u8>, more: &[u8])
    requires room { vec_len bytes.old + length more.now ≤ vec_capacity bytes.old }
    ensures items { bytes.new.items ≡ bytes.old.items ++ more.now }
    ensures length { vec_len bytes.new ≡ vec_len bytes.old + length more.now }
    ensures capacity { vec_capacity bytes.old ≤ vec_capacity bytes.new }
{
    match bytes.extend_from_slice(more) {
        Ok(()) => {}
        Err(_) => unreachable!(),
    }
}

fn put_text(bytes: &mut Vec<u8>, text: &str)
    requires room { vec_len bytes.old + length (string text.now) ≤ vec_capacity bytes.old }
    ensures items { bytes.new.items ≡ bytes.old.items ++ string text.now }
    ensures length { vec_len bytes.new ≡ vec_len bytes.old + length (string text.now) }
    ensures capacity { vec_capacity bytes.old ≤ vec_capacity bytes.new }
{
    let text = text.as_bytes();
    append(bytes, &two_bytes(text.len()));
    append(bytes, text);
}

/// Appends a URL entry, for which there is room, of a lifetime in seconds and a URL.
#[inline(always)]
pub fn put_entry(bytes: &mut Vec<u8>, lifetime: u16, url: &str)
    requires room { vec_len bytes.old + length (entry_bytes 0 (record { lifetime = lifetime; url = url.now })) ≤ vec_capacity bytes.old }
    ensures items { bytes.new.items ≡ bytes.old.items ++ entry_bytes 0 (record { lifetime = lifetime; url = url.now }) }
    ensures length { vec_len bytes.new ≡ vec_len bytes.old + length (entry_bytes 0 (record { lifetime = lifetime; url = url.now })) }
    ensures capacity { vec_capacity bytes.old ≤ vec_capacity bytes.new }
{
    let [high, low] = lifetime.to_be_bytes();
    let [long, short] = two_bytes(url.len());
    append(bytes, &[0, high, low, long, short]);
    append(bytes, url.as_bytes());
    append(bytes, &[0]);
}

fn put_entries(bytes: &mut Vec<u8>, entries: &[UrlEntry])
    requires room { vec_len bytes.old + length (listing entries.now) ≤ vec_capacity bytes.old }
    ensures items { bytes.new.items ≡ bytes.old.items ++ listing entries.now }
    ensures length { vec_len bytes.new ≡ vec_len bytes.old + length (listing entries.now) }
    ensures capacity { vec_capacity bytes.old ≤ vec_capacity bytes.new }
{
    append(bytes, &two_bytes(entries.len()));
    for entry in entries {
        put_entry(bytes, entry.lifetime, entry.url.as_str());
    }
}

fn put_authority(bytes: &mut Vec<u8>, authority: &Authority)
    requires room { vec_len bytes.old + length (authority_bytes authority.now) ≤ vec_capacity bytes.old }
    ensures items { bytes.new.items ≡ bytes.old.items ++ authority_bytes authority.now }
    ensures length { vec_len bytes.new ≡ vec_len bytes.old + length (authority_bytes authority.now) }
    ensures capacity { vec_capacity bytes.old ≤ vec_capacity bytes.new }
{
    match authority {
        Authority::All => append(bytes, &[0xff, 0xff]),
        Authority::Named(name) => put_text(bytes, name.as_str()),
    }
}

fn put_field(bytes: &mut Vec<u8>, field: Field<'_>)
    requires room { vec_len bytes.old + length (field_bytes field) ≤ vec_capacity bytes.old }
    ensures items { bytes.new.items ≡ bytes.old.items ++ field_bytes field.entry }
    ensures length { vec_len bytes.new ≡ vec_len bytes.old + length (field_bytes field.entry) }
    ensures capacity { vec_capacity bytes.old ≤ vec_capacity bytes.new }
{
    match field {
        Field::Number(number) => append(bytes, &number.to_be_bytes()),
        Field::Long(number) => append(bytes, &number.to_be_bytes()),
        Field::Text(text) => put_text(bytes, text.as_str()),
        Field::Entry(entry) => put_entry(bytes, entry.lifetime, entry.url.as_str()),
        Field::Entries(entries) => put_entries(bytes, entries),
        Field::Authority(authority) => put_authority(bytes, authority),
        Field::NoBlock => append(bytes, &[0]),
        Field::NoIndex => append(bytes, &[0, 0]),
    }
}

/// Appends fields, one after the other, for which there is room.
pub fn put_fields(bytes: &mut Vec<u8>, fields: &[Field<'_>])
    requires room { vec_len bytes.old + length (fields_bytes fields.now) ≤ vec_capacity bytes.old }
    ensures items { bytes.new.items ≡ bytes.old.items ++ fields_bytes fields.now }
    ensures length { vec_len bytes.new ≡ vec_len bytes.old + length (fields_bytes fields.now) }
    ensures capacity { vec_capacity bytes.old ≤ vec_capacity bytes.new }
{
    for field in fields {
        put_field(bytes, *field);
    }
}
