//! A registration that is kept, and what is sent for it.
ghost use Rattle.std.specs.Prelude.{◌≡◌, ◌≤◌, ◌⊎◌, ◌+◌, ℕ, List, length, take, IfOk, MatchResult, Ok};
ghost use Rattle.slp_messages.specs.declared.header.Header.{Header as Headed};
ghost use Rattle.slp_messages.specs.declared.message.Message.TheVariants as message;
ghost use Rattle.slp_messages.specs.declared.message.Registration.{Registration};
ghost use Rattle.slp_messages.specs.Tags.{IsTag};
ghost use Rattle.slp_wire.specs.Reading.{reading, marked_bytes};
ghost use Rattle.slp_wire.specs.Spelling.{plain_bytes};
ghost use Rattle.slp_text.specs.Keys.{key_of};
ghost use Rattle.agent_clients.specs.Keeping.{IsRegistration, IsRead, parts_in, is_named, is_due, renewed, kept_of, refreshed, withdrawal_of};
ghost use Rattle.agent_clients.specs.declared.fault.ClientFault.TheVariants as fault;

use crate::fault::ClientFault;
use crate::requests::{RequestHeader, withdrawal};
use byteorder::{BigEndian, ByteOrder};
use slp_messages::{KeptHeader, RegistrationView};
use slp_text::{Key, NoMemory, Text};
use slp_wire::{ChangeView, Tag, flag, offset, read_change, read_header};
use std::alloc::{AllocError, Global};
use std::marker::Model;

/// A registration that is kept.
#[derive(Drop)]
pub(crate) struct Lease {
    bytes: Vec<u8>,
    url: Text,
    language: Tag,
    // The key of the language.
    key: Key,
    scopes: Text,
    // In seconds.
    lifetime: u16,
    // The moment at which it is sent again.
    due: u64,
}

impl Model for Lease {
    ghost use Rattle.std.specs.Prelude.{◌≡◌, ◌≤◌, ◌+◌, length};
    ghost use Rattle.slp_text.specs.Keys.{key_of};
    ghost use Rattle.agent_clients.specs.Keeping.{Kept};

    ghost Value = { Kept };

    ghost view = { λ l. record { bytes = l.bytes.items; url = l.url; language = l.language; scopes = l.scopes; lifetime = l.lifetime; due = l.due } };

    // Its withdrawal is shorter than it is.
    ghost invariant = { λ l. (l.key ≡ key_of l.language) × (14 ≤ length l.bytes.items) × (length l.language + (length l.scopes + length l.url) + 24 ≤ 65535) };
}

// A text of these characters.
fn copied(alloc: Global, text: &str) -> Result<Text, NoMemory>
    ensures { IfOk result (λ t. t ≡ text.now) }
{
    Ok(Text::wrap(String::from_str(alloc, text)?))
}

// The parts of a registration by which it is known, and how many bytes its message has.
#[derive(Drop)]
struct Parts {
    url: Text,
    language: Tag,
    key: Key,
    scopes: Text,
    lifetime: u16,
    length: usize,
}

// The parts of what was read, which are copied; its message has so many bytes.
fn copied_parts(
    alloc: Global,
    kept: &KeptHeader<'_>,
    registration: &RegistrationView<'_>,
    marked: usize,
) -> Result<Parts, NoMemory>
    requires { IsTag kept.now.language.now }
    ensures { IfOk result (λ p. p ≡ parts_in kept.now registration.now marked) }
{
    let key = Key::of(alloc, kept.language)?;
    let language = Tag::new(alloc, kept.language)?;
    let url = copied(alloc, registration.entry.url)?;
    let scopes = copied(alloc, registration.scopes)?;
    Ok(Parts {
        url,
        language,
        key,
        scopes,
        lifetime: registration.entry.lifetime,
        length: marked,
    })
}

fn parts_of(alloc: Global, bytes: &[u8]) -> Result<Parts, NoMemory>
    requires { IsRegistration bytes.now }
    ensures read { (h : Headed) (r : Registration) → reading bytes.now ≡ Ok (message.Registration h r) → IfOk result (λ p. IsRead h r bytes.now p) }
    ensures key { IfOk result (λ p. p.key ≡ key_of p.language) }
    ensures header { IfOk result (λ p. 14 ≤ length (take p.length bytes.now)) }
    ensures short { length bytes.now ≤ 65535 → IfOk result (λ p. length p.language + (length p.scopes + length p.url) + 24 ≤ 65535) }
{
    let Some(header) = read_header(bytes) else {
        unreachable!()
    };
    // A registration stands there, so there is no fault but that memory is out.
    let Ok(change) = read_change(&header, bytes) else {
        return Err(NoMemory);
    };
    let ChangeView::Registration(kept, registration) = change else {
        unreachable!()
    };
    copied_parts(alloc, &kept, &registration, header.length as usize)
}

impl Lease {
    /// The lease of a registration, which is due at once.
    pub fn of(alloc: Global, mut bytes: Vec<u8>) -> Result<Lease, NoMemory>
        requires read { IsRegistration bytes.items }
        requires short { length bytes.items ≤ 65535 }
        ensures { (h : Headed) (r : Registration) → reading bytes.items ≡ Ok (message.Registration h r) → IfOk result (λ l. l ≡ kept_of h r bytes.items) }
    {
        let parts = parts_of(alloc, bytes.as_slice())?;
        let Parts {
            url,
            language,
            key,
            scopes,
            lifetime,
            length,
        } = parts;
        bytes.truncate(length);
        Ok(Lease {
            bytes,
            url,
            language,
            key,
            scopes,
            lifetime,
            due: 0,
        })
    }

    /// Whether a URL and the key of a language name it.
    pub fn is_named(&self, url: &str, key: &Key) -> bool
        ensures { result ≡ is_named url.now key.now self.now }
    {
        self.url.as_str() == url && self.key == *key
    }

    /// The URL.
    pub fn url(&self) -> &str
        ensures { result.now ≡ self.now.url }
    {
        self.url.as_str()
    }

    /// The key of the language.
    pub fn key(&self) -> &Key
        ensures { result.now ≡ key_of self.now.language }
    {
        &self.key
    }

    /// Whether it is due at a moment.
    pub fn is_due(&self, now: u32) -> bool
        ensures { result ≡ is_due now self.now }
    {
        self.due <= u64::from(now)
    }

    /// From a moment at which it was due on it is due again after half its lifetime.
    pub fn renew(&mut self, now: u32)
        ensures { self.new ≡ renewed now self.old }
    {
        if self.is_due(now) {
            self.due = u64::from(now) + u64::from(self.lifetime / 2);
        }
    }

    /// The registration with FRESH and this XID.
    pub fn refreshed(&self, alloc: Global, xid: u16) -> Result<Vec<u8>, AllocError>
        ensures { IfOk result (λ v. v.items ≡ refreshed xid self.now.bytes) }
    {
        let mut bytes = Vec::from_slice(alloc, self.bytes.as_slice())?;
        let flags = BigEndian::read_u16(&bytes[offset::FLAGS..]) | flag::FRESH;
        bytes[offset::FLAGS..offset::EXTENSION].copy_from_slice(&flags.to_be_bytes());
        bytes[offset::XID..offset::TAG_LENGTH].copy_from_slice(&xid.to_be_bytes());
        Ok(bytes)
    }

    /// The withdrawal of the registration, with this XID.
    pub fn withdrawal(&self, alloc: Global, xid: u16) -> Result<Vec<u8>, NoMemory>
        ensures { IfOk result (λ v. v.items ≡ plain_bytes (withdrawal_of xid self.now)) }
    {
        let header = RequestHeader {
            xid,
            language: self.language.as_str(),
        };
        match withdrawal(alloc, &header, self.scopes.as_str(), self.url.as_str(), "") {
            Ok(bytes) => Ok(bytes),
            Err(ClientFault::NoMemory) => Err(NoMemory),
            Err(_) => unreachable!(),
        }
    }
}
