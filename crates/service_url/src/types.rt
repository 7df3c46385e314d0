ghost use Rattle.std.specs.Prelude.{◌≡◌, ◌+◌, ◌&&◌, ◌||◌, ◌∷◌, ◌++◌, ◌≤◌, [], nat_eq, length, drop, IsTrue, IfOk, MatchOption, true, false};
ghost use Rattle.std.specs.Option.{option_copied};
ghost use Rattle.std.specs.Result.{result_ok};
ghost use Rattle.std.specs.List.{list_all, starts_with, position_or_len, before_first, after_first};
ghost use Rattle.service_url.specs.Reading.{IsReading};
ghost use Rattle.slp_text.specs.Ascii.{colon};
ghost use Rattle.service_url.specs.Types as spec;
ghost use Rattle.service_url.specs.Types.{is_colon, type_of, is_dot, authority_of, named_authority, named_service, root_of, service_name_of};

use crate::fault::UrlFault;
use slp_text::{Key, NoMemory, Text, TextFault, folded};
use std::alloc::Global;
use std::marker::Model;

/// A service type, folded, which contracts see as its bytes: `service:A`, `service:A:C`, or a name as
/// `http` of another scheme (RFC 2609, section 2).
pub struct ServiceType {
    text: String,
    // How many bytes its root has.
    root: usize,
    is_abstract: bool,
}

impl Drop for ServiceType {
    #[inline(always)]
    fn drop(self) {
        let ServiceType {
            text: _,
            root: _,
            is_abstract: _,
        } = self;
    }
}

impl Model for ServiceType {
    ghost use Rattle.std.specs.Prelude.{◌≡◌, List, ℕ, length, string_bytes, IsTrue};
    ghost use Rattle.service_url.specs.Types as spec;
    ghost use Rattle.service_url.specs.Types.{is_type, root_of};

    ghost Value = { List ℕ };

    ghost view = { λ a. string_bytes a.text };

    ghost invariant = { λ a. IsTrue (is_type (string_bytes a.text)) × (a.is_abstract ≡ spec.is_abstract (string_bytes a.text)) × (a.root ≡ length (root_of (string_bytes a.text))) };
}

const SERVICE: &[u8] = b"service:";

const DIRECTORY_AGENT: &str = "service:directory-agent";

const SERVICE_AGENT: &str = "service:service-agent";

// Small letters are asked for first, since most are.
fn is_name_byte(b: u8) -> bool
    ensures { result ≡ spec.is_name_byte b }
{
    (b >= b'a' && b <= b'z')
        || (b >= b'0' && b <= b'9')
        || (b >= b'A' && b <= b'Z')
        || matches!(b, b'+' | b'-' | b'.' | b'_')
}

fn are_name_bytes(bytes: &[u8]) -> bool
    ensures { result ≡ list_all spec.is_name_byte bytes.now }
{
    bytes.iter().all(|b| is_name_byte(*b))
}

fn is_name(bytes: &[u8]) -> bool
    ensures { result ≡ spec.is_name bytes.now }
{
    !bytes.is_empty()
        && matches!(bytes[0], b'0'..=b'9' | b'A'..=b'Z' | b'a'..=b'z')
        && are_name_bytes(bytes)
}

fn is_service(bytes: &[u8]) -> bool
    ensures value { result ≡ spec.is_service bytes.now }
    ensures room { IsTrue result → 8 ≤ length bytes.now }
{
    bytes.starts_with(SERVICE)
}

fn is_abstract(bytes: &[u8]) -> bool
    ensures { result ≡ spec.is_abstract bytes.now }
{
    is_service(bytes) && is_name(&bytes[SERVICE.len()..])
}

fn colon_at(bytes: &[u8]) -> usize
    ensures { result ≡ position_or_len is_colon bytes.now }
{
    bytes.iter().take_while(|b| **b != b':').count()
}

fn is_abstract_with_colon(bytes: &[u8]) -> bool
    ensures { result ≡ spec.is_abstract_with_colon bytes.now }
{
    match bytes {
        [front @ .., b':'] => is_abstract(front),
        _ => false,
    }
}

// What a folded text is that is a type: how many bytes its root has, and whether others are made from it.
#[derive(Clone, Copy)]
struct Form {
    root: usize,
    is_abstract: bool,
}

// The form of what follows `service:`.
fn service_form(rest: &[u8]) -> Option<Form>
    ensures { MatchOption result (spec.are_names rest.now ≡ false)
        (λ f. (spec.are_names rest.now ≡ true) × (f.root ≡ 8 + position_or_len is_colon rest.now) × (f.is_abstract ≡ spec.is_name rest.now)) }
{
    let colon = colon_at(rest);
    if !is_name(&rest[..colon]) {
        return None;
    }
    if colon == rest.len() {
        return Some(Form {
            root: SERVICE.len() + colon,
            is_abstract: true,
        });
    }
    if !is_name(&rest[colon + 1..]) {
        return None;
    }
    Some(Form {
        root: SERVICE.len() + colon,
        is_abstract: false,
    })
}

// The form of a folded text, if it is a type. Each byte is looked at once or twice.
fn form_of(bytes: &[u8]) -> Option<Form>
    ensures { MatchOption result (spec.is_type bytes.now ≡ false)
        (λ f. (spec.is_type bytes.now ≡ true) × (f.root ≡ length (root_of bytes.now)) × (f.is_abstract ≡ spec.is_abstract bytes.now)) }
{
    if is_service(bytes) {
        return service_form(&bytes[SERVICE.len()..]);
    }
    if !is_name(bytes) {
        return None;
    }
    Some(Form {
        root: bytes.len(),
        is_abstract: false,
    })
}

// Whether a text begins with a front and a colon.
fn is_followed_by_colon(front: &[u8], text: &[u8]) -> bool
    ensures { result ≡ starts_with nat_eq text.now (front.now ++ colon ∷ []) }
{
    front.len() < text.len() && text[front.len()] == b':' && front == &text[..front.len()]
}

fn before_colon(text: &str) -> &str
    ensures { result.now ≡ before_first is_colon text.now }
{
    match text.split_once(':') {
        Some((front, _)) => front,
        None => text,
    }
}

// What follows the first dot, or nothing where there is none.
fn after_dot(text: &str) -> &str
    ensures { result.now ≡ after_first is_dot text.now }
{
    match text.split_once('.') {
        Some((_, rest)) => rest,
        None => "",
    }
}

// What follows `service:`, or the whole text where it does not begin so.
fn after_service(text: &str) -> &str
    ensures { IsTrue (spec.is_service text.now) → result.now ≡ drop 8 text.now }
{
    match text.strip_prefix("service:") {
        Some(rest) => rest,
        None => text,
    }
}

// The name A of `service:A` and `service:A:C`.
fn service_name(kind: &str) -> Option<&str>
    ensures { option_copied result ≡ service_name_of kind.now }
{
    match kind.strip_prefix("service:") {
        Some(rest) => Some(before_colon(rest)),
        None => None,
    }
}

// That name, or else the whole type.
fn main_name(kind: &str) -> &str
    ensures { result.now ≡ spec.main_name kind.now }
{
    match service_name(kind) {
        Some(name) => name,
        None => kind,
    }
}

impl ServiceType {
    /// The type that a text names. One colon at the end of `service:A` is dropped. What is not a type is
    /// `BadType`.
    pub fn parse(alloc: Global, text: &str) -> Result<ServiceType, UrlFault>
        ensures { IsReading result (type_of text.now) }
    {
        let mut text = match folded(alloc, text) {
            Ok(folded) => folded,
            Err(TextFault::NoMemory) => return Err(UrlFault::NoMemory),
            Err(_) => unreachable!(),
        };
        if is_abstract_with_colon(text.as_bytes()) {
            text.truncate(text.len() - 1);
            let root = text.len();
            return Ok(ServiceType {
                text,
                root,
                is_abstract: true,
            });
        }
        let Some(form) = form_of(text.as_bytes()) else {
            return Err(UrlFault::BadType);
        };
        Ok(ServiceType {
            text,
            root: form.root,
            is_abstract: form.is_abstract,
        })
    }

    /// The same, or `None` where a text is no type.
    pub fn read(alloc: Global, text: &str) -> Result<Option<ServiceType>, NoMemory>
        ensures { IfOk result (λ k. k ≡ result_ok (type_of text.now)) }
    {
        match ServiceType::parse(alloc, text) {
            Ok(kind) => Ok(Some(kind)),
            Err(UrlFault::NoMemory) => Err(NoMemory),
            Err(_) => Ok(None),
        }
    }

    /// The type as folded. Takes no memory.
    pub fn text(&self) -> &str
        ensures { result.now ≡ self.now }
    {
        self.text.as_str()
    }

    /// Whether it covers a type: itself, and where it is abstract each concrete type of it. Takes no
    /// memory.
    #[inline(always)]
    pub fn covers(&self, other: &ServiceType) -> bool
        ensures { result ≡ spec.covers self.now other.now }
    {
        let (kind, made) = (self.text.as_bytes(), other.text.as_bytes());
        kind == made || (self.is_abstract && is_followed_by_colon(kind, made))
    }

    /// Whether others are made from it: it is `service:A`. Takes no memory.
    #[inline(always)]
    pub fn is_abstract(&self) -> bool
        ensures { result ≡ spec.is_abstract self.now }
    {
        self.is_abstract
    }

    /// The type that it is made from: `service:A` of `service:A` and `service:A:C`, else all its bytes. Takes no memory.
    #[inline(always)]
    pub fn root(&self) -> &[u8]
        ensures { result.now ≡ root_of self.now }
    {
        &self.text.as_bytes()[..self.root]
    }

    /// Whether it is the type of directory agents (RFC 2608, section 8.5). Takes no memory.
    pub fn is_directory_agent(&self) -> bool
        ensures { result ≡ spec.is_directory_agent self.now }
    {
        self.text.as_str() == DIRECTORY_AGENT
    }

    /// Whether it is the type of service agents, which only they answer for (RFC 2608, section 8.6). Takes no memory.
    pub fn is_service_agent(&self) -> bool
        ensures { result ≡ spec.is_service_agent self.now }
    {
        self.text.as_str() == SERVICE_AGENT
    }

    /// The name A of `service:A` and `service:A:C`, where the type is one of these. Takes no memory.
    pub fn service_name(&self) -> Option<&str>
        ensures { option_copied result ≡ service_name_of self.now }
    {
        service_name(&self.text)
    }

    /// The naming authority: what follows the first dot of the name after `service:`, or of the type
    /// of another scheme, if it is not empty. Takes no memory.
    pub fn authority(&self) -> Option<&str>
        ensures { option_copied result ≡ authority_of self.now }
    {
        let authority = after_dot(main_name(&self.text));
        if authority.is_empty() {
            return None;
        }
        Some(authority)
    }

    /// An equal type.
    pub fn copy(&self, alloc: Global) -> Result<ServiceType, NoMemory>
        ensures { IfOk result (λ t. t ≡ self.now) }
    {
        let text = String::from_str(alloc, self.text.as_str())?;
        Ok(ServiceType {
            text,
            root: self.root,
            is_abstract: self.is_abstract,
        })
    }
}

/// The naming authority that a text names, folded: not empty, of the characters of a type's name.
/// Another text is `BadType`.
pub fn parse_authority(alloc: Global, text: &str) -> Result<Key, UrlFault>
    ensures { IsReading result (named_authority text.now) }
{
    let folded = Key::of(alloc, text)?;
    if folded.as_str().is_empty() || !are_name_bytes(folded.as_str().as_bytes()) {
        return Err(UrlFault::BadType);
    }
    Ok(folded)
}

/// The name A of a type `service:A` that a text names, folded, with or without `service:` before it
/// (RFC 2609, section 4.1). Another text is `BadType`.
pub fn parse_service_name(alloc: Global, text: &str) -> Result<Text, UrlFault>
    ensures { IsReading result (named_service text.now) }
{
    let folded = match folded(alloc, text) {
        Ok(folded) => folded,
        Err(TextFault::NoMemory) => return Err(UrlFault::NoMemory),
        Err(_) => unreachable!(),
    };
    if is_name(folded.as_str().as_bytes()) {
        return Ok(Text::wrap(folded));
    }
    if !is_abstract(folded.as_str().as_bytes()) {
        return Err(UrlFault::BadType);
    }
    match String::from_str(alloc, after_service(folded.as_str())) {
        Ok(name) => Ok(Text::wrap(name)),
        Err(_) => Err(UrlFault::NoMemory),
    }
}
