//! Requests by their parts (RFC 2608, sections 8.1, 8.3, 10.1, 10.3 and 10.6).
ghost use Rattle.std.specs.Prelude.{◌≡◌, ◌⊎◌, ◌≤◌, false, true, [], length, IfOk, MatchResult};
ghost use Rattle.std.specs.List.{list_all};
ghost use Rattle.std.specs.Option.{option_copied};
ghost use Rattle.slp_messages.specs.Tags.{is_tag_byte};
ghost use Rattle.slp_messages.specs.Views.{registration_in};
ghost use Rattle.slp_messages.specs.declared.message.Message.TheVariants as message;
ghost use Rattle.agent_clients.specs.Keeping.{IsRegistration};
ghost use Rattle.agent_clients.specs.Requests.{is_tag, request_header, authority_of, IsSpelled, IsUnbuilt};
ghost use Rattle.agent_clients.specs.declared.fault.ClientFault.TheVariants as fault;

use crate::fault::ClientFault;
use slp_messages::{
    AttributeRequestView, AuthorityView, EntryView, RegistrationView, ServiceRequestView,
    TypeRequestView, WithdrawalView,
};
use slp_wire::{Flags, Header, Message, Tag, WireFault, encode};
use std::alloc::Global;

/// With what a request begins: the number by which its reply is matched to it, and its language.
#[derive(Clone, Copy)]
pub struct RequestHeader<'a> {
    pub xid: u16,
    pub language: &'a str,
}

fn is_printable(b: u8) -> bool
    ensures { result ≡ is_tag_byte b }
{
    (0x21..=0x7e).contains(&b)
}

fn are_printable(bytes: &[u8]) -> bool
    ensures { result ≡ list_all is_tag_byte bytes.now }
{
    bytes.iter().all(|b| is_printable(*b))
}

// Whether a text is a language tag that is readable.
fn is_readable(text: &str) -> bool
    ensures { result ≡ is_tag text.now }
{
    text.len() <= Tag::LONGEST && are_printable(text.as_bytes())
}

// The header of a request.
fn header_with(
    alloc: Global,
    header: &RequestHeader<'_>,
    is_fresh: bool,
) -> Result<Header, ClientFault>
    ensures { MatchResult result (λ h. h ≡ request_header is_fresh header.now) (λ e. (e ≡ fault.NoMemory) ⊎ ((e ≡ fault.TooLong) × (is_tag header.now.language.now ≡ false))) }
{
    if !is_readable(header.language) {
        return Err(ClientFault::TooLong);
    }
    let language = Tag::new(alloc, header.language)?;
    let flags = Flags {
        overflow: false,
        fresh: is_fresh,
        multicast: false,
    };
    Ok(Header {
        flags,
        xid: header.xid,
        language,
    })
}

// The bytes of a message.
fn encoded(alloc: Global, message: Message) -> Result<Vec<u8>, ClientFault>
    ensures { MatchResult result (λ v. IsSpelled message v.items) (IsUnbuilt message) }
{
    let mut bytes = Vec::new(alloc);
    let told = encode(&message, &mut bytes);
    drop(message);
    match told {
        Ok(()) => Ok(bytes),
        Err(WireFault::TooLong) => Err(ClientFault::TooLong),
        Err(_) => Err(ClientFault::NoMemory),
    }
}

/// A request for the URLs of services of a type, in these scopes, on whose attributes a predicate
/// holds; an empty one holds on all. `TooLong` where the language is no readable tag, or the message
/// has more than 65,535 bytes; so of each builder here.
pub fn service_request(
    alloc: Global,
    header: &RequestHeader<'_>,
    kind: &str,
    scopes: &str,
    predicate: &str,
) -> Result<Vec<u8>, ClientFault>
    ensures { let m = message.ServiceRequest (request_header false header.now) (record { responders = []; kind = kind.now; scopes = scopes.now; predicate = predicate.now }) in MatchResult result (λ v. IsSpelled m v.items) (IsUnbuilt m) }
{
    let header = header_with(alloc, header, false)?;
    let request = ServiceRequestView {
        responders: "",
        kind,
        scopes,
        predicate,
    };
    let request = request.copy(alloc)?;
    encoded(alloc, Message::ServiceRequest(header, request))
}

/// A request for the attributes of a URL, or of all services of a type, which these tags select; an
/// empty list selects all.
pub fn attribute_request(
    alloc: Global,
    header: &RequestHeader<'_>,
    subject: &str,
    scopes: &str,
    tags: &str,
) -> Result<Vec<u8>, ClientFault>
    ensures { let m = message.AttributeRequest (request_header false header.now) (record { responders = []; subject = subject.now; scopes = scopes.now; tags = tags.now }) in MatchResult result (λ v. IsSpelled m v.items) (IsUnbuilt m) }
{
    let header = header_with(alloc, header, false)?;
    let request = AttributeRequestView {
        responders: "",
        subject,
        scopes,
        tags,
    };
    let request = request.copy(alloc)?;
    encoded(alloc, Message::AttributeRequest(header, request))
}

/// A request for the types that there are of a naming authority, or of all where none is named. An
/// empty name asks for those without one.
pub fn type_request(
    alloc: Global,
    header: &RequestHeader<'_>,
    authority: Option<&str>,
    scopes: &str,
) -> Result<Vec<u8>, ClientFault>
    ensures { let m = message.TypeRequest (request_header false header.now) (record { responders = []; authority = authority_of (option_copied authority.entry); scopes = scopes.now }) in MatchResult result (λ v. IsSpelled m v.items) (IsUnbuilt m) }
{
    let header = header_with(alloc, header, false)?;
    let authority = match authority {
        Some(name) => AuthorityView::Named(name),
        None => AuthorityView::All,
    };
    let request = TypeRequestView {
        responders: "",
        authority,
        scopes,
    };
    let request = request.copy(alloc)?;
    encoded(alloc, Message::TypeRequest(header, request))
}

/// A new registration of a service. A service agent may keep it.
#[tactic(auto, using(crate::proofs::Spellings::registration_is_read))]
pub fn registration(
    alloc: Global,
    header: &RequestHeader<'_>,
    service: &RegistrationView<'_>,
) -> Result<Vec<u8>, ClientFault>
    ensures spelled { let m = message.Registration (request_header true header.now) (registration_in service.now) in MatchResult result (λ v. IsSpelled m v.items) (IsUnbuilt m) }
    ensures read { IfOk result (λ v. IsRegistration v.items) }
    ensures short { IfOk result (λ v. length v.items ≤ 65535) }
{
    let header = header_with(alloc, header, true)?;
    let service = service.copy(alloc)?;
    match encoded(alloc, Message::Registration(header, service)) {
        Ok(bytes) => Ok(bytes),
        Err(fault) => Err(fault),
    }
}

/// A withdrawal of a URL, or of those of its attributes that the tags select, where there are any.
pub fn withdrawal(
    alloc: Global,
    header: &RequestHeader<'_>,
    scopes: &str,
    url: &str,
    tags: &str,
) -> Result<Vec<u8>, ClientFault>
    ensures { let m = message.Withdrawal (request_header false header.now) (record { scopes = scopes.now; entry = record { lifetime = 0; url = url.now }; tags = tags.now }) in MatchResult result (λ v. IsSpelled m v.items) (IsUnbuilt m) }
{
    let header = header_with(alloc, header, false)?;
    let entry = EntryView { lifetime: 0, url };
    let request = WithdrawalView {
        scopes,
        entry,
        tags,
    };
    let request = request.copy(alloc)?;
    encoded(alloc, Message::Withdrawal(header, request))
}
