//! What is a reply to a request, and what it says.
ghost use Rattle.std.specs.Prelude.{◌≡◌, IfOk, Some, None};
ghost use Rattle.std.specs.Option.{option_map};
ghost use Rattle.slp_headers.specs.Headers.{heading_in};
ghost use Rattle.agent_clients.specs.Replies.{answers, reply_heading, is_cut, refused, said_in, by_datagram, by_stream};
ghost use Rattle.slp_messages.specs.declared.header.Header.{Header};
ghost use Rattle.slp_messages.specs.declared.message.Message.TheVariants as message;

use crate::fault::ClientFault;
use crate::items::Items;
use slp_text::NoMemory;
use slp_wire::{
    AttributeReply, DirectoryAdvert, DirectoryAgent, ErrorCode, HeaderView, Message, ServiceReply,
    TypeReply, WireFault, decode, flag, function, read_header, reply_function,
};
use std::alloc::Global;

/// What bytes bring to who waits for a reply.
#[derive(Drop)]
pub(crate) enum Brought {
    /// They are no reply to the request.
    Nothing,
    /// A reply that does not fit a datagram.
    Cut,
    Replied(Result<Items, ClientFault>),
}

// Whether a message of a function replies to one of another.
fn is_answered(asked: u8, replied: u8) -> bool
    ensures { result ≡ answers asked replied }
{
    if reply_function(asked) == Some(replied) {
        return true;
    }
    asked == function::SERVICE_REQUEST && replied == function::DIRECTORY_ADVERT
}

// The header in front of bytes, where it is that of a reply to the request.
fn header_of_reply<'a>(request: &[u8], bytes: &'a [u8]) -> Option<HeaderView<'a>>
    ensures { option_map heading_in result ≡ reply_heading request.now bytes.now }
{
    let asked = read_header(request)?;
    let header = read_header(bytes)?;
    let is_reply = header.version == 2
        && header.xid == asked.xid
        && is_answered(asked.function, header.function);
    if is_reply { Some(header) } else { None }
}

// Whether a header says that its message was cut.
fn is_marked_cut(header: &HeaderView<'_>) -> bool
    ensures { result ≡ is_cut (heading_in header.now) }
{
    header.flags & flag::OVERFLOW != 0
}

// What a reply says that has this code and no items.
fn refused(code: &ErrorCode) -> Brought
    ensures { result ≡ refused code.now }
{
    Brought::Replied(Err(ClientFault::Code(code.get())))
}

fn services_said(reply: ServiceReply) -> Brought
    ensures { (h : Header) → result ≡ said_in (message.ServiceReply h reply) }
{
    match reply {
        ServiceReply::Found(entries) => Brought::Replied(Ok(Items::Urls(entries))),
        ServiceReply::Refused(code) => refused(&code),
    }
}

fn attributes_said(reply: AttributeReply) -> Brought
    ensures { (h : Header) → result ≡ said_in (message.AttributeReply h reply) }
{
    match reply {
        AttributeReply::Found(list) => Brought::Replied(Ok(Items::Attributes(list))),
        AttributeReply::Refused(code) => refused(&code),
    }
}

fn types_said(reply: TypeReply) -> Brought
    ensures { (h : Header) → result ≡ said_in (message.TypeReply h reply) }
{
    match reply {
        TypeReply::Found(list) => Brought::Replied(Ok(Items::Types(list))),
        TypeReply::Refused(code) => refused(&code),
    }
}

fn agent_said(advert: DirectoryAdvert) -> Brought
    ensures { (h : Header) → result ≡ said_in (message.DirectoryAdvert h advert) }
{
    match advert {
        DirectoryAdvert::Present(agent) => {
            let DirectoryAgent { url, scopes, .. } = agent;
            Brought::Replied(Ok(Items::Advert { url, scopes }))
        }
        DirectoryAdvert::Refused(code) => refused(&code),
    }
}

fn acknowledgement_said(code: u16) -> Brought
    ensures { (h : Header) → result ≡ said_in (message.Acknowledgement h code) }
{
    if code == 0 {
        return Brought::Replied(Ok(Items::Acknowledged));
    }
    Brought::Replied(Err(ClientFault::Code(code)))
}

// What a message says, as a reply.
fn said(message: Message) -> Brought
    ensures { result ≡ said_in message }
{
    match message {
        Message::ServiceReply(header, reply) => {
            drop(header);
            services_said(reply)
        }
        Message::Acknowledgement(header, code) => {
            drop(header);
            acknowledgement_said(code)
        }
        Message::AttributeReply(header, reply) => {
            drop(header);
            attributes_said(reply)
        }
        Message::DirectoryAdvert(header, advert) => {
            drop(header);
            agent_said(advert)
        }
        Message::TypeReply(header, reply) => {
            drop(header);
            types_said(reply)
        }
        other => {
            drop(other);
            Brought::Nothing
        }
    }
}

/// What a datagram brings to who sent the request.
pub(crate) fn brought_by_datagram(
    alloc: Global,
    request: &[u8],
    bytes: &[u8],
) -> Result<Brought, NoMemory>
    ensures { IfOk result (λ b. b ≡ by_datagram request.now bytes.now) }
{
    let Some(header) = header_of_reply(request, bytes) else {
        return Ok(Brought::Nothing);
    };
    if is_marked_cut(&header) {
        return Ok(Brought::Cut);
    }
    match decode(alloc, bytes) {
        Ok(message) => Ok(said(message)),
        Err(WireFault::NoMemory) => Err(NoMemory),
        Err(_) => Ok(Brought::Nothing),
    }
}

/// What a message on a stream brings to who sent the request.
pub(crate) fn brought_by_stream(
    alloc: Global,
    request: &[u8],
    bytes: &[u8],
) -> Result<Brought, NoMemory>
    ensures { IfOk result (λ b. b ≡ by_stream request.now bytes.now) }
{
    let Some(header) = header_of_reply(request, bytes) else {
        return Ok(Brought::Nothing);
    };
    let is_cut = is_marked_cut(&header);
    match decode(alloc, bytes) {
        Ok(message) if is_cut => {
            drop(message);
            Ok(Brought::Replied(Err(ClientFault::Partial)))
        }
        Ok(message) => Ok(said(message)),
        Err(WireFault::NoMemory) => Err(NoMemory),
        Err(_) => Ok(Brought::Nothing),
    }
}
