ghost use Rattle.std.specs.Prelude.{◌≡◌, ◌≤◌, ◌<◌, ◌+◌, ◌↔◌, ◌⊎◌, ◌++◌, length, min, vec_len, vec_capacity, OnOk, OnErr, IfErr, IsErrOf};
ghost use Rattle.slp_messages.specs.Messages.{IsMessage, IsBody, header_of, function_of};
ghost use Rattle.slp_headers.specs.Headers.{word_of};
ghost use Rattle.slp_fields.specs.declared.fault.WireFault.TheVariants as fault;
ghost use Rattle.slp_wire.specs.Spelling.{plain_bytes, body_of, longest};

use slp_bodies::{
    attribute_request_fields, attributes_fields, directory_agent_fields, refusal_fields,
    registration_fields, service_agent_fields, service_request_fields, services_fields,
    type_request_fields, types_fields, withdrawal_fields,
};
use slp_fields::{Field, LONGEST, WireFault, append, put_fields, with_fields};
use slp_headers::{flag, offset, opening};
use slp_messages::{
    AttributeReply, DirectoryAdvert, Flags, Header, Message, ServiceReply, TypeReply, function,
};

fn with_body(total: usize, message: &Message) -> usize
    ensures length { result ≡ min (total + length (body_of message.now)) 65536 }
    ensures sound { result ≤ longest → IsBody message.now }
{
    match message {
        Message::ServiceRequest(_, request) => with_fields(total, &service_request_fields(request)),
        Message::ServiceReply(_, ServiceReply::Found(entries)) => {
            with_fields(total, &services_fields(entries.as_slice()))
        }
        Message::AttributeReply(_, AttributeReply::Found(list)) => {
            with_fields(total, &attributes_fields(list))
        }
        Message::DirectoryAdvert(_, DirectoryAdvert::Present(agent)) => {
            with_fields(total, &directory_agent_fields(agent))
        }
        Message::TypeReply(_, TypeReply::Found(list)) => with_fields(total, &types_fields(list)),
        Message::ServiceReply(_, ServiceReply::Refused(code))
        | Message::AttributeReply(_, AttributeReply::Refused(code))
        | Message::DirectoryAdvert(_, DirectoryAdvert::Refused(code))
        | Message::TypeReply(_, TypeReply::Refused(code)) => {
            with_fields(total, &refusal_fields(code))
        }
        Message::Registration(_, registration) => {
            with_fields(total, &registration_fields(registration))
        }
        Message::Withdrawal(_, withdrawal) => with_fields(total, &withdrawal_fields(withdrawal)),
        Message::Acknowledgement(_, code) => with_fields(total, &[Field::Number(*code)]),
        Message::AttributeRequest(_, request) => {
            with_fields(total, &attribute_request_fields(request))
        }
        Message::TypeRequest(_, request) => with_fields(total, &type_request_fields(request)),
        Message::ServiceAdvert(_, agent) => with_fields(total, &service_agent_fields(agent)),
    }
}

fn put_body(bytes: &mut Vec<u8>, message: &Message)
    requires room { vec_len bytes.old + length (body_of message.now) ≤ vec_capacity bytes.old }
    ensures { bytes.new.items ≡ bytes.old.items ++ body_of message.now }
{
    match message {
        Message::ServiceRequest(_, request) => put_fields(bytes, &service_request_fields(request)),
        Message::ServiceReply(_, ServiceReply::Found(entries)) => {
            put_fields(bytes, &services_fields(entries.as_slice()))
        }
        Message::AttributeReply(_, AttributeReply::Found(list)) => {
            put_fields(bytes, &attributes_fields(list))
        }
        Message::DirectoryAdvert(_, DirectoryAdvert::Present(agent)) => {
            put_fields(bytes, &directory_agent_fields(agent))
        }
        Message::TypeReply(_, TypeReply::Found(list)) => put_fields(bytes, &types_fields(list)),
        Message::ServiceReply(_, ServiceReply::Refused(code))
        | Message::AttributeReply(_, AttributeReply::Refused(code))
        | Message::DirectoryAdvert(_, DirectoryAdvert::Refused(code))
        | Message::TypeReply(_, TypeReply::Refused(code)) => {
            put_fields(bytes, &refusal_fields(code))
        }
        Message::Registration(_, registration) => {
            put_fields(bytes, &registration_fields(registration))
        }
        Message::Withdrawal(_, withdrawal) => put_fields(bytes, &withdrawal_fields(withdrawal)),
        Message::Acknowledgement(_, code) => put_fields(bytes, &[Field::Number(*code)]),
        Message::AttributeRequest(_, request) => {
            put_fields(bytes, &attribute_request_fields(request))
        }
        Message::TypeRequest(_, request) => put_fields(bytes, &type_request_fields(request)),
        Message::ServiceAdvert(_, agent) => put_fields(bytes, &service_agent_fields(agent)),
    }
}

fn header_in(message: &Message) -> &Header
    ensures { result.now ≡ header_of message.now }
{
    match message {
        Message::ServiceRequest(header, _)
        | Message::ServiceReply(header, _)
        | Message::Registration(header, _)
        | Message::Withdrawal(header, _)
        | Message::Acknowledgement(header, _)
        | Message::AttributeRequest(header, _)
        | Message::AttributeReply(header, _)
        | Message::DirectoryAdvert(header, _)
        | Message::TypeRequest(header, _)
        | Message::TypeReply(header, _)
        | Message::ServiceAdvert(header, _) => header,
    }
}

fn function_in(message: &Message) -> u8
    ensures { result ≡ function_of message.now }
{
    match message {
        Message::ServiceRequest(_, _) => function::SERVICE_REQUEST,
        Message::ServiceReply(_, _) => function::SERVICE_REPLY,
        Message::Registration(_, _) => function::REGISTRATION,
        Message::Withdrawal(_, _) => function::WITHDRAWAL,
        Message::Acknowledgement(_, _) => function::ACKNOWLEDGEMENT,
        Message::AttributeRequest(_, _) => function::ATTRIBUTE_REQUEST,
        Message::AttributeReply(_, _) => function::ATTRIBUTE_REPLY,
        Message::DirectoryAdvert(_, _) => function::DIRECTORY_ADVERT,
        Message::TypeRequest(_, _) => function::TYPE_REQUEST,
        Message::TypeReply(_, _) => function::TYPE_REPLY,
        Message::ServiceAdvert(_, _) => function::SERVICE_ADVERT,
    }
}

fn word_in(flags: Flags) -> u16
    ensures { result ≡ word_of flags }
{
    let overflow = if flags.overflow { flag::OVERFLOW } else { 0 };
    let fresh = if flags.fresh { flag::FRESH } else { 0 };
    let multicast = if flags.multicast { flag::MULTICAST } else { 0 };
    overflow + fresh + multicast
}

fn message_length(message: &Message) -> usize
    ensures length { result ≡ min (length (plain_bytes message.now)) 65536 }
    ensures sound { result ≤ longest → IsMessage message.now }
{
    let header = header_in(message);
    let _xid = header.xid;
    let tag = header.language.as_str();
    with_body(offset::TAG + tag.len(), message)
}

fn put_message(bytes: &mut Vec<u8>, message: &Message, total: usize)
    requires length { total ≡ length (plain_bytes message.now) }
    requires room { vec_len bytes.old + total ≤ vec_capacity bytes.old }
    ensures { bytes.new.items ≡ bytes.old.items ++ plain_bytes message.now }
{
    let header = header_in(message);
    let tag = header.language.as_str().as_bytes();
    let function = function_in(message);
    let fixed = opening(
        function,
        total,
        word_in(header.flags),
        header.xid,
        tag.len(),
    );
    append(bytes, &fixed);
    append(bytes, tag);
    put_body(bytes, message);
}

/// Appends the one spelling of a message (RFC 2608, sections 7 to 9): no extension, no
/// authentication block, and 0 in each reserved place. A refusal leaves the bytes as they were.
/// Memory is taken once, before the first byte is written.
pub fn encode(message: &Message, bytes: &mut Vec<u8>) -> Result<(), WireFault>
    ensures ok { OnOk result (bytes.new.items ≡ bytes.old.items ++ plain_bytes message.now) }
    ensures sound { OnOk result (IsMessage message.now) }
    ensures long { IsErrOf result fault.TooLong ↔ (longest < length (plain_bytes message.now)) }
    ensures faults { IfErr result (λ e. (e ≡ fault.NoMemory) ⊎ (e ≡ fault.TooLong)) }
    ensures err { OnErr result (bytes.new.items ≡ bytes.old.items) }
{
    let total = message_length(message);
    if total > LONGEST {
        return Err(WireFault::TooLong);
    }
    bytes.reserve(total)?;
    put_message(bytes, message, total);
    Ok(())
}
