//! The body of a message, by its function (RFC 2608, section 8).
ghost use Rattle.slp_messages.specs.Layouts.{acknowledgement};
ghost use Rattle.slp_messages.specs.declared.message.Message.TheVariants as message;
ghost use Rattle.slp_fields.specs.Reading.{layout_at};
ghost use Rattle.slp_fields.specs.Steps.{Gives};
ghost use Rattle.slp_bodies.specs.Bodies.{service_request_at, service_reply_at, registration_at, withdrawal_at, attribute_request_at, attribute_reply_at, directory_advert_at, type_request_at, type_reply_at, service_agent_at};
ghost use Rattle.slp_wire.specs.Bodies.{as_message, body_at};

use slp_bodies::{
    attribute_reply_of, attribute_request_of, directory_advert_of, registration_of,
    service_agent_of, service_reply_of, service_request_of, type_reply_of, type_request_of,
    withdrawal_of,
};
use slp_fields::{WireFault, number_of};
use slp_messages::{Header, Message, function};
use std::alloc::Global;

/// The body of a message of this function. So many bytes at the end are not part of it.
#[tactic(auto, unfolding(crate::specs::Bodies::body_at))]
pub(crate) fn body_of(
    alloc: Global,
    function: u8,
    tail: usize,
    header: Header,
    bytes: &[u8],
) -> Result<(Message, &[u8]), WireFault>
    ensures { Gives (λ x. (x.0, x.1.now)) result (body_at function tail header bytes.now) }
{
    match function {
        function::SERVICE_REQUEST => service_request_body(alloc, header, bytes),
        function::SERVICE_REPLY => service_reply_body(alloc, tail, header, bytes),
        function::REGISTRATION => registration_body(alloc, header, bytes),
        function::WITHDRAWAL => withdrawal_body(alloc, header, bytes),
        function::ACKNOWLEDGEMENT => acknowledgement_body(header, bytes),
        function::ATTRIBUTE_REQUEST => attribute_request_body(alloc, header, bytes),
        function::ATTRIBUTE_REPLY => attribute_reply_body(alloc, tail, header, bytes),
        function::DIRECTORY_ADVERT => directory_advert_body(alloc, tail, header, bytes),
        function::TYPE_REQUEST => type_request_body(alloc, header, bytes),
        function::TYPE_REPLY => type_reply_body(alloc, tail, header, bytes),
        function::SERVICE_ADVERT => service_advert_body(alloc, header, bytes),
        _ => Err(WireFault::Unknown),
    }
}

// The bodies, each in a function of its own: one `match` with a `?` in each way takes the prover several times as long.
fn service_request_body(
    alloc: Global,
    header: Header,
    bytes: &[u8],
) -> Result<(Message, &[u8]), WireFault>
    ensures { Gives (λ x. (x.0, x.1.now)) result (as_message (message.ServiceRequest header) (service_request_at bytes.now)) }
{
    let (request, rest) = service_request_of(alloc, bytes)?;
    Ok((Message::ServiceRequest(header, request), rest))
}

fn service_reply_body(
    alloc: Global,
    tail: usize,
    header: Header,
    bytes: &[u8],
) -> Result<(Message, &[u8]), WireFault>
    ensures { Gives (λ x. (x.0, x.1.now)) result (as_message (message.ServiceReply header) (service_reply_at tail bytes.now)) }
{
    let (reply, rest) = service_reply_of(alloc, tail, bytes)?;
    Ok((Message::ServiceReply(header, reply), rest))
}

fn registration_body(
    alloc: Global,
    header: Header,
    bytes: &[u8],
) -> Result<(Message, &[u8]), WireFault>
    ensures { Gives (λ x. (x.0, x.1.now)) result (as_message (message.Registration header) (registration_at bytes.now)) }
{
    let (registration, rest) = registration_of(alloc, bytes)?;
    Ok((Message::Registration(header, registration), rest))
}

fn withdrawal_body(
    alloc: Global,
    header: Header,
    bytes: &[u8],
) -> Result<(Message, &[u8]), WireFault>
    ensures { Gives (λ x. (x.0, x.1.now)) result (as_message (message.Withdrawal header) (withdrawal_at bytes.now)) }
{
    let (withdrawal, rest) = withdrawal_of(alloc, bytes)?;
    Ok((Message::Withdrawal(header, withdrawal), rest))
}

fn acknowledgement_body(header: Header, bytes: &[u8]) -> Result<(Message, &[u8]), WireFault>
    ensures { Gives (λ x. (x.0, x.1.now)) result (as_message (message.Acknowledgement header) (layout_at acknowledgement bytes.now)) }
{
    let (code, rest) = number_of(bytes)?;
    Ok((Message::Acknowledgement(header, code), rest))
}

fn attribute_request_body(
    alloc: Global,
    header: Header,
    bytes: &[u8],
) -> Result<(Message, &[u8]), WireFault>
    ensures { Gives (λ x. (x.0, x.1.now)) result (as_message (message.AttributeRequest header) (attribute_request_at bytes.now)) }
{
    let (request, rest) = attribute_request_of(alloc, bytes)?;
    Ok((Message::AttributeRequest(header, request), rest))
}

fn attribute_reply_body(
    alloc: Global,
    tail: usize,
    header: Header,
    bytes: &[u8],
) -> Result<(Message, &[u8]), WireFault>
    ensures { Gives (λ x. (x.0, x.1.now)) result (as_message (message.AttributeReply header) (attribute_reply_at tail bytes.now)) }
{
    let (reply, rest) = attribute_reply_of(alloc, tail, bytes)?;
    Ok((Message::AttributeReply(header, reply), rest))
}

fn directory_advert_body(
    alloc: Global,
    tail: usize,
    header: Header,
    bytes: &[u8],
) -> Result<(Message, &[u8]), WireFault>
    ensures { Gives (λ x. (x.0, x.1.now)) result (as_message (message.DirectoryAdvert header) (directory_advert_at tail bytes.now)) }
{
    let (advert, rest) = directory_advert_of(alloc, tail, bytes)?;
    Ok((Message::DirectoryAdvert(header, advert), rest))
}

fn type_request_body(
    alloc: Global,
    header: Header,
    bytes: &[u8],
) -> Result<(Message, &[u8]), WireFault>
    ensures { Gives (λ x. (x.0, x.1.now)) result (as_message (message.TypeRequest header) (type_request_at bytes.now)) }
{
    let (request, rest) = type_request_of(alloc, bytes)?;
    Ok((Message::TypeRequest(header, request), rest))
}

fn type_reply_body(
    alloc: Global,
    tail: usize,
    header: Header,
    bytes: &[u8],
) -> Result<(Message, &[u8]), WireFault>
    ensures { Gives (λ x. (x.0, x.1.now)) result (as_message (message.TypeReply header) (type_reply_at tail bytes.now)) }
{
    let (reply, rest) = type_reply_of(alloc, tail, bytes)?;
    Ok((Message::TypeReply(header, reply), rest))
}

fn service_advert_body(
    alloc: Global,
    header: Header,
    bytes: &[u8],
) -> Result<(Message, &[u8]), WireFault>
    ensures { Gives (λ x. (x.0, x.1.now)) result (as_message (message.ServiceAdvert header) (service_agent_at bytes.now)) }
{
    let (agent, rest) = service_agent_of(alloc, bytes)?;
    Ok((Message::ServiceAdvert(header, agent), rest))
}
