//! SrvRqst and SrvRply, functions 1 and 2 (RFC 2608, sections 8.1 and 8.2).
ghost use Rattle.std.specs.Prelude.{◌≡◌, ◌++◌};
ghost use Rattle.std.specs.List.{AllByRecursion};
ghost use Rattle.byteorder.specs.Endian.{big_bytes};
ghost use Rattle.slp_messages.specs.Layouts as layout;
ghost use Rattle.slp_messages.specs.Layouts.{FitsLayout};
ghost use Rattle.slp_messages.specs.Views.{request_in};
ghost use Rattle.slp_fields.specs.Spelling.{layout_bytes};
ghost use Rattle.slp_fields.specs.Steps.{Gives};
ghost use Rattle.slp_fields.specs.Writing.{fields_bytes, IsField};
ghost use Rattle.slp_bodies.specs.Bodies.{service_request_at, service_reply_at};

use crate::replies::after_code;
use slp_fields::{Field, WireFault, after_no_index, listing_of, number_of, str_of};
use slp_messages::{
    ErrorCode, Kind, ServiceReply, ServiceRequest, ServiceRequestView, UrlEntry, code,
};
use std::alloc::Global;

/// Reads a request without a copy.
#[tactic(auto, unfolding(crate::specs::Bodies::service_request_at))]
pub fn service_request_view_of(bytes: &[u8]) -> Result<(ServiceRequestView<'_>, &[u8]), WireFault>
    ensures { Gives (λ x. (request_in x.0, x.1.now)) result (service_request_at bytes.now) }
{
    let (responders, rest) = str_of(bytes)?;
    let (kind, rest) = str_of(rest)?;
    let (scopes, rest) = str_of(rest)?;
    let (predicate, rest) = str_of(rest)?;
    let rest = after_no_index(rest)?;
    let view = ServiceRequestView {
        responders,
        kind,
        scopes,
        predicate,
    };
    Ok((view, rest))
}

/// Reads a request.
pub fn service_request_of(alloc: Global, bytes: &[u8]) -> Result<(ServiceRequest, &[u8]), WireFault>
    ensures { Gives (λ x. (x.0, x.1.now)) result (service_request_at bytes.now) }
{
    let (view, rest) = service_request_view_of(bytes)?;
    Ok((view.copy(alloc)?, rest))
}

/// The fields of a request.
pub fn service_request_fields(request: &ServiceRequest) -> [Field<'_>; 5]
    ensures bytes { fields_bytes result ≡ layout_bytes layout.service_request request.now }
    ensures sound { AllByRecursion IsField result → FitsLayout layout.service_request request.now }
{
    [
        Field::Text(&request.responders),
        Field::Text(&request.kind),
        Field::Text(&request.scopes),
        Field::Text(&request.predicate),
        Field::NoIndex,
    ]
}

/// Reads a reply. So many bytes at the end are not part of it.
#[tactic(auto, unfolding(crate::specs::Bodies::service_reply_at))]
pub fn service_reply_of(
    alloc: Global,
    tail: usize,
    bytes: &[u8],
) -> Result<(ServiceReply, &[u8]), WireFault>
    ensures { Gives (λ x. (x.0, x.1.now)) result (service_reply_at tail bytes.now) }
{
    let (code, rest) = number_of(bytes)?;
    if code != code::OK {
        let rest = after_code(&[Kind::Entries], tail, rest)?;
        return Ok((ServiceReply::Refused(ErrorCode::new(code)), rest));
    }
    let (entries, rest) = listing_of(alloc, rest)?;
    Ok((ServiceReply::Found(entries), rest))
}

/// The fields of a reply with these entries.
pub fn services_fields(entries: &[UrlEntry]) -> [Field<'_>; 2]
    ensures bytes { fields_bytes result ≡ big_bytes 2 0 ++ layout_bytes layout.services entries.now }
    ensures sound { AllByRecursion IsField result → FitsLayout layout.services entries.now }
{
    [Field::Number(code::OK), Field::Entries(entries)]
}
