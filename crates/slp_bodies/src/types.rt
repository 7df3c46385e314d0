//! SrvTypeRqst and SrvTypeRply, functions 9 and 10 (RFC 2608, sections 10.1 and 10.2).
ghost use Rattle.std.specs.Prelude.{◌≡◌, ◌++◌};
ghost use Rattle.std.specs.List.{AllByRecursion};
ghost use Rattle.byteorder.specs.Endian.{big_bytes};
ghost use Rattle.slp_messages.specs.Layouts as layout;
ghost use Rattle.slp_messages.specs.Layouts.{FitsLayout};
ghost use Rattle.slp_messages.specs.Views.{type_request_in};
ghost use Rattle.slp_fields.specs.Spelling.{layout_bytes};
ghost use Rattle.slp_fields.specs.Steps.{Gives};
ghost use Rattle.slp_fields.specs.Writing.{fields_bytes, IsField};
ghost use Rattle.slp_bodies.specs.Bodies.{type_request_at, type_reply_at};

use crate::replies::after_code;
use slp_fields::{Field, WireFault, authority_view_of, number_of, str_of, text_of};
use slp_messages::{ErrorCode, Kind, TypeReply, TypeRequest, TypeRequestView, code};
use slp_text::Text;
use std::alloc::Global;

/// Reads a request without a copy.
// A call in the machine's code as well: inlined, the pieces of its answer are moved again and again.
#[inline(never)]
#[tactic(auto, unfolding(crate::specs::Bodies::type_request_at))]
pub fn type_request_view_of(bytes: &[u8]) -> Result<(TypeRequestView<'_>, &[u8]), WireFault>
    ensures { Gives (λ x. (type_request_in x.0, x.1.now)) result (type_request_at bytes.now) }
{
    let (responders, rest) = str_of(bytes)?;
    let (authority, rest) = authority_view_of(rest)?;
    let (scopes, rest) = str_of(rest)?;
    let view = TypeRequestView {
        responders,
        authority,
        scopes,
    };
    Ok((view, rest))
}

/// Reads a request.
pub fn type_request_of(alloc: Global, bytes: &[u8]) -> Result<(TypeRequest, &[u8]), WireFault>
    ensures { Gives (λ x. (x.0, x.1.now)) result (type_request_at bytes.now) }
{
    let (view, rest) = type_request_view_of(bytes)?;
    Ok((view.copy(alloc)?, rest))
}

/// The fields of a request.
pub fn type_request_fields(request: &TypeRequest) -> [Field<'_>; 3]
    ensures bytes { fields_bytes result ≡ layout_bytes layout.type_request request.now }
    ensures sound { AllByRecursion IsField result → FitsLayout layout.type_request request.now }
{
    [
        Field::Text(&request.responders),
        Field::Authority(&request.authority),
        Field::Text(&request.scopes),
    ]
}

/// Reads a reply. So many bytes at the end are not part of it.
#[tactic(auto, unfolding(crate::specs::Bodies::type_reply_at))]
pub fn type_reply_of(
    alloc: Global,
    tail: usize,
    bytes: &[u8],
) -> Result<(TypeReply, &[u8]), WireFault>
    ensures { Gives (λ x. (x.0, x.1.now)) result (type_reply_at tail bytes.now) }
{
    let (code, rest) = number_of(bytes)?;
    if code != code::OK {
        let rest = after_code(&[Kind::Text], tail, rest)?;
        return Ok((TypeReply::Refused(ErrorCode::new(code)), rest));
    }
    let (list, rest) = text_of(alloc, rest)?;
    Ok((TypeReply::Found(list), rest))
}

/// The fields of a reply with these types.
pub fn types_fields(list: &Text) -> [Field<'_>; 2]
    ensures bytes { fields_bytes result ≡ big_bytes 2 0 ++ layout_bytes layout.types list.now }
    ensures sound { AllByRecursion IsField result → FitsLayout layout.types list.now }
{
    [Field::Number(code::OK), Field::Text(list)]
}
