//! AttrRqst and AttrRply, functions 6 and 7 (RFC 2608, sections 10.3 and 10.4).
ghost use Rattle.std.specs.Prelude.{◌≡◌, ◌++◌};
ghost use Rattle.std.specs.List.{AllByRecursion};
ghost use Rattle.byteorder.specs.Endian.{big_bytes};
ghost use Rattle.slp_messages.specs.Layouts as layout;
ghost use Rattle.slp_messages.specs.Layouts.{FitsLayout};
ghost use Rattle.slp_messages.specs.Views.{attribute_request_in};
ghost use Rattle.slp_fields.specs.Spelling.{layout_bytes};
ghost use Rattle.slp_fields.specs.Steps.{Gives};
ghost use Rattle.slp_fields.specs.Writing.{fields_bytes, IsField};
ghost use Rattle.slp_bodies.specs.Bodies.{attribute_request_at, attribute_reply_at};

use crate::replies::after_code;
use slp_fields::{Field, WireFault, after_no_block, after_no_index, number_of, str_of, text_of};
use slp_messages::{AttributeReply, AttributeRequest, AttributeRequestView, ErrorCode, Kind, code};
use slp_text::Text;
use std::alloc::Global;

/// Reads a request without a copy.
// A call in the machine's code as well: inlined, the pieces of its answer are moved again and again.
#[inline(never)]
#[tactic(auto, unfolding(crate::specs::Bodies::attribute_request_at))]
pub fn attribute_request_view_of(
    bytes: &[u8],
) -> Result<(AttributeRequestView<'_>, &[u8]), WireFault>
    ensures { Gives (λ x. (attribute_request_in x.0, x.1.now)) result (attribute_request_at bytes.now) }
{
    let (responders, rest) = str_of(bytes)?;
    let (subject, rest) = str_of(rest)?;
    let (scopes, rest) = str_of(rest)?;
    let (tags, rest) = str_of(rest)?;
    let rest = after_no_index(rest)?;
    let view = AttributeRequestView {
        responders,
        subject,
        scopes,
        tags,
    };
    Ok((view, rest))
}

/// Reads a request.
pub fn attribute_request_of(
    alloc: Global,
    bytes: &[u8],
) -> Result<(AttributeRequest, &[u8]), WireFault>
    ensures { Gives (λ x. (x.0, x.1.now)) result (attribute_request_at bytes.now) }
{
    let (view, rest) = attribute_request_view_of(bytes)?;
    Ok((view.copy(alloc)?, rest))
}

/// The fields of a request.
pub fn attribute_request_fields(request: &AttributeRequest) -> [Field<'_>; 5]
    ensures bytes { fields_bytes result ≡ layout_bytes layout.attribute_request request.now }
    ensures sound { AllByRecursion IsField result → FitsLayout layout.attribute_request request.now }
{
    [
        Field::Text(&request.responders),
        Field::Text(&request.subject),
        Field::Text(&request.scopes),
        Field::Text(&request.tags),
        Field::NoIndex,
    ]
}

/// Reads a reply. So many bytes at the end are not part of it.
#[tactic(auto, unfolding(crate::specs::Bodies::attribute_reply_at))]
pub fn attribute_reply_of(
    alloc: Global,
    tail: usize,
    bytes: &[u8],
) -> Result<(AttributeReply, &[u8]), WireFault>
    ensures { Gives (λ x. (x.0, x.1.now)) result (attribute_reply_at tail bytes.now) }
{
    let (code, rest) = number_of(bytes)?;
    if code != code::OK {
        let rest = after_code(&[Kind::Text, Kind::NoBlock], tail, rest)?;
        return Ok((AttributeReply::Refused(ErrorCode::new(code)), rest));
    }
    let (list, rest) = text_of(alloc, rest)?;
    let rest = after_no_block(rest)?;
    Ok((AttributeReply::Found(list), rest))
}

/// The fields of a reply with this attribute list.
pub fn attributes_fields(list: &Text) -> [Field<'_>; 3]
    ensures bytes { fields_bytes result ≡ big_bytes 2 0 ++ layout_bytes layout.attributes list.now }
    ensures sound { AllByRecursion IsField result → FitsLayout layout.attributes list.now }
{
    [Field::Number(code::OK), Field::Text(list), Field::NoBlock]
}
