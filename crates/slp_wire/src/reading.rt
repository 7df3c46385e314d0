ghost use Rattle.std.specs.Prelude.{◌≡◌, ◌<◌, ◌^◌, ◌⊎◌, IfOk, IfErr, Some, Ok, Err};
ghost use Rattle.slp_messages.specs.declared.message.Message as code;
ghost use Rattle.slp_messages.specs.Views as views;
ghost use Rattle.slp_messages.specs.Views.{message_in};
ghost use Rattle.slp_headers.specs.Headers.{flags_of, heading_in, heading_of};
ghost use Rattle.slp_fields.specs.Steps.{Gives};
ghost use Rattle.slp_wire.specs.Asking.{question_in};
ghost use Rattle.slp_wire.specs.Bodies.{body_at};
ghost use Rattle.slp_wire.specs.Reading.{is_known, kept_header, tail_of, ends_at, reading_to_end, reading_after, reading, marked_bytes};
ghost use Rattle.slp_wire.specs.Spelling.{Spells};

use crate::body::body_of;
use crate::extensions::skip_extensions;
use crate::question::QuestionView;
use slp_bodies::{
    attribute_request_view_of, registration_view_of, service_request_view_of, type_request_view_of,
    withdrawal_view_of,
};
use slp_fields::WireFault;
use slp_headers::{HeaderView, VERSION, flag, offset, read_header};
use slp_messages::{ChangeView, Flags, Header, KeptHeader, Message, Tag, function};
use std::alloc::Global;

fn is_read(function: u8) -> bool
    ensures { result ≡ is_known function }
{
    (function::SERVICE_REQUEST..=function::SERVICE_ADVERT).contains(&function)
}

fn flags_in(word: u16) -> Flags
    ensures { result ≡ flags_of word }
{
    Flags {
        overflow: word & flag::OVERFLOW != 0,
        fresh: word & flag::FRESH != 0,
        multicast: word & flag::MULTICAST != 0,
    }
}

// What a message keeps of its header, lent.
fn kept<'a>(view: &HeaderView<'a>) -> KeptHeader<'a>
    ensures { views.header_in result ≡ kept_header (heading_in view.now) }
{
    KeptHeader {
        flags: flags_in(view.flags),
        xid: view.xid,
        language: view.language,
    }
}

fn header_in(alloc: Global, view: &HeaderView<'_>) -> Result<Header, WireFault>
    ensures { Gives (λ h. h) result (Ok (kept_header (heading_in view.now))) }
{
    let language = Tag::new(alloc, view.language)?;
    Ok(Header {
        flags: flags_in(view.flags),
        xid: view.xid,
        language,
    })
}

// How many bytes of the message the header gives to extensions.
fn tail_in(view: &HeaderView<'_>) -> usize
    ensures { result ≡ tail_of (heading_in view.now) }
{
    if view.ext == 0 {
        return 0;
    }
    (view.length as usize).saturating_sub(view.ext as usize)
}

// Whether a body that leaves these bytes ends a message of so many, whose extensions begin there.
#[tactic(auto, unfolding(crate::specs::Reading::ends_at))]
fn check_end(extension: usize, total: usize, rest: &[u8]) -> Result<(), WireFault>
    requires small { extension < 2 ^ 32 }
    requires within { total < 2 ^ 32 }
    ensures { Gives (λ x. x) result (ends_at extension total rest.now) }
{
    if extension == 0 {
        if rest.is_empty() {
            return Ok(());
        }
        return Err(WireFault::Parse);
    }
    if extension + rest.len() != total {
        return Err(WireFault::Parse);
    }
    skip_extensions(extension, rest)
}

// These bytes are what the length field marks after the header.
#[tactic(auto, unfolding(crate::specs::Reading::reading_to_end))]
fn whole_body(
    alloc: Global,
    view: &HeaderView<'_>,
    header: Header,
    bytes: &[u8],
) -> Result<Message, WireFault>
    ensures { Gives (λ m. m) result (reading_to_end (heading_in view.now) (body_at view.now.function (tail_of (heading_in view.now)) header bytes.now)) }
{
    let (message, rest) = body_of(alloc, view.function, tail_in(view), header, bytes)?;
    match check_end(view.ext as usize, view.length as usize, rest) {
        Ok(()) => Ok(message),
        Err(fault) => {
            drop(message);
            Err(fault)
        }
    }
}

// What stands after the header, where a message of this header may be read.
#[tactic(auto, unfolding(crate::specs::Reading::reading_after))]
fn body_after<'a>(view: &HeaderView<'_>, bytes: &'a [u8]) -> Result<&'a [u8], WireFault>
    ensures ok { IfOk result (λ body. reading_after (heading_in view.now) bytes.now ≡ reading_to_end (heading_in view.now) (body_at view.now.function (tail_of (heading_in view.now)) (kept_header (heading_in view.now)) body.now)) }
    ensures err { IfErr result (λ e. reading_after (heading_in view.now) bytes.now ≡ Err e) }
{
    if !is_read(view.function) {
        return Err(WireFault::Unknown);
    }
    if view.version != VERSION {
        return Err(WireFault::Version);
    }
    let length = view.length as usize;
    let start = offset::TAG + view.language.len();
    if length < start || bytes.len() < length {
        return Err(WireFault::Parse);
    }
    Ok(&bytes[..length][start..])
}

fn message_after(alloc: Global, view: &HeaderView<'_>, bytes: &[u8]) -> Result<Message, WireFault>
    ensures { Gives (λ m. m) result (reading_after (heading_in view.now) bytes.now) }
{
    let body = body_after(view, bytes)?;
    let header = header_in(alloc, view)?;
    whole_body(alloc, view, header, body)
}

/// The service, attribute or type request in front of the bytes, whose header was read from them. Its texts
/// are lent.
#[tactic(auto, unfolding(crate::specs::Reading::reading, crate::specs::Reading::reading_to_end, crate::specs::Bodies::body_at))]
pub fn read_question<'a>(
    view: &HeaderView<'_>,
    bytes: &'a [u8],
) -> Result<QuestionView<'a>, WireFault>
    requires header { heading_of bytes.now ≡ Some (heading_in view.now) }
    requires function { (view.now.function ≡ 1) ⊎ ((view.now.function ≡ 6) ⊎ (view.now.function ≡ 9)) }
    ensures { Gives (question_in (kept_header (heading_in view.now))) result (reading bytes.now) }
{
    let body = body_after(view, bytes)?;
    if view.function == function::SERVICE_REQUEST {
        let (request, rest) = service_request_view_of(body)?;
        check_end(view.ext as usize, view.length as usize, rest)?;
        return Ok(QuestionView::Services(request));
    }
    if view.function == function::ATTRIBUTE_REQUEST {
        let (request, rest) = attribute_request_view_of(body)?;
        check_end(view.ext as usize, view.length as usize, rest)?;
        return Ok(QuestionView::Attributes(request));
    }
    let (request, rest) = type_request_view_of(body)?;
    check_end(view.ext as usize, view.length as usize, rest)?;
    Ok(QuestionView::Types(request))
}

/// The registration or the withdrawal in front of the bytes, whose header was read from them. Its texts
/// are lent.
#[tactic(auto, unfolding(crate::specs::Reading::reading, crate::specs::Reading::reading_to_end, crate::specs::Bodies::body_at))]
pub fn read_change<'a>(view: &HeaderView<'a>, bytes: &'a [u8]) -> Result<ChangeView<'a>, WireFault>
    requires header { heading_of bytes.now ≡ Some (heading_in view.now) }
    requires function { (view.now.function ≡ 3) ⊎ (view.now.function ≡ 4) }
    ensures { Gives message_in result (reading bytes.now) }
{
    let body = body_after(view, bytes)?;
    if view.function == function::REGISTRATION {
        let (registration, rest) = registration_view_of(body)?;
        check_end(view.ext as usize, view.length as usize, rest)?;
        return Ok(ChangeView::Registration(kept(view), registration));
    }
    let (withdrawal, rest) = withdrawal_view_of(body)?;
    check_end(view.ext as usize, view.length as usize, rest)?;
    Ok(ChangeView::Withdrawal(kept(view), withdrawal))
}

#[tactic(auto, unfolding(crate::specs::Reading::reading))]
fn message_of(alloc: Global, bytes: &[u8]) -> Result<Message, WireFault>
    ensures { Gives (λ m. m) result (reading bytes.now) }
{
    match read_header(bytes) {
        None => Err(WireFault::NoHeader),
        Some(view) => message_after(alloc, &view, bytes),
    }
}

/// The message in front of the bytes, as far as its length field marks it (RFC 2608, sections 7 to
/// 10). What stands after that is not looked at. The bytes are gone through once, and each text is
/// copied once.
pub fn decode(alloc: Global, bytes: &[u8]) -> Result<Message, WireFault>
    // What is read is spelled so.
    ensures found { IfOk result (λ m. Spells (marked_bytes bytes.now) m) }
    // What is spelled so is read, unless memory runs out.
    ensures only { (m : code.Message) → Spells (marked_bytes bytes.now) m → Gives (λ n. n) result (Ok m) }
    // Which fault it is.
    ensures exact { Gives (λ n. n) result (reading bytes.now) }
{
    message_of(alloc, bytes)
}
