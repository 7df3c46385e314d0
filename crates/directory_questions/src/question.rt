ghost use Rattle.search_filter.specs.Reading.{predicate_in};
ghost use Rattle.std.specs.Result.{result_ok};
ghost use Rattle.std.specs.Prelude.{◌≡◌, IfOk, MatchResult, false};
ghost use Rattle.slp_headers.specs.Headers.{heading_in};
ghost use Rattle.slp_messages.specs.Views.{attribute_request_in, authority_in, request_in, type_request_in};
ghost use Rattle.slp_wire.specs.Asking.{question_in};
ghost use Rattle.slp_wire.specs.Reading.{kept_header};
ghost use Rattle.directory_questions.specs.Answers.{question_of};
ghost use Rattle.slp_scopes.specs.Scopes.{scopes_of};
ghost use Rattle.directory_questions.specs.Questions.{agents_in, attribute_question, authority_asked, service_question, target_of, type_question};
ghost use Rattle.directory_questions.specs.Readings.{IsAsked, IsUnread};
ghost use Rattle.directory_questions.specs.Requests.{function_in, is_change_function};

use crate::heard::Heard;
use crate::query::{AgentQuery, AttrQuery, Authority, ServiceQuery, Target, TypeQuery};
use crate::responders;
use search_filter::{Filter, FilterFault};
use service_url::{ServiceType, Url, UrlFault, parse_authority};
use slp_scopes::ScopeList;
use slp_tags::TagList;
use slp_text::{Key, NoMemory, is_blank};
use slp_wire::{
    AttributeRequestView, AuthorityView, HeaderView, QuestionView, ServiceRequestView,
    TypeRequestView, WireFault, read_question,
};
use std::alloc::Global;

/// What a message asks that asks for no change.
#[derive(Drop)]
pub enum Question {
    /// Nothing that a directory answers, or it answered already.
    Silent,
    /// A part of it is not read.
    Unreadable,
    Services(ServiceQuery),
    Attributes(AttrQuery),
    Types(TypeQuery),
    Agents(AgentQuery),
}

/// What the request in front of the bytes of a call asks, or the fault for which they are none.
pub fn asked(alloc: Global, heard: &Heard<'_>) -> Result<Result<Question, WireFault>, NoMemory>
    requires { is_change_function (function_in heard.now.request) ≡ false }
    ensures { IfOk result (λ read. MatchResult read (IsAsked heard.now.call.now.own heard.now.call.now.bytes.now) (IsUnread heard.now.call.now.bytes.now)) }
{
    match read_question(&heard.header, heard.call.bytes) {
        Ok(view) => Ok(Ok(posed(alloc, heard, &view)?)),
        Err(WireFault::NoMemory) => Err(NoMemory),
        Err(fault) => Ok(Err(fault)),
    }
}

// What a request asks, unless the address that it came to has answered it.
fn posed(alloc: Global, heard: &Heard<'_>, view: &QuestionView<'_>) -> Result<Question, NoMemory>
    ensures { IfOk result (λ q. q ≡ question_of heard.now.call.now.own (question_in (kept_header (heading_in heard.now.header)) view.now)) }
{
    if responders::has_answered(alloc, heard.call.own, view.responders())? {
        return Ok(Question::Silent);
    }
    match view {
        QuestionView::Services(request) => service_question_in(alloc, &heard.header, request),
        QuestionView::Attributes(request) => attribute_question_in(alloc, &heard.header, request),
        QuestionView::Types(request) => type_question_in(alloc, request),
    }
}

// What a service request asks of who has not answered.
fn service_question_in(
    alloc: Global,
    header: &HeaderView<'_>,
    request: &ServiceRequestView<'_>,
) -> Result<Question, NoMemory>
    ensures { IfOk result (λ q. q ≡ service_question (kept_header (heading_in header.now)) (request_in request.now)) }
{
    let Some(kind) = ServiceType::read(alloc, request.kind)? else {
        return Ok(Question::Unreadable);
    };
    if kind.is_directory_agent() {
        return agents_question_in(alloc, kind, request);
    }
    if kind.is_service_agent() {
        return Ok(Question::Silent);
    }
    let Some(scopes) = ScopeList::read(alloc, request.scopes)? else {
        return Ok(Question::Unreadable);
    };
    let language = Key::of(alloc, header.language)?;
    match read_predicate(alloc, request.predicate)? {
        Some(filter) => Ok(Question::Services(ServiceQuery {
            kind,
            scopes,
            language,
            filter,
        })),
        None => Ok(Question::Unreadable),
    }
}

// What who asks for directory agents asks. The predicate is read, and not kept.
fn agents_question_in(
    alloc: Global,
    kind: ServiceType,
    request: &ServiceRequestView<'_>,
) -> Result<Question, NoMemory>
    ensures { IfOk result (λ q. q ≡ agents_in kind (result_ok (scopes_of request.now.scopes.now)) (result_ok (predicate_in request.now.predicate.now))) }
{
    if read_predicate(alloc, request.predicate)?.is_none() {
        return Ok(Question::Agents(AgentQuery { kind, scopes: None }));
    }
    let scopes = ScopeList::read(alloc, request.scopes)?;
    Ok(Question::Agents(AgentQuery { kind, scopes }))
}

// What an attribute request asks of who has not answered.
fn attribute_question_in(
    alloc: Global,
    header: &HeaderView<'_>,
    request: &AttributeRequestView<'_>,
) -> Result<Question, NoMemory>
    ensures { IfOk result (λ q. q ≡ attribute_question (kept_header (heading_in header.now)) (attribute_request_in request.now)) }
{
    let Some(target) = read_target(alloc, request.subject)? else {
        return Ok(Question::Unreadable);
    };
    let Some(scopes) = ScopeList::read(alloc, request.scopes)? else {
        return Ok(Question::Unreadable);
    };
    let language = Key::of(alloc, header.language)?;
    match TagList::read(alloc, request.tags)? {
        Some(tags) => Ok(Question::Attributes(AttrQuery {
            target,
            scopes,
            language,
            tags,
        })),
        None => Ok(Question::Unreadable),
    }
}

// What a type request asks of who has not answered.
fn type_question_in(alloc: Global, request: &TypeRequestView<'_>) -> Result<Question, NoMemory>
    ensures { IfOk result (λ q. q ≡ type_question (type_request_in request.now)) }
{
    let Some(authority) = read_authority(alloc, request.authority)? else {
        return Ok(Question::Unreadable);
    };
    match ScopeList::read(alloc, request.scopes)? {
        Some(scopes) => Ok(Question::Types(TypeQuery { authority, scopes })),
        None => Ok(Question::Unreadable),
    }
}

// The type, or else the URL, that a text is, if it is one.
fn read_target(alloc: Global, text: &str) -> Result<Option<Target>, NoMemory>
    ensures { IfOk result (λ t. t ≡ target_of text.now) }
{
    if let Some(kind) = ServiceType::read(alloc, text)? {
        return Ok(Some(Target::Kind(kind)));
    }
    match Url::read(alloc, text)? {
        Some(url) => Ok(Some(Target::Place(url))),
        None => Ok(None),
    }
}

// Whose types are asked for, if that is read.
fn read_authority(
    alloc: Global,
    authority: AuthorityView<'_>,
) -> Result<Option<Authority>, NoMemory>
    ensures { IfOk result (λ a. a ≡ authority_asked (authority_in authority.entry)) }
{
    let AuthorityView::Named(text) = authority else {
        return Ok(Some(Authority::All));
    };
    if text.is_empty() {
        return Ok(Some(Authority::Unnamed));
    }
    match parse_authority(alloc, text) {
        Ok(name) => Ok(Some(Authority::Named(name))),
        Err(UrlFault::NoMemory) => Err(NoMemory),
        Err(_) => Ok(None),
    }
}

// The filter of a predicate, none where it is empty, if it is read.
fn read_predicate(alloc: Global, predicate: &str) -> Result<Option<Option<Filter>>, NoMemory>
    ensures { IfOk result (λ read. read ≡ result_ok (predicate_in predicate.now)) }
{
    if is_blank(predicate) {
        return Ok(Some(None));
    }
    match Filter::parse(alloc, predicate) {
        Ok(filter) => Ok(Some(Some(filter))),
        Err(FilterFault::NoMemory) => Err(NoMemory),
        Err(_) => Ok(None),
    }
}
