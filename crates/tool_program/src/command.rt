//! What the words of a call ask for.
ghost use Rattle.std.specs.Prelude.{◌≡◌, codes, map, string_bytes, MatchResult};
ghost use Rattle.std.specs.Option.{option_map};
ghost use Rattle.agent_clients.specs.Requests.{request_header, IsSpelled, IsUnbuilt};
ghost use Rattle.slp_messages.specs.Views as view;
ghost use Rattle.tool_program.specs.Commands.{asked, command_in, message_of, registered, registration_of, three_of, IsRequest};
ghost use Rattle.tool_program.specs.Commands as spec;

use addresses::number;
use agent_clients::{
    ClientFault, RequestHeader, attribute_request, registration, service_request, type_request,
    withdrawal,
};
use slp_messages::{EntryView, RegistrationView};
use std::alloc::Global;

/// What is asked of a directory agent.
#[derive(Clone, Copy)]
pub(crate) enum Command<'a> {
    Find {
        kind: &'a str,
        scopes: &'a str,
        predicate: &'a str,
    },
    Attributes {
        subject: &'a str,
        scopes: &'a str,
        tags: &'a str,
    },
    Types {
        scopes: &'a str,
        authority: Option<&'a str>,
    },
    Register(RegistrationView<'a>),
    Withdraw {
        url: &'a str,
        scopes: &'a str,
        tags: &'a str,
    },
    /// A registration that is refreshed until standard input ends.
    Keep(RegistrationView<'a>),
}

/// The header of the tool's requests, which are in English.
pub(crate) fn header_with(xid: u16) -> RequestHeader<'static>
    ensures xid { result.xid ≡ xid }
    ensures language { result.language.now ≡ codes "en" }
{
    RequestHeader {
        xid,
        language: "en",
    }
}

// The registration that these words describe.
fn described<'a>(
    url: &'a str,
    kind: &'a str,
    scopes: &'a str,
    lifetime: &str,
    attributes: &'a str,
) -> Option<RegistrationView<'a>>
    ensures { option_map view.registration_in result ≡ registered url.now kind.now scopes.now lifetime.now attributes.now }
{
    let lifetime = number(lifetime.as_bytes())?;
    let entry = EntryView {
        lifetime: u16::try_from(lifetime).ok()?,
        url,
    };
    Some(RegistrationView {
        entry,
        kind,
        scopes,
        attributes,
    })
}

// The registration that these words describe: URL, type, scopes, lifetime, and attributes if there are any.
fn registration_in(words: &[String]) -> Option<RegistrationView<'_>>
    ensures { option_map view.registration_in result ≡ registration_of (map string_bytes words.now) }
{
    match words {
        [url, kind, scopes, lifetime] => described(
            url.as_str(),
            kind.as_str(),
            scopes.as_str(),
            lifetime.as_str(),
            "",
        ),
        [url, kind, scopes, lifetime, attributes] => described(
            url.as_str(),
            kind.as_str(),
            scopes.as_str(),
            lifetime.as_str(),
            attributes.as_str(),
        ),
        _ => None,
    }
}

// The two or three words that a command has after its name, the third one empty where it is left out.
fn three_in(words: &[String]) -> Option<(&str, &str, &str)>
    ensures { option_map (λ t. (t.0.now, t.1.now, t.2.now)) result ≡ three_of (map string_bytes words.now) }
{
    match words {
        [first, second] => Some((first.as_str(), second.as_str(), "")),
        [first, second, third] => Some((first.as_str(), second.as_str(), third.as_str())),
        _ => None,
    }
}

// The scopes, and the authority if one is named, of a question about types.
fn types_in(words: &[String]) -> Option<Command<'_>>
    ensures { option_map asked result ≡ spec.types_of (map string_bytes words.now) }
{
    match words {
        [scopes] => Some(Command::Types {
            scopes: scopes.as_str(),
            authority: None,
        }),
        [scopes, authority] => Some(Command::Types {
            scopes: scopes.as_str(),
            authority: Some(authority.as_str()),
        }),
        _ => None,
    }
}

// The command of this name with two words or three.
fn command_of_three<'a>(name: &str, words: (&'a str, &'a str, &'a str)) -> Option<Command<'a>>
    ensures { option_map asked result ≡ spec.command_of_three name.now (words.entry.0.now, words.entry.1.now, words.entry.2.now) }
{
    let (first, scopes, third) = words;
    if name == "find" {
        Some(Command::Find {
            kind: first,
            scopes,
            predicate: third,
        })
    } else if name == "attributes" {
        Some(Command::Attributes {
            subject: first,
            scopes,
            tags: third,
        })
    } else if name == "withdraw" {
        Some(Command::Withdraw {
            url: first,
            scopes,
            tags: third,
        })
    } else {
        None
    }
}

impl<'a> Command<'a> {
    /// The command that words are, after the agent's address; `None` where they are none.
    pub(crate) fn of(words: &'a [String]) -> Option<Command<'a>>
        ensures { option_map asked result ≡ command_in (map string_bytes words.now) }
    {
        let (name, words) = words.split_first()?;
        let name = name.as_str();
        if name == "register" {
            registration_in(words).map(Command::Register)
        } else if name == "keep" {
            registration_in(words).map(Command::Keep)
        } else if name == "types" {
            types_in(words)
        } else {
            command_of_three(name, three_in(words)?)
        }
    }

    /// The request that asks for it.
    pub(crate) fn request(
        &self,
        alloc: Global,
        header: &RequestHeader<'_>,
    ) -> Result<Vec<u8>, ClientFault>
        ensures { let m = message_of (λ fresh. request_header fresh header.now) (asked self.now) in MatchResult result (λ v. IsSpelled m v.items) (IsUnbuilt m) }
    {
        match self {
            Command::Find {
                kind,
                scopes,
                predicate,
            } => service_request(alloc, header, kind, scopes, predicate),
            Command::Attributes {
                subject,
                scopes,
                tags,
            } => attribute_request(alloc, header, subject, scopes, tags),
            Command::Types { scopes, authority } => {
                type_request(alloc, header, *authority, scopes)
            }
            Command::Register(service) | Command::Keep(service) => {
                registration(alloc, header, service)
            }
            Command::Withdraw { url, scopes, tags } => {
                withdrawal(alloc, header, scopes, url, tags)
            }
        }
    }
}

/// The message that asks for what words say, as the tool sends it with this number: `None` where they are no
/// command, or it can't be spelled.
pub fn request_of(alloc: Global, xid: u16, words: &[String]) -> Option<Vec<u8>>
    ensures { IsRequest xid (command_in (map string_bytes words.now)) (option_map (λ v. v.items) result) }
{
    let command = Command::of(words)?;
    command.request(alloc, &header_with(xid)).ok()
}
