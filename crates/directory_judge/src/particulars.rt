ghost use Rattle.std.specs.Prelude.{◌≡◌, ◌≤◌, length, IfOk, IfSome, Some};
ghost use Rattle.std.specs.Option.{option_map};
ghost use Rattle.std.specs.Result.{result_ok};
ghost use Rattle.slp_scopes.specs.Scopes.{scopes_of};
ghost use Rattle.slp_text.specs.Sets.{common_keys};
ghost use Rattle.slp_messages.specs.Views.{header_in, registration_in};
ghost use Rattle.service_url.specs.Types.{type_of};
ghost use Rattle.attr_list.specs.Reading.{attributes_in};
ghost use Rattle.directory_judge.specs.Judgements.{particulars, particulars_in, particulars_of_texts, AreParticularsOf};

use crate::reason::{Because, Decider};
use crate::site::Site;
use attr_list::Attrs;
use service_url::{ServiceType, Url};
use slp_messages::{KeptHeader, RegistrationView};
use slp_scopes::ScopeList;
use slp_text::NoMemory;
use std::alloc::Global;

/// What a registration names: its URL, its type, those of its scopes that the site supports, and its
/// attributes.
#[derive(Drop)]
pub struct Particulars {
    pub url: Url,
    pub kind: ServiceType,
    pub scopes: ScopeList,
    pub attrs: Attrs,
}

/// What is found of a registration: what it names, or which step finds the first fault.
#[derive(Drop)]
pub enum Reading {
    Read(Particulars),
    Denied(Because),
}

/// The scopes that a text names and the site supports, if it is a list of scopes.
pub fn read_supported(alloc: Global, site: &Site, text: &str) -> Result<Option<ScopeList>, NoMemory>
    ensures value { IfOk result (λ l. l ≡ option_map (common_keys site.now.scopes) (result_ok (scopes_of text.now))) }
    ensures few { IfOk result (λ l. IfSome l (λ scopes. length scopes ≤ 16)) }
{
    let Some(scopes) = ScopeList::read(alloc, text)? else {
        return Ok(None);
    };
    Ok(Some(scopes.within(site.scopes())))
}

// What a registration names, whose URL and type were read already.
fn name_read(
    alloc: Global,
    site: &Site,
    registration: &RegistrationView<'_>,
    url: Url,
    kind: ServiceType,
) -> Result<Reading, NoMemory>
    ensures value { let r = registration_in registration.now in
        IfOk result (λ n. particulars_of_texts site.now (Some kind) (Some url) (result_ok (attributes_in r.attributes)) (result_ok (scopes_of r.scopes)) ≡ particulars_in n) }
    ensures url { IfOk result (AreParticularsOf url) }
{
    let Some(attrs) = Attrs::read(alloc, registration.attributes)? else {
        return Ok(Reading::Denied(Because::by(Decider::Attributes, Some(kind))));
    };
    let Some(scopes) = read_supported(alloc, site, registration.scopes)? else {
        return Ok(Reading::Denied(Because::by(Decider::Parse, None)));
    };
    Ok(Reading::Read(Particulars {
        url,
        kind,
        scopes,
        attrs,
    }))
}

/// What a registration names, whose type was read already (RFC 2608, section 9.3).
pub fn name(
    alloc: Global,
    site: &Site,
    header: &KeptHeader<'_>,
    registration: &RegistrationView<'_>,
    kind: Option<ServiceType>,
) -> Result<Reading, NoMemory>
    requires { kind ≡ result_ok (type_of registration.now.kind.now) }
    ensures value { IfOk result (λ n. particulars site.now (header_in header.now) (registration_in registration.now) ≡ particulars_in n) }
    ensures url { IfOk result (AreParticularsOf registration.now.entry.url.now) }
{
    if header.language.is_empty() || registration.entry.lifetime == 0 {
        return Ok(Reading::Denied(Because::by(Decider::Registration, None)));
    }
    let Some(kind) = kind else {
        return Ok(Reading::Denied(Because::by(Decider::Registration, None)));
    };
    match Url::read(alloc, registration.entry.url)? {
        Some(url) => name_read(alloc, site, registration, url, kind),
        None => Ok(Reading::Denied(Because::by(Decider::Registration, None))),
    }
}
