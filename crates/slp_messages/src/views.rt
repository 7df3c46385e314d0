//! Messages whose texts are lent: they are judged and answered without a copy.
ghost use Rattle.std.specs.Prelude.{◌≡◌, IfOk};
ghost use Rattle.slp_messages.specs.Views.{attribute_request_in, authority_in, entry_in, header_in, registration_in, request_in, type_request_in, withdrawal_in};

use crate::header::{Flags, Header};
use crate::message::{
    AttributeRequest, Authority, Registration, ServiceRequest, TypeRequest, UrlEntry, Withdrawal,
};
use slp_text::{NoMemory, Text};
use std::alloc::Global;

/// What a message keeps of its header, lent.
#[derive(Clone, Copy)]
pub struct KeptHeader<'a> {
    pub flags: Flags,
    pub xid: u16,
    pub language: &'a str,
}

/// A URL and how long it is registered, in seconds, lent.
#[derive(Clone, Copy)]
pub struct EntryView<'a> {
    pub lifetime: u16,
    pub url: &'a str,
}

/// A service request, lent.
#[derive(Clone, Copy)]
pub struct ServiceRequestView<'a> {
    pub responders: &'a str,
    pub kind: &'a str,
    pub scopes: &'a str,
    pub predicate: &'a str,
}

/// An attribute request, lent.
#[derive(Clone, Copy)]
pub struct AttributeRequestView<'a> {
    pub responders: &'a str,
    pub subject: &'a str,
    pub scopes: &'a str,
    pub tags: &'a str,
}

/// Whose service types are asked for, lent.
#[derive(Clone, Copy)]
pub enum AuthorityView<'a> {
    All,
    Named(&'a str),
}

/// A type request, lent.
#[derive(Clone, Copy)]
pub struct TypeRequestView<'a> {
    pub responders: &'a str,
    pub authority: AuthorityView<'a>,
    pub scopes: &'a str,
}

/// A registration, lent.
#[derive(Clone, Copy)]
pub struct RegistrationView<'a> {
    pub entry: EntryView<'a>,
    pub kind: &'a str,
    pub scopes: &'a str,
    pub attributes: &'a str,
}

/// A withdrawal, lent.
#[derive(Clone, Copy)]
pub struct WithdrawalView<'a> {
    pub scopes: &'a str,
    pub entry: EntryView<'a>,
    pub tags: &'a str,
}

/// A message that asks for a change, lent.
#[derive(Clone, Copy)]
pub enum ChangeView<'a> {
    Registration(KeptHeader<'a>, RegistrationView<'a>),
    Withdrawal(KeptHeader<'a>, WithdrawalView<'a>),
}

// ---- what is copied of them

// The text of these characters.
fn copied(alloc: Global, text: &str) -> Result<Text, NoMemory>
    ensures { IfOk result (λ t. t ≡ text.now) }
{
    Ok(Text::wrap(String::from_str(alloc, text)?))
}

impl EntryView<'_> {
    /// The entry with a text of its own.
    pub fn copy(&self, alloc: Global) -> Result<UrlEntry, NoMemory>
        ensures { IfOk result (λ e. e ≡ entry_in self.now) }
    {
        let url = copied(alloc, self.url)?;
        Ok(UrlEntry {
            lifetime: self.lifetime,
            url,
        })
    }
}

impl ServiceRequestView<'_> {
    /// The request with texts of its own.
    pub fn copy(&self, alloc: Global) -> Result<ServiceRequest, NoMemory>
        ensures { IfOk result (λ r. r ≡ request_in self.now) }
    {
        let responders = copied(alloc, self.responders)?;
        let kind = copied(alloc, self.kind)?;
        let scopes = copied(alloc, self.scopes)?;
        let predicate = copied(alloc, self.predicate)?;
        Ok(ServiceRequest {
            responders,
            kind,
            scopes,
            predicate,
        })
    }
}

impl AttributeRequestView<'_> {
    /// The request with texts of its own.
    pub fn copy(&self, alloc: Global) -> Result<AttributeRequest, NoMemory>
        ensures { IfOk result (λ r. r ≡ attribute_request_in self.now) }
    {
        let responders = copied(alloc, self.responders)?;
        let subject = copied(alloc, self.subject)?;
        let scopes = copied(alloc, self.scopes)?;
        let tags = copied(alloc, self.tags)?;
        Ok(AttributeRequest {
            responders,
            subject,
            scopes,
            tags,
        })
    }
}

impl AuthorityView<'_> {
    /// The same with a text of its own.
    pub fn copy(&self, alloc: Global) -> Result<Authority, NoMemory>
        ensures { IfOk result (λ a. a ≡ authority_in self.now) }
    {
        match self {
            AuthorityView::All => Ok(Authority::All),
            AuthorityView::Named(name) => Ok(Authority::Named(copied(alloc, name)?)),
        }
    }
}

impl TypeRequestView<'_> {
    /// The request with texts of its own.
    pub fn copy(&self, alloc: Global) -> Result<TypeRequest, NoMemory>
        ensures { IfOk result (λ r. r ≡ type_request_in self.now) }
    {
        let responders = copied(alloc, self.responders)?;
        let authority = self.authority.copy(alloc)?;
        let scopes = copied(alloc, self.scopes)?;
        Ok(TypeRequest {
            responders,
            authority,
            scopes,
        })
    }
}

impl RegistrationView<'_> {
    /// The registration with texts of its own.
    pub fn copy(&self, alloc: Global) -> Result<Registration, NoMemory>
        ensures { IfOk result (λ r. r ≡ registration_in self.now) }
    {
        let entry = self.entry.copy(alloc)?;
        let kind = copied(alloc, self.kind)?;
        let scopes = copied(alloc, self.scopes)?;
        let attributes = copied(alloc, self.attributes)?;
        Ok(Registration {
            entry,
            kind,
            scopes,
            attributes,
        })
    }
}

impl WithdrawalView<'_> {
    /// The withdrawal with texts of its own.
    pub fn copy(&self, alloc: Global) -> Result<Withdrawal, NoMemory>
        ensures { IfOk result (λ w. w ≡ withdrawal_in self.now) }
    {
        let scopes = copied(alloc, self.scopes)?;
        let entry = self.entry.copy(alloc)?;
        let tags = copied(alloc, self.tags)?;
        Ok(Withdrawal {
            scopes,
            entry,
            tags,
        })
    }
}

// ---- what is lent of messages

impl Header {
    /// The header, lent.
    pub fn view(&self) -> KeptHeader<'_>
        ensures { header_in result ≡ self.now }
    {
        KeptHeader {
            flags: self.flags,
            xid: self.xid,
            language: self.language.as_str(),
        }
    }
}

impl UrlEntry {
    /// The entry, lent.
    pub fn view(&self) -> EntryView<'_>
        ensures { entry_in result ≡ self.now }
    {
        EntryView {
            lifetime: self.lifetime,
            url: self.url.as_str(),
        }
    }
}

impl Registration {
    /// The registration, lent.
    pub fn view(&self) -> RegistrationView<'_>
        ensures { registration_in result ≡ self.now }
    {
        RegistrationView {
            entry: self.entry.view(),
            kind: self.kind.as_str(),
            scopes: self.scopes.as_str(),
            attributes: self.attributes.as_str(),
        }
    }
}

impl Withdrawal {
    /// The withdrawal, lent.
    pub fn view(&self) -> WithdrawalView<'_>
        ensures { withdrawal_in result ≡ self.now }
    {
        WithdrawalView {
            scopes: self.scopes.as_str(),
            entry: self.entry.view(),
            tags: self.tags.as_str(),
        }
    }
}
