ghost use Rattle.std.specs.Prelude.{◌≡◌};
ghost use Rattle.std.specs.Option.{option_copied};
ghost use Rattle.directory_questions.specs.Items.{is_under, kind_asked};
ghost use Rattle.directory_questions.specs.declared.query.QueryFault.TheVariants as fault;

use registry_core::Entry;
use search_filter::Filter;
use service_url::{ServiceType, Url};
use slp_scopes::ScopeList;
use slp_tags::TagList;
use slp_text::{Key, NoMemory};
use std::alloc::{AllocError, AllocFailed};
use thiserror::Error;

/// What a service request asks for.
#[derive(Drop)]
pub struct ServiceQuery {
    pub kind: ServiceType,
    pub scopes: ScopeList,
    pub language: Key,
    pub filter: Option<Filter>,
}

/// What an attribute request is about: a type and what it covers, or one URL.
#[derive(Drop)]
pub enum Target {
    Kind(ServiceType),
    Place(Url),
}

impl Target {
    /// The type, if it is one. Takes no memory.
    pub fn kind(&self) -> Option<&ServiceType>
        ensures { option_copied result ≡ kind_asked self.now }
    {
        match self {
            Target::Kind(kind) => Some(kind),
            Target::Place(_) => None,
        }
    }
}

/// What an attribute request asks for (RFC 2608, section 10.3).
#[derive(Drop)]
pub struct AttrQuery {
    pub target: Target,
    pub scopes: ScopeList,
    pub language: Key,
    /// The tags that are asked for; where there is none, all are.
    pub tags: TagList,
}

/// Whose types a type request asks for (RFC 2608, section 10.1).
pub enum Authority {
    /// Those of every naming authority.
    All,
    /// Those without one.
    Unnamed,
    Named(Key),
}

impl Drop for Authority {
    fn drop(self) {
        match self {
            Authority::All => {}
            Authority::Unnamed => {}
            Authority::Named(_) => {}
        }
    }
}

impl Authority {
    /// Whether the type of an entry is among those. Takes no memory.
    pub fn is_over(&self, entry: &Entry) -> bool
        ensures { result ≡ is_under self.now entry.now }
    {
        match self {
            Authority::All => true,
            Authority::Unnamed => entry.kind.authority().is_none(),
            Authority::Named(name) => match entry.kind.authority() {
                Some(own) => own == name.as_str(),
                None => false,
            },
        }
    }
}

/// What a type request asks for.
#[derive(Drop)]
pub struct TypeQuery {
    pub authority: Authority,
    pub scopes: ScopeList,
}

/// Which directory agents are asked for (RFC 2608, section 11.2).
pub struct AgentQuery {
    /// Their type.
    pub kind: ServiceType,
    /// None where the scopes or the predicate are not read.
    pub scopes: Option<ScopeList>,
}

impl Drop for AgentQuery {
    fn drop(self) {
        let AgentQuery { kind: _, scopes: _ } = self;
    }
}

/// Why a question has no answer: an error code (RFC 2608, section 7).
#[derive(Clone, Copy, Debug, PartialEq, Eq, Error)]
pub enum QueryFault {
    /// Nothing is there in the language that was asked for.
    #[error("the language is not supported")]
    Language = 1,
    /// None of the scopes is supported.
    #[error("no scope is supported")]
    Scope = 4,
    #[error("out of memory")]
    NoMemory = 10,
}

impl From<AllocError> for QueryFault {
    ghost from_gives = { λ _ e. e ≡ fault.NoMemory };

    fn from(_e: AllocError) -> QueryFault {
        QueryFault::NoMemory
    }
}

impl<T: Drop> From<AllocFailed<T>> for QueryFault {
    ghost from_gives = { λ _ e. e ≡ fault.NoMemory };

    fn from(_e: AllocFailed<T>) -> QueryFault {
        QueryFault::NoMemory
    }
}

impl From<NoMemory> for QueryFault {
    ghost from_gives = { λ _ e. e ≡ fault.NoMemory };

    fn from(_e: NoMemory) -> QueryFault {
        QueryFault::NoMemory
    }
}
