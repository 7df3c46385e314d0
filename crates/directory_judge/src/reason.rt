ghost use Rattle.std.specs.Prelude.{◌≡◌, ◌++◌, false, true, IfOk};
ghost use Rattle.std.specs.Option.{option_copied};
ghost use Rattle.directory_judge.specs.Judgements.{because_of, because_on, by_step, code_by, decider_text, finding_code};

use access_rules::Verdict;
use service_url::ServiceType;
use slp_messages::code;
use slp_text::{Key, NoMemory};
use std::alloc::Global;

/// Who decided on a message: a rule by its index, the default, or the step of judging that found a
/// fault. `Nobody` stands where nothing had to be decided.
#[derive(Clone, Copy, Debug, PartialEq, Eq)]
pub enum Decider {
    Rule(usize),
    Default,
    Nobody,
    Memory,
    Version,
    Parse,
    Auth,
    Option,
    Scope,
    Language,
    Registration,
    Attributes,
    Update,
    Template,
    Full,
}

impl Decider {
    /// The error code of what it denies (RFC 2608, section 7).
    pub fn code(self) -> u16
        ensures { result ≡ code_by self }
    {
        match self {
            Decider::Nobody => code::OK,
            Decider::Language => code::LANGUAGE_NOT_SUPPORTED,
            Decider::Parse | Decider::Attributes => code::PARSE_ERROR,
            Decider::Registration | Decider::Template => code::INVALID_REGISTRATION,
            Decider::Rule(_) | Decider::Default | Decider::Scope => code::SCOPE_NOT_SUPPORTED,
            Decider::Auth => code::AUTHENTICATION_UNKNOWN,
            Decider::Version => code::VERSION_NOT_SUPPORTED,
            Decider::Memory => code::INTERNAL_ERROR,
            Decider::Full => code::DIRECTORY_BUSY,
            Decider::Option => code::OPTION_NOT_UNDERSTOOD,
            Decider::Update => code::INVALID_UPDATE,
        }
    }

    /// What a line of the log calls it: a word, and the name of the rule, where one decided.
    #[inline]
    pub fn words(self, rule: &str) -> (&'static str, &str)
        ensures { result.0.now ++ result.1.now ≡ decider_text rule.now self }
    {
        match self {
            Decider::Rule(_) => ("rule:", rule),
            Decider::Default => ("default", ""),
            Decider::Nobody => ("none", ""),
            Decider::Memory => ("memory", ""),
            Decider::Version => ("version", ""),
            Decider::Parse => ("parse", ""),
            Decider::Auth => ("auth", ""),
            Decider::Option => ("option", ""),
            Decider::Scope => ("scope", ""),
            Decider::Language => ("language", ""),
            Decider::Registration => ("registration", ""),
            Decider::Attributes => ("attributes", ""),
            Decider::Update => ("update", ""),
            Decider::Template => ("template", ""),
            Decider::Full => ("full", ""),
        }
    }
}

/// Why a message was answered so: who decided, and on which type in which scope, where that is known.
#[derive(Drop)]
pub struct Because {
    pub decider: Decider,
    pub kind: Option<ServiceType>,
    pub scope: Option<Key>,
}

impl Because {
    /// A step of judging, by which a type may be known.
    pub fn by(decider: Decider, kind: Option<ServiceType>) -> Because
        ensures { result ≡ by_step decider kind }
    {
        Because {
            decider,
            kind,
            scope: None,
        }
    }

    /// The same, lent, of what is allowed or is not.
    pub fn finding(&self, allow: bool) -> Finding<'_>
        ensures allow { result.allow ≡ allow }
        ensures because { because_of result ≡ self.now }
    {
        Finding {
            allow,
            decider: self.decider,
            kind: self.kind.as_ref(),
            scope: self.scope.as_ref(),
        }
    }
}

/// What was found of a message: whether it is allowed, who decided so, and on which type in which scope, where that is known. Types and scopes
/// are lent.
#[derive(Clone, Copy)]
pub struct Finding<'a> {
    pub allow: bool,
    pub decider: Decider,
    pub kind: Option<&'a ServiceType>,
    pub scope: Option<&'a Key>,
}

impl<'a> Finding<'a> {
    /// Nobody had to decide, on a type, where one is known.
    pub fn by_nobody(kind: Option<&'a ServiceType>) -> Finding<'a>
        ensures allow { result.allow ≡ true }
        ensures code { finding_code result ≡ code_by Decider.Nobody }
        ensures because { because_of result ≡ by_step Decider.Nobody (option_copied kind.entry) }
    {
        Finding {
            allow: true,
            decider: Decider::Nobody,
            kind,
            scope: None,
        }
    }

    /// A step denies, by which a type may be known.
    pub fn deny(decider: Decider, kind: Option<&'a ServiceType>) -> Finding<'a>
        ensures allow { result.allow ≡ false }
        ensures code { finding_code result ≡ code_by decider }
        ensures because { because_of result ≡ by_step decider (option_copied kind.entry) }
    {
        Finding {
            allow: false,
            decider,
            kind,
            scope: None,
        }
    }

    /// What the rules say of a type in a scope.
    pub fn by_rules(verdict: Verdict, kind: &'a ServiceType, scope: &'a Key) -> Finding<'a>
        ensures allow { result.allow ≡ verdict.allow }
        ensures because { because_of result ≡ because_on verdict kind.now scope.now }
    {
        let decider = match verdict.rule {
            Some(place) => Decider::Rule(place),
            None => Decider::Default,
        };
        Finding {
            allow: verdict.allow,
            decider,
            kind: Some(kind),
            scope: Some(scope),
        }
    }

    /// Its code (RFC 2608, section 7).
    pub fn code(&self) -> u16
        ensures { result ≡ finding_code self.now }
    {
        if self.allow {
            code::OK
        } else {
            self.decider.code()
        }
    }

    /// Who decided on what, with copies.
    pub fn because(&self, alloc: Global) -> Result<Because, NoMemory>
        ensures { IfOk result (λ b. b ≡ because_of self.now) }
    {
        let kind = match self.kind {
            Some(kind) => Some(kind.copy(alloc)?),
            None => None,
        };
        let scope = match self.scope {
            Some(scope) => Some(scope.copy(alloc)?),
            None => None,
        };
        Ok(Because {
            decider: self.decider,
            kind,
            scope,
        })
    }
}
