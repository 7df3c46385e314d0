ghost use Rattle.std.specs.Prelude.{◌≡◌};
ghost use Rattle.std.specs.List.{list_any};
ghost use Rattle.addresses.specs.Addresses.{has_address};
ghost use Rattle.access_rules.specs.Deciding as spec;
ghost use Rattle.access_rules.specs.Deciding.{action_eq, allows_kind, allows_scope, deed_in};

use addresses::{Addr, Prefix};
use service_url::ServiceType;
use slp_scopes::ScopeList;
use slp_text::{Key, Row, Text};

/// What a rule allows or denies.
#[derive(Clone, Copy, Debug, PartialEq, Eq)]
pub enum Action {
    Register,
    Withdraw,
    See,
}

/// What is asked of the rules, but for the scope: who asks, to do what, of which type, and who
/// registered it.
#[derive(Clone, Copy)]
pub struct Deed<'a> {
    pub asker: Addr,
    pub action: Action,
    pub kind: &'a ServiceType,
    pub registrant: Addr,
}

/// A rule of the rule file.
pub struct Rule {
    pub name: Text,
    /// The askers that it is about.
    pub from: Row<Prefix>,
    pub action: Action,
    /// The type that covers those that it is about. `None` is every type.
    pub kind: Option<ServiceType>,
    /// `None` is every scope.
    pub scopes: Option<ScopeList>,
    pub allow: bool,
    /// Whether it is about what the asker registered, and about nothing else.
    pub owner: bool,
}

impl Drop for Rule {
    fn drop(self) {
        let Rule {
            name: _,
            from: _,
            action: _,
            kind: _,
            scopes: _,
            allow: _,
            owner: _,
        } = self;
    }
}

#[inline(always)]
fn is_same(a: Action, b: Action) -> bool
    ensures { result ≡ action_eq a b }
{
    match a {
        Action::Register => matches!(b, Action::Register),
        Action::Withdraw => matches!(b, Action::Withdraw),
        Action::See => matches!(b, Action::See),
    }
}

// Whether an asker is among these.
pub fn is_from(prefixes: &Row<Prefix>, asker: Addr) -> bool
    ensures { result ≡ list_any (λ p. has_address p asker) prefixes.now }
{
    prefixes.as_slice().iter().any(|p| p.holds(asker))
}

// Whether a type is covered by one that is named. `None` is every type.
pub fn is_of_kind(named: &Option<ServiceType>, kind: &ServiceType) -> bool
    ensures { result ≡ allows_kind named.now kind.now }
{
    match named {
        None => true,
        Some(named) => named.covers(kind),
    }
}

// Whether a scope is among those that are named. `None` is every scope.
pub fn is_in_scope(named: &Option<ScopeList>, scope: &Key) -> bool
    ensures { result ≡ allows_scope named.now scope.now }
{
    match named {
        None => true,
        Some(named) => named.has(scope),
    }
}

// Whether some type is covered by one that is named, and by another. `None` is every type.
fn overlaps(named: &Option<ServiceType>, kind: &ServiceType) -> bool
    ensures { result ≡ spec.overlaps named.now kind.now }
{
    match named {
        None => true,
        Some(named) => named.covers(kind) || kind.covers(named),
    }
}

impl Rule {
    /// Whether the rule may show something to an asker, of the types that one covers, in a scope. Takes no memory.
    pub(crate) fn may_show(&self, asker: Addr, kind: &ServiceType, scope: &Key) -> bool
        ensures { result ≡ spec.may_show asker kind.now scope.now self.now }
    {
        self.allow
            && is_same(self.action, Action::See)
            && overlaps(&self.kind, kind)
            && is_in_scope(&self.scopes, scope)
            && is_from(&self.from, asker)
    }

    /// Whether the rule is about a deed in a scope.
    #[inline(always)]
    pub(crate) fn fits(&self, deed: &Deed<'_>, scope: &Key) -> bool
        ensures { result ≡ spec.fits (deed_in deed.now) scope.now self.now }
    {
        is_same(self.action, deed.action)
            && is_from(&self.from, deed.asker)
            && is_of_kind(&self.kind, deed.kind)
            && is_in_scope(&self.scopes, scope)
            && (!self.owner || deed.asker.0 == deed.registrant.0)
    }
}
