ghost use Rattle.std.specs.Prelude.{◌≡◌};
ghost use Rattle.std.specs.List.{list_all, list_any};
ghost use Rattle.std.specs.Option.{option_copied};
ghost use Rattle.attr_operands.specs.Operands.{is_equal};
ghost use Rattle.srv_template.specs.Conformity as spec;
ghost use Rattle.srv_template.specs.Conformity.{fault_of_held, fault_of_values, fault_on};

use crate::fault::FaultKind;
use attr_list::{Attrs, Held, Value};
use attr_operands::Operand;
use slp_text::{Key, Row};

/// The kinds of a definition (RFC 2609, section 4.2.2).
#[derive(Clone, Copy, Debug, PartialEq, Eq)]
pub enum ValueKind {
    /// STRING, which numbers and truths are, too.
    Text,
    Integer,
    Boolean,
    Opaque,
    Keyword,
}

/// What a template says of a tag (RFC 2609, section 4.2).
pub struct Definition {
    pub tag: Key,
    pub kind: ValueKind,
    /// It may hold more than one value: the flag M.
    pub multiple: bool,
    /// It need not be there: the flag O.
    pub optional: bool,
    /// What its values may be. Where there is none, each may be any.
    pub allowed: Row<Operand>,
}

impl Drop for Definition {
    fn drop(self) {
        let Definition {
            tag: _,
            kind: _,
            multiple: _,
            optional: _,
            allowed: _,
        } = self;
    }
}

impl ValueKind {
    /// Whether it is of a tag without values. Takes no memory.
    pub fn is_keyword(self) -> bool
        ensures { result ≡ spec.is_keyword self }
    {
        match self {
            ValueKind::Keyword => true,
            ValueKind::Text | ValueKind::Integer | ValueKind::Boolean | ValueKind::Opaque => false,
        }
    }

    /// Whether a value is of the kind. Takes no memory.
    pub fn takes(self, value: &Value) -> bool
        ensures { result ≡ spec.takes self value.now }
    {
        match self {
            ValueKind::Text => !matches!(value, Value::Opaque(_)),
            ValueKind::Integer => matches!(value, Value::Int(_)),
            ValueKind::Boolean => matches!(value, Value::Bool(_)),
            ValueKind::Opaque => matches!(value, Value::Opaque(_)),
            ValueKind::Keyword => false,
        }
    }
}

fn is_among(allowed: &[Operand], value: &Value) -> bool
    ensures { result ≡ list_any (λ o. is_equal o value.now) allowed.now }
{
    allowed.iter().any(|operand| operand.is_equal(value))
}

fn is_allowed(allowed: &[Operand], value: &Value) -> bool
    ensures { result ≡ spec.is_allowed allowed.now value.now }
{
    allowed.is_empty() || is_among(allowed, value)
}

impl Definition {
    fn takes_all(&self, values: &[Value]) -> bool
        ensures { result ≡ list_all (spec.takes self.now.kind) values.now }
    {
        values.iter().all(|value| self.kind.takes(value))
    }

    fn allows_all(&self, values: &[Value]) -> bool
        ensures { result ≡ list_all (spec.is_allowed self.now.allowed) values.now }
    {
        let allowed = self.allowed.as_slice();
        values.iter().all(|value| is_allowed(allowed, value))
    }

    /// What is wrong with the values of the tag. Takes no memory.
    pub fn values_fault(&self, values: &[Value]) -> Option<FaultKind>
        ensures { result ≡ fault_of_values self.now values.now }
    {
        if !self.takes_all(values) {
            return Some(FaultKind::WrongKind);
        }
        if !self.multiple && values.len() > 1 {
            return Some(FaultKind::Count);
        }
        if self.allows_all(values) {
            None
        } else {
            Some(FaultKind::Value)
        }
    }

    // What is wrong with what the tag holds, if it is there.
    fn held_fault(&self, held: Option<&Held>) -> Option<FaultKind>
        ensures { result ≡ fault_of_held self.now (option_copied held.entry) }
    {
        match held {
            None if self.optional || self.kind.is_keyword() => None,
            None => Some(FaultKind::Missing),
            Some(Held::Keyword) if self.kind.is_keyword() => None,
            Some(Held::Keyword) => Some(FaultKind::WrongKind),
            Some(Held::Values(values)) => self.values_fault(values.as_slice()),
        }
    }

    /// What is wrong with its tag in attributes. It takes one look-up, and no memory.
    pub(crate) fn fault_on(&self, attributes: &Attrs) -> Option<FaultKind>
        ensures { result ≡ fault_on self.now attributes.now }
    {
        self.held_fault(attributes.get(&self.tag))
    }
}
