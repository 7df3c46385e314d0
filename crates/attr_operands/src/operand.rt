ghost use Rattle.std.specs.Prelude.{◌≡◌, IfOk};
ghost use Rattle.attr_operands.specs.Operands as spec;
ghost use Rattle.attr_values.specs.Ranks.{rank_of};
ghost use Rattle.attr_operands.specs.Operands.{operand_of};

use attr_values::Value;
use slp_text::{Key, NoMemory, Row};
use std::alloc::Global;
use std::cmp::Ordering;
use text_patterns::compare;

/// What values are compared with, of a text its key.
pub enum Operand {
    Bool(bool),
    Int(i32),
    Opaque(Row<u8>),
    Text(Key),
}

impl Drop for Operand {
    fn drop(self) {
        match self {
            Operand::Bool(_) => {}
            Operand::Int(_) => {}
            Operand::Opaque(_) => {}
            Operand::Text(_) => {}
        }
    }
}

// The place of a value's kind in the order of kinds.
fn kind_of(value: &Value) -> u8
    ensures { result ≡ (rank_of value.now).0 }
{
    match value {
        Value::Bool(_) => 0,
        Value::Int(_) => 1,
        Value::Opaque(_) => 2,
        Value::Text(_) => 3,
    }
}

impl Operand {
    /// What values are compared with to be the same as this one.
    pub fn of(alloc: Global, value: Value) -> Result<Operand, NoMemory>
        ensures { IfOk result (λ o. o ≡ operand_of value) }
    {
        match value {
            Value::Bool(truth) => Ok(Operand::Bool(truth)),
            Value::Int(number) => Ok(Operand::Int(number)),
            Value::Opaque(bytes) => Ok(Operand::Opaque(bytes)),
            Value::Text(text) => Ok(Operand::Text(Key::of(alloc, text.as_str())?)),
        }
    }

    /// Whether a value is of the same kind, and the same: texts by their keys. Takes no memory.
    pub fn is_equal(&self, value: &Value) -> bool
        ensures { result ≡ spec.is_equal self.now value.now }
    {
        match (self, value) {
            (Operand::Bool(a), Value::Bool(b)) => *a == *b,
            (Operand::Int(a), Value::Int(b)) => *a == *b,
            (Operand::Opaque(a), Value::Opaque(b)) => a.as_slice() == b.as_slice(),
            (Operand::Text(key), Value::Text(text)) => compare(text.as_str(), key).is_eq(),
            _ => false,
        }
    }

    /// Whether a value is the operand or after it: of two numbers, or two texts. Takes no memory.
    pub fn is_at_least(&self, value: &Value) -> bool
        ensures { result ≡ spec.is_at_least self.now value.now }
    {
        match (self, value) {
            (Operand::Int(a), Value::Int(b)) => *a <= *b,
            (Operand::Text(key), Value::Text(text)) => compare(text.as_str(), key).is_ge(),
            _ => false,
        }
    }

    /// Whether a value is the operand or before it, in the same way.
    pub fn is_at_most(&self, value: &Value) -> bool
        ensures { result ≡ spec.is_at_most self.now value.now }
    {
        match (self, value) {
            (Operand::Int(a), Value::Int(b)) => *b <= *a,
            (Operand::Text(key), Value::Text(text)) => compare(text.as_str(), key).is_le(),
            _ => false,
        }
    }

    // The place of its kind.
    fn kind(&self) -> u8
        ensures { result ≡ (spec.operand_rank self.now).0 }
    {
        match self {
            Operand::Bool(_) => 0,
            Operand::Int(_) => 1,
            Operand::Opaque(_) => 2,
            Operand::Text(_) => 3,
        }
    }

    /// How a value stands to the operand, in the order of values. Takes no memory.
    pub fn stand_of(&self, value: &Value) -> Ordering
        ensures { result ≡ spec.stand_of self.now value.now }
    {
        match (self, value) {
            (Operand::Bool(a), Value::Bool(b)) => b.cmp(a),
            (Operand::Int(a), Value::Int(b)) => b.cmp(a),
            (Operand::Opaque(a), Value::Opaque(b)) => b.as_slice().cmp(a.as_slice()),
            (Operand::Text(key), Value::Text(text)) => compare(text.as_str(), key),
            _ => kind_of(value).cmp(&self.kind()),
        }
    }

    /// How a value stands to those that `is_at_least` accepts.
    pub fn stand_at_least(&self, value: &Value) -> Ordering
        ensures { result ≡ spec.stand_at_least self.now value.now }
    {
        if self.is_at_least(value) {
            return Ordering::Equal;
        }
        if self.stand_of(value).is_lt() {
            return Ordering::Less;
        }
        Ordering::Greater
    }

    /// How a value stands to those that `is_at_most` accepts.
    pub fn stand_at_most(&self, value: &Value) -> Ordering
        ensures { result ≡ spec.stand_at_most self.now value.now }
    {
        if self.is_at_most(value) {
            return Ordering::Equal;
        }
        if self.stand_of(value).is_gt() {
            return Ordering::Greater;
        }
        Ordering::Less
    }
}
