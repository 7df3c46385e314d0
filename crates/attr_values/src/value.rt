ghost use Rattle.std.specs.Prelude.{◌≡◌, IfOk};

use slp_text::{NoMemory, Row, Text};
use std::alloc::Global;

/// A value of an attribute, with its kind. A text keeps its spelling, with its white space squeezed.
#[derive(Drop)]
pub enum Value {
    Bool(bool),
    Int(i32),
    Opaque(Row<u8>),
    Text(Text),
}

impl Value {
    /// An equal value.
    pub fn copy(&self, alloc: Global) -> Result<Value, NoMemory>
        ensures { IfOk result (λ v. v ≡ self.now) }
    {
        match self {
            Value::Bool(truth) => Ok(Value::Bool(*truth)),
            Value::Int(number) => Ok(Value::Int(*number)),
            Value::Opaque(bytes) => {
                let items = bytes.as_slice().to_vec(alloc)?;
                Ok(Value::Opaque(Row::wrap(items)))
            }
            Value::Text(text) => {
                let copy = text.copy(alloc)?;
                Ok(Value::Text(copy))
            }
        }
    }
}
