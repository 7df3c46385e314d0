ghost use Rattle.std.specs.Prelude.{◌≡◌, ◌++◌, ◌∷◌, [], if◌then◌else◌, IfOk};
ghost use Rattle.attr_list.specs.Gathering.{IsIdentity};
ghost use Rattle.attr_list.specs.Lists.{distinct_values};

use attr_values::Value;
use slp_text::{Key, NoMemory};
use std::alloc::Global;
use std::collections::BTreeSet;

// What values that are the same have in common: their kind and what they are, of a text its key.
#[derive(PartialEq, Eq, PartialOrd, Ord, Drop)]
pub enum Identity {
    Bool(bool),
    Int(i32),
    Opaque(Vec<u8>),
    Text(Key),
}

// What a value has in common with those that are the same.
pub fn identity_of(alloc: Global, value: &Value) -> Result<Identity, NoMemory>
    ensures { IfOk result (λ i. IsIdentity i value.now) }
{
    match value {
        Value::Bool(truth) => Ok(Identity::Bool(*truth)),
        Value::Int(number) => Ok(Identity::Int(*number)),
        Value::Opaque(bytes) => {
            let items = bytes.as_slice().to_vec(alloc)?;
            Ok(Identity::Opaque(items))
        }
        Value::Text(text) => Ok(Identity::Text(Key::of(alloc, text.as_str())?)),
    }
}

/// Appends a value, if it is wanted.
pub fn keep_if(wanted: bool, value: Value, kept: &mut Vec<Value>) -> Result<(), NoMemory>
    ensures { IfOk result (λ _. kept.new.items ≡ (if wanted then kept.old.items ++ value ∷ [] else kept.old.items)) }
{
    if wanted {
        kept.push(value)?;
    }
    Ok(())
}

/// Values without those that are the same as an earlier one. It takes time for the number of values and
/// its logarithm.
pub fn distinct(alloc: Global, values: Vec<Value>) -> Result<Vec<Value>, NoMemory>
    ensures { IfOk result (λ v. v.items ≡ distinct_values values.items) }
{
    if values.len() < 2 {
        return Ok(values);
    }
    let mut seen = BTreeSet::new(alloc);
    let mut kept = Vec::new(alloc);
    for value in values {
        let identity = identity_of(alloc, &value)?;
        let is_new = seen.insert(identity)?;
        keep_if(is_new, value, &mut kept)?;
    }
    Ok(kept)
}
