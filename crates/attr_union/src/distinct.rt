ghost use Rattle.std.specs.Prelude.{◌≡◌, ◌++◌, ◌∷◌, [], if◌then◌else◌, IfOk};
ghost use Rattle.attr_union.specs.Rooms.{AreFirstDistinct};
ghost use Rattle.attr_union.specs.Unions.{IsIdentity};

use crate::lent::LentValue;
use attr_list::Value;
use slp_text::{Key, NoMemory};
use std::alloc::Global;
use std::collections::BTreeSet;

// What values that are the same have in common: their kind and what they are, of a text its key.
#[derive(PartialEq, Eq, PartialOrd, Ord, Drop)]
enum Identity<'a> {
    Bool(bool),
    Int(i32),
    Opaque(&'a [u8]),
    Text(Key),
}

// What a value has in common with those that are the same.
fn identity_of<'a>(alloc: Global, value: &'a Value) -> Result<Identity<'a>, NoMemory>
    ensures { IfOk result (λ i. IsIdentity i value.now) }
{
    match value {
        Value::Bool(truth) => Ok(Identity::Bool(*truth)),
        Value::Int(number) => Ok(Identity::Int(*number)),
        Value::Opaque(bytes) => Ok(Identity::Opaque(bytes.as_slice())),
        Value::Text(text) => Ok(Identity::Text(Key::of(alloc, text.as_str())?)),
    }
}

// Appends a value, if it is wanted.
fn keep_if<'a>(
    wanted: bool,
    value: &'a Value,
    kept: &mut Vec<LentValue<'a>>,
) -> Result<(), NoMemory>
    ensures { IfOk result (λ _. kept.new.items ≡ (if wanted then kept.old.items ++ value.now ∷ [] else kept.old.items)) }
{
    if wanted {
        kept.push(LentValue { value })?;
    }
    Ok(())
}

/// Values without those that are the same as an earlier one; where these are more than `most`, the first of them suffice. It takes time
/// for the number of values that are looked at and its logarithm.
pub fn distinct<'a>(
    alloc: Global,
    values: &[LentValue<'a>],
    most: usize,
) -> Result<Vec<LentValue<'a>>, NoMemory>
    ensures { IfOk result (λ v. AreFirstDistinct most values.now v.items) }
{
    let mut seen = BTreeSet::new(alloc);
    let mut kept = Vec::new(alloc);
    for lent in values {
        let identity = identity_of(alloc, lent.value)?;
        let is_new = seen.insert(identity)?;
        keep_if(is_new, lent.value, &mut kept)?;
        if kept.len() > most {
            return Ok(kept);
        }
    }
    Ok(kept)
}
