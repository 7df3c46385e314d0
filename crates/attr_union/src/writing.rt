ghost use Rattle.std.specs.Prelude.{◌≡◌, ◌++◌, List, map, string_bytes, IfOk};
ghost use Rattle.slp_text.specs.Lists.{comma_list};
ghost use Rattle.attr_values.specs.Values.{value_text};
ghost use Rattle.attr_values.specs.declared.value.Value.{Value as Item};
ghost use Rattle.attr_list.specs.Lists.{distinct_values, held_of};
ghost use Rattle.attr_list.specs.Texts.{attribute_text, opening_text};
ghost use Rattle.attr_list.specs.declared.held.Held.TheVariants as held;
ghost use Rattle.attr_list.specs.Writing.{written_item};
ghost use Rattle.attr_union.specs.Rooms.{AreFirstDistinct, IsWrittenWithin};

use crate::distinct::distinct;
use crate::lent::{LentTag, LentValue};
use attr_list::Value;
use slp_text::{Key, NoMemory, Place, escape_into};
use std::alloc::Global;

// Appends one value more, after a comma if others have begun.
fn append_value(value: &Value, begun: bool, out: &mut String) -> Result<(), NoMemory>
    ensures { IfOk result (λ _. string_bytes out.new ≡ string_bytes out.old ++ written_item begun (value_text value.now)) }
{
    if begun {
        out.push(',')?;
    }
    value.print_into(out)
}

// Appends values with a comma between each two.
fn append_values(values: &[LentValue<'_>], out: &mut String) -> Result<(), NoMemory>
    ensures { IfOk result (λ _. string_bytes out.new ≡ string_bytes out.old ++ comma_list (map value_text values.now)) }
{
    let mut begun = false;
    for lent in values {
        append_value(lent.value, begun, out)?;
        begun = true;
    }
    Ok(())
}

// Appends values, each once: no more of them than make clear that there is no room.
fn append_distinct(
    alloc: Global,
    values: &[LentValue<'_>],
    room: usize,
    out: &mut String,
) -> Result<(), NoMemory>
    ensures { IfOk result (λ _. (first : List Item) × AreFirstDistinct room values.now first × (string_bytes out.new ≡ string_bytes out.old ++ comma_list (map value_text first))) }
{
    if values.len() < 2 {
        return append_values(values, out);
    }
    let kept = distinct(alloc, values, room)?;
    append_values(&kept, out)
}

// Appends what stands before the values of a tag.
fn append_opening(tag: &Key, out: &mut String) -> Result<(), NoMemory>
    ensures { IfOk result (λ _. string_bytes out.new ≡ string_bytes out.old ++ opening_text tag.now) }
{
    out.push('(')?;
    escape_into(tag.as_str(), Place::Tag, out)?;
    out.push('=')?;
    Ok(())
}

// Appends a tag with values, each once, in the same way.
fn append_valued(
    alloc: Global,
    tag: &Key,
    values: &[LentValue<'_>],
    room: usize,
    out: &mut String,
) -> Result<(), NoMemory>
    ensures { IfOk result (λ _. (first : List Item) × AreFirstDistinct room values.now first × (string_bytes out.new ≡ string_bytes out.old ++ attribute_text tag.now (held.Values first))) }
{
    append_opening(tag, out)?;
    append_distinct(alloc, values, room, out)?;
    out.push(')')?;
    Ok(())
}

/// Appends an attribute: a tag with all its values, each once; where these are more than there is room for, some suffice that are,
/// too. Where memory runs out, a part of it may stand there.
pub fn append_attribute(
    alloc: Global,
    tag: &LentTag<'_>,
    values: &[LentValue<'_>],
    room: usize,
    out: &mut String,
) -> Result<(), NoMemory>
    ensures { IfOk result (λ _. IsWrittenWithin room (string_bytes out.old) (attribute_text tag.now (held_of (distinct_values values.now))) (string_bytes out.new)) }
{
    if values.is_empty() {
        return escape_into(tag.key.as_str(), Place::Tag, out);
    }
    append_valued(alloc, tag.key, values, room, out)
}
