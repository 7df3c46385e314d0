ghost use Rattle.std.specs.Prelude.{◌≡◌, ◌<◌, ◌++◌, ◌∷◌, [], map, chars, encode_utf8_all, slice_get, string_bytes, IfOk, OnErr, IfSome};
ghost use Rattle.std.specs.FinMap as fin;
ghost use Rattle.slp_text.specs.Ascii.{right_parenthesis};
ghost use Rattle.slp_text.specs.Lists.{comma_list};
ghost use Rattle.slp_text.specs.Steps.{BeginsWith};
ghost use Rattle.attr_values.specs.Values.{value_text};
ghost use Rattle.attr_values.specs.declared.fault.AttrFault.TheVariants as fault;
ghost use Rattle.attr_list.specs.Texts.{attribute_text, attributes_text, opening_text};
ghost use Rattle.attr_list.specs.Writing.{text_of, texts_of, written_item};

use crate::attrs::{Attribute, Attrs};
use crate::held::Held;
use attr_values::{AttrFault, Value};
use slp_text::{Key, NoMemory, Place, escape_into};

// Appends one value more, after a comma if others have begun.
fn append_value(value: &Value, begun: bool, out: &mut String) -> Result<(), NoMemory>
    ensures ok { IfOk result (λ _. string_bytes out.new ≡ string_bytes out.old ++ written_item begun (value_text value.now)) }
    ensures start { BeginsWith (string_bytes out.old) (string_bytes out.new) }
{
    if begun {
        out.push(',')?;
    }
    value.print_into(out)
}

// Appends values with a comma between each two.
fn append_values(values: &[Value], out: &mut String) -> Result<(), NoMemory>
    ensures ok { IfOk result (λ _. string_bytes out.new ≡ string_bytes out.old ++ comma_list (map value_text values.now)) }
    ensures start { BeginsWith (string_bytes out.old) (string_bytes out.new) }
{
    let mut begun = false;
    for value in values {
        append_value(value, begun, out)?;
        begun = true;
    }
    Ok(())
}

// Appends what stands before the values of a tag.
fn append_opening(tag: &Key, out: &mut String) -> Result<(), NoMemory>
    ensures ok { IfOk result (λ _. string_bytes out.new ≡ string_bytes out.old ++ opening_text tag.now) }
    ensures start { BeginsWith (string_bytes out.old) (string_bytes out.new) }
{
    out.push('(')?;
    escape_into(tag.as_str(), Place::Tag, out)?;
    out.push('=')?;
    Ok(())
}

// Appends an attribute.
fn append_attribute(entry: &Attribute, out: &mut String) -> Result<(), NoMemory>
    ensures ok { IfOk result (λ _. string_bytes out.new ≡ string_bytes out.old ++ text_of entry.now) }
    ensures start { BeginsWith (string_bytes out.old) (string_bytes out.new) }
{
    match &entry.held {
        Held::Keyword => escape_into(entry.tag.as_str(), Place::Tag, out),
        Held::Values(values) => {
            append_opening(&entry.tag, out)?;
            append_values(values.as_slice(), out)?;
            out.push(')')?;
            Ok(())
        }
    }
}

// Appends one attribute more, after a comma if others have begun.
fn append_next(entry: &Attribute, begun: bool, out: &mut String) -> Result<(), NoMemory>
    ensures ok { IfOk result (λ _. string_bytes out.new ≡ string_bytes out.old ++ written_item begun (text_of entry.now)) }
    ensures start { BeginsWith (string_bytes out.old) (string_bytes out.new) }
{
    if begun {
        out.push(',')?;
    }
    append_attribute(entry, out)
}

// Appends attributes with a comma between each two.
fn append_all(entries: &[Attribute], out: &mut String) -> Result<(), NoMemory>
    ensures ok { IfOk result (λ _. string_bytes out.new ≡ string_bytes out.old ++ texts_of entries.now) }
    ensures start { BeginsWith (string_bytes out.old) (string_bytes out.new) }
{
    let mut begun = false;
    for entry in entries {
        append_next(entry, begun, out)?;
        begun = true;
    }
    Ok(())
}

impl Attrs {
    /// Appends the attributes in key order, with a comma between each two. Where memory runs out, the
    /// only fault, nothing is appended.
    pub fn print_into(&self, out: &mut String) -> Result<(), AttrFault>
        ensures ok { IfOk result (λ _. string_bytes out.new ≡ string_bytes out.old ++ attributes_text self.now) }
        ensures err { OnErr result (string_bytes out.new ≡ string_bytes out.old) }
        ensures memory { OnErr result (result ≡ Err fault.NoMemory) }
    {
        let before = out.len();
        match append_all(self.entries(), out) {
            Ok(()) => Ok(()),
            Err(_) => {
                out.truncate(before);
                Err(AttrFault::NoMemory)
            }
        }
    }

    /// Appends the attribute at a place below the length, counted from 0 in key order. Where memory
    /// runs out, the only fault, nothing is appended.
    pub fn print_one(&self, place: usize, out: &mut String) -> Result<(), AttrFault>
        requires { place < fin.len self.now }
        ensures ok { IfOk result (λ _. IfSome (slice_get (fin.entries self.now) place) (λ p. string_bytes out.new ≡ string_bytes out.old ++ attribute_text p.0 p.1)) }
        ensures err { OnErr result (string_bytes out.new ≡ string_bytes out.old) }
        ensures memory { OnErr result (result ≡ Err fault.NoMemory) }
    {
        let Some(entry) = self.entries().get(place) else {
            unreachable!()
        };
        let before = out.len();
        match append_attribute(entry, out) {
            Ok(()) => Ok(()),
            Err(_) => {
                out.truncate(before);
                Err(AttrFault::NoMemory)
            }
        }
    }
}
