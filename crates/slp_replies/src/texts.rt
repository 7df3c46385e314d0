//! Texts that a reply lists with commas, from the front as many as there is room for (RFC 2608, sections 10.2
//! and 10.4).
ghost use Rattle.std.specs.Prelude.{◌≡◌, ◌<◌, ◌≤◌, ◌+◌, ◌++◌, ℕ, true, false, IfOk, IfSome, length, slice_get, string_bytes};
ghost use Rattle.attr_union.specs.Rooms.{IsWrittenWithin};
ghost use Rattle.slp_replies.specs.TextLists.{written_next, IsAppendedFront};

use attr_union::AttrUnion;
use slp_text::NoMemory;
use std::alloc::Global;

/// Texts that can be listed.
pub trait Texts {
    ghost use Rattle.std.specs.Prelude.{ℕ, List};

    ghost texts: { Self → List (List ℕ) };

    /// How many there are.
    fn number(&self) -> usize
        ensures { result ≡ length (texts self.now) };

    /// Appends the one at a place. Where there is too little room for it with what was there, in bytes, it may be something else that
    /// is too long. Where memory runs out, a part of it may stand there.
    fn print(&self, place: usize, room: usize, out: &mut String) -> Result<(), NoMemory>
        requires { place < length (texts self.now) }
        ensures { IfOk result (λ _. IfSome (slice_get (texts self.now) place) (λ t. IsWrittenWithin room (string_bytes out.old) t (string_bytes out.new))) };
}

/// Attributes, each as it is written, in key order.
#[derive(Clone, Copy)]
pub struct AttributeTexts<'u, 'a> {
    pub alloc: Global,
    pub attributes: &'u AttrUnion<'a>,
}

impl Texts for AttributeTexts<'_, '_> {
    ghost use Rattle.directory_questions.specs.Items.{attribute_texts};

    ghost texts = { λ a. attribute_texts a.attributes.now };

    fn number(&self) -> usize {
        self.attributes.len()
    }

    fn print(&self, place: usize, room: usize, out: &mut String) -> Result<(), NoMemory> {
        self.attributes.print_one(self.alloc, place, room, out)
    }
}

// Appends the text at a place, after a comma where it is not the first, or something else where that is too long.
fn append_next<T: Texts>(
    texts: &T,
    place: usize,
    room: usize,
    out: &mut String,
) -> Result<(), NoMemory>
    requires { place < length (T.texts texts.now) }
    ensures { IfOk result (λ _. IfSome (slice_get (T.texts texts.now) place) (λ t. IsWrittenWithin room (string_bytes out.old) (written_next place t) (string_bytes out.new))) }
{
    if place > 0 {
        out.push(',')?;
    }
    texts.print(place, room, out)
}

// Appends the text at a place, after a comma where it is not the first, if the whole then has room. Whether it has; if
// not, nothing is appended.
fn add<T: Texts>(texts: &T, place: usize, room: usize, out: &mut String) -> Result<bool, NoMemory>
    requires place { place < length (T.texts texts.now) }
    requires fits { length (string_bytes out.old) ≤ room }
    ensures fits { IfOk result (λ fits. fits ≡ true → length (string_bytes out.new) ≤ room) }
    ensures listed { IfOk result (λ fits. fits ≡ true → IfSome (slice_get (T.texts texts.now) place) (λ t. string_bytes out.new ≡ string_bytes out.old ++ written_next place t)) }
    ensures stays { IfOk result (λ fits. fits ≡ false → string_bytes out.new ≡ string_bytes out.old) }
    ensures over { IfOk result (λ fits. fits ≡ false → IfSome (slice_get (T.texts texts.now) place) (λ t. room < length (string_bytes out.old ++ written_next place t))) }
{
    let before = out.len();
    append_next(texts, place, room, out)?;
    if out.len() > room {
        out.truncate(before);
        return Ok(false);
    }
    Ok(true)
}

/// Appends as many of the texts from the front, with a comma between each two, as fit into so many bytes with what is
/// there. Whether some are left out.
pub fn list<T: Texts>(texts: &T, room: usize, out: &mut String) -> Result<bool, NoMemory>
    requires { length (string_bytes out.old) ≤ room }
    ensures fits { IfOk result (λ _. length (string_bytes out.new) ≤ room) }
    ensures front { IfOk result (λ is_cut. (left : ℕ) → length (string_bytes out.old) + left ≡ room → IsAppendedFront left (T.texts texts.now) (string_bytes out.old) (string_bytes out.new) is_cut) }
{
    for place in 0..texts.number() {
        if !add(texts, place, room, out)? {
            return Ok(true);
        }
    }
    Ok(false)
}
