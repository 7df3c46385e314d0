ghost use Rattle.std.specs.Prelude.{◌≡◌, chars, IfOk};
ghost use Rattle.template_files.specs.Reading as spec;
ghost use Rattle.std.specs.List.{slice_split};
ghost use Rattle.template_files.specs.Reading.{flags_from, flags_with, is_space, no_flags, words_of};
ghost use Rattle.template_files.specs.Stops.{texts_of};

use slp_text::{Key, NoMemory};
use srv_template::ValueKind;
use std::alloc::Global;

/// The flags of a definition (RFC 2609, section 4.2.2).
#[derive(Clone, Copy, Debug)]
pub struct Flags {
    /// M: it may have more than one value.
    pub multiple: bool,
    /// O: it need not be there.
    pub optional: bool,
    /// L: its values are not translated.
    pub literal: bool,
    /// X: requests should ask for it.
    pub explicit: bool,
}

const NO_FLAGS: Flags = Flags {
    multiple: false,
    optional: false,
    literal: false,
    explicit: false,
};

pub(crate) fn kind_of(word: &str) -> Option<ValueKind>
    ensures { result ≡ spec.kind_of word.now }
{
    if word == "string" {
        Some(ValueKind::Text)
    } else if word == "integer" {
        Some(ValueKind::Integer)
    } else if word == "boolean" {
        Some(ValueKind::Boolean)
    } else if word == "opaque" {
        Some(ValueKind::Opaque)
    } else if word == "keyword" {
        Some(ValueKind::Keyword)
    } else {
        None
    }
}

impl Flags {
    // With one flag more, which is not there yet.
    fn with(self, word: &str) -> Option<Flags>
        ensures { result ≡ flags_with self word.now }
    {
        if word == "m" {
            (!self.multiple).then_some(Flags {
                multiple: true,
                ..self
            })
        } else if word == "o" {
            (!self.optional).then_some(Flags {
                optional: true,
                ..self
            })
        } else if word == "l" {
            (!self.literal).then_some(Flags {
                literal: true,
                ..self
            })
        } else if word == "x" {
            (!self.explicit).then_some(Flags {
                explicit: true,
                ..self
            })
        } else {
            None
        }
    }
}

pub(crate) fn flags_of(words: &[&str]) -> Option<Flags>
    ensures { result ≡ flags_from no_flags (texts_of words.now) }
{
    let mut flags = NO_FLAGS;
    for word in words {
        flags = flags.with(word)?;
    }
    Some(flags)
}

fn kind_and_flags(words: &[&str]) -> Option<(ValueKind, Flags)>
    ensures { result ≡ spec.kind_and_flags (texts_of words.now) }
{
    let (first, rest) = words.split_first()?;
    let kind = kind_of(first)?;
    let flags = flags_of(rest)?;
    Some((kind, flags))
}

/// The words of a text, with a SPACE between each two.
pub(crate) fn split_words<'a>(alloc: Global, text: &'a str) -> Result<Vec<&'a str>, NoMemory>
    ensures { IfOk result (λ v. texts_of v.items ≡ slice_split is_space text.now) }
{
    let words: Vec<&str> = text.split(' ').collect(alloc)?;
    Ok(words)
}

/// The kind and the flags that a text names, in whatever case, with white space between them.
pub fn read_words(alloc: Global, text: &str) -> Result<Option<(ValueKind, Flags)>, NoMemory>
    ensures { IfOk result (λ o. o ≡ spec.kind_and_flags (words_of (chars text.now))) }
{
    let folded = Key::of(alloc, text)?;
    let words = split_words(alloc, folded.as_str())?;
    Ok(kind_and_flags(&words))
}
