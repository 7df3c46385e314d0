ghost use Rattle.std.specs.Prelude.{◌≡◌, IfOk};
ghost use Rattle.slp_messages.specs.Tags.{IsTag};

use slp_text::{NoMemory, Text};
use std::alloc::Global;
use std::marker::Model;

/// The flags that are known (RFC 2608, section 8). The reserved ones are ignored, and written as 0.
#[derive(Clone, Copy)]
pub struct Flags {
    /// The reply was cut to what fits.
    pub overflow: bool,
    /// The registration is a new one and no update.
    pub fresh: bool,
    /// The request was sent to many.
    pub multicast: bool,
}

/// A language tag of at most 64 printable characters of ASCII, as it was written. Contracts see its bytes.
pub struct Tag {
    text: Text,
}

impl Drop for Tag {
    #[inline(always)]
    fn drop(self) {
        let Tag { text: _ } = self;
    }
}

impl Model for Tag {
    ghost use Rattle.std.specs.Prelude.{List, ℕ};
    ghost use Rattle.slp_messages.specs.Tags.{IsTag};

    ghost Value = { List ℕ };

    ghost view = { λ a. a.text };

    ghost invariant = { λ a. IsTag a.text };
}

impl Tag {
    ghost use Rattle.slp_messages.specs.Tags.{IsTag};

    /// The characters of a tag.
    pub const LONGEST: usize = 64;

    /// The tag of a readable text, which is copied (RFC 2608, section 8).
    pub fn new(alloc: Global, text: &str) -> Result<Tag, NoMemory>
        requires { IsTag text.now }
        ensures { IfOk result (λ t. t ≡ text.now) }
    {
        let text = Text::wrap(String::from_str(alloc, text)?);
        Ok(Tag { text })
    }

    /// The text of the tag.
    pub fn as_str(&self) -> &str
        ensures value { result.now ≡ self.now }
        ensures readable { IsTag self.now }
    {
        self.text.as_str()
    }

    /// An equal tag.
    pub fn copy(&self, alloc: Global) -> Result<Tag, NoMemory>
        ensures { IfOk result (λ t. t ≡ self.now) }
    {
        let text = self.text.copy(alloc)?;
        Ok(Tag { text })
    }
}

/// What a message keeps of its header.
pub struct Header {
    pub flags: Flags,
    /// The number by which a reply is matched to its request.
    pub xid: u16,
    pub language: Tag,
}

impl Drop for Header {
    #[inline(always)]
    fn drop(self) {
        let Header {
            flags: _,
            xid: _,
            language: _,
        } = self;
    }
}
