ghost use Rattle.std.specs.Prelude.{◌≡◌, ◌<◌, slice_get, string_bytes, IfOk, IfSome};
ghost use Rattle.std.specs.FinMap as fin;
ghost use Rattle.attr_list.specs.Texts.{attribute_text};
ghost use Rattle.attr_union.specs.Rooms.{IsWrittenWithin};
ghost use Rattle.attr_union.specs.Unions.{union_of, IsUnion};

use crate::gathering::Joined;
use crate::writing::append_attribute;
use slp_text::NoMemory;
use std::alloc::Global;
use std::marker::Model;

/// Attributes of several lists, joined as the elements of one list are, which contracts see as a finite map. Their
/// values are lent.
pub struct AttrUnion<'a> {
    tags: Vec<Joined<'a>>,
}

impl<'a> Drop for AttrUnion<'a> {
    fn drop(self) {
        let AttrUnion { tags: _ } = self;
    }
}

impl<'a> Model for AttrUnion<'a> {
    ghost use Rattle.attr_list.specs.Codes.{attributes_code};
    ghost use Rattle.attr_list.specs.Lists.{Attributes};
    ghost use Rattle.attr_union.specs.Unions.{union_of, IsUnion};

    ghost Value = { Attributes };

    ghost coded = { attributes_code };

    ghost view = { λ a. union_of a.tags.items };

    ghost invariant = { λ a. IsUnion a.tags.items };
}

impl<'a> AttrUnion<'a> {
    // Tags in key order, each once.
    pub(crate) fn of(tags: Vec<Joined<'a>>) -> AttrUnion<'a>
        requires { IsUnion tags.items }
        ensures { result ≡ union_of tags.entry.items }
    {
        AttrUnion { tags }
    }

    /// How many tags there are. Takes no memory.
    pub fn len(&self) -> usize
        ensures { result ≡ fin.len self.now }
    {
        self.tags.len()
    }

    /// Appends the attribute at a place below the length, counted from 0 in key order, each of its values once. Where there is too little
    /// room for it with what was there, in bytes, it may be something else that is too long; no more is joined than makes this clear. Where
    /// memory runs out, a part of it may stand there.
    pub fn print_one(
        &self,
        alloc: Global,
        place: usize,
        room: usize,
        out: &mut String,
    ) -> Result<(), NoMemory>
        requires { place < fin.len self.now }
        ensures { IfOk result (λ _. IfSome (slice_get (fin.entries self.now) place) (λ p. IsWrittenWithin room (string_bytes out.old) (attribute_text p.0 p.1) (string_bytes out.new))) }
    {
        let Some(joined) = self.tags.get(place) else {
            unreachable!()
        };
        append_attribute(alloc, &joined.tag, &joined.values, room, out)
    }
}
