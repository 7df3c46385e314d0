use slp_messages::{Authority, UrlEntry};
use slp_text::Text;

/// A field of a body, lent by the message that is written (RFC 2608, sections 4.3, 8 and 9).
#[derive(Clone, Copy)]
pub enum Field<'a> {
    /// A number of two bytes.
    Number(u16),
    /// A number of four bytes.
    Long(u32),
    Text(&'a Text),
    Entry(&'a UrlEntry),
    /// A count, and so many URL entries.
    Entries(&'a [UrlEntry]),
    Authority(&'a Authority),
    /// A count of authentication blocks, of which there are none.
    NoBlock,
    /// A security parameter index, whose name is empty.
    NoIndex,
}
