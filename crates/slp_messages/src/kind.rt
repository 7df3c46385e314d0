/// The kinds of fields that a body has (RFC 2608, sections 4, 8 and 9).
#[derive(Clone, Copy)]
pub enum Kind {
    /// A number of two bytes.
    Number,
    /// A number of four bytes.
    Long,
    /// A length of two bytes, and so many bytes of UTF-8.
    Text,
    /// A URL entry.
    Entry,
    /// A count of two bytes, and so many URL entries.
    Entries,
    /// A naming authority: a text, or the greatest length, which stands for all.
    Authority,
    /// A count of authentication blocks, of which there are none.
    NoBlock,
    /// A security parameter index, whose name is empty.
    NoIndex,
}
