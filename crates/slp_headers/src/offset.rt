//! Where the parts of a header begin, in bytes from the message's first (RFC 2608, section 8).

/// The version, of one byte.
pub const VERSION: usize = 0;
/// The function, of one byte.
pub const FUNCTION: usize = 1;
/// The length of the whole message in bytes, of three bytes.
pub const LENGTH: usize = 2;
/// The flags, of two bytes.
pub const FLAGS: usize = 5;
/// The offset of the first extension, of three bytes.
pub const EXTENSION: usize = 7;
/// The number by which a reply is matched to its request, of two bytes.
pub const XID: usize = 10;
/// The length of the language tag, of two bytes.
pub const TAG_LENGTH: usize = 12;
/// The language tag. After it the body begins.
pub const TAG: usize = 14;
