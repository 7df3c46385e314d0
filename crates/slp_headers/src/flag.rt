//! The bits of a header's flags that are known (RFC 2608, section 8).

/// The reply was cut to what fits.
pub const OVERFLOW: u16 = 0x8000;
/// The registration is a new one and no update.
pub const FRESH: u16 = 0x4000;
/// The request was sent to many.
pub const MULTICAST: u16 = 0x2000;
