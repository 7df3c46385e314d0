//! The codes of replies, by their numbers (RFC 2608, section 7).
ghost use Rattle.std.specs.Prelude.{◌≡◌};
ghost use Rattle.slp_messages.specs.declared.code.TheConstants as code;

/// Nothing speaks against it.
pub const OK: u16 = 0;
/// There is something to answer, and nothing in the language of the request.
pub const LANGUAGE_NOT_SUPPORTED: u16 = 1;
/// The message is malformed.
pub const PARSE_ERROR: u16 = 2;
/// The registration names no type, no URL, no language or no lifetime.
pub const INVALID_REGISTRATION: u16 = 3;
/// No scope of the message is supported, or a rule forbids it there.
pub const SCOPE_NOT_SUPPORTED: u16 = 4;
/// Authentication is asked for, and is not understood.
pub const AUTHENTICATION_UNKNOWN: u16 = 5;
/// The message is of another version of the protocol.
pub const VERSION_NOT_SUPPORTED: u16 = 9;
/// The agent found no memory.
pub const INTERNAL_ERROR: u16 = 10;
/// The registry is full.
pub const DIRECTORY_BUSY: u16 = 11;
/// An extension has to be understood, and is not.
pub const OPTION_NOT_UNDERSTOOD: u16 = 12;
/// An update does not fit what is registered.
pub const INVALID_UPDATE: u16 = 13;

/// A law: no constant above can be another number than the protocol's.
pub fn codes_are_numbered()
    ensures { (code.OK ≡ 0) × (code.LANGUAGE_NOT_SUPPORTED ≡ 1) × (code.PARSE_ERROR ≡ 2) × (code.INVALID_REGISTRATION ≡ 3)
        × (code.SCOPE_NOT_SUPPORTED ≡ 4) × (code.AUTHENTICATION_UNKNOWN ≡ 5) × (code.VERSION_NOT_SUPPORTED ≡ 9) × (code.INTERNAL_ERROR ≡ 10)
        × (code.DIRECTORY_BUSY ≡ 11) × (code.OPTION_NOT_UNDERSTOOD ≡ 12) × (code.INVALID_UPDATE ≡ 13) }
{}
