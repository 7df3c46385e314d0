//! The functions of messages, by their numbers (RFC 2608, section 8).
ghost use Rattle.std.specs.Prelude.{◌≡◌};
ghost use Rattle.slp_messages.specs.declared.function.TheConstants as function;

/// SrvRqst: which services are there?
pub const SERVICE_REQUEST: u8 = 1;
/// SrvRply: these services are there.
pub const SERVICE_REPLY: u8 = 2;
/// SrvReg: a service is there.
pub const REGISTRATION: u8 = 3;
/// SrvDeReg: a service, or some of its attributes, are there no longer.
pub const WITHDRAWAL: u8 = 4;
/// SrvAck: what came of a registration or a withdrawal.
pub const ACKNOWLEDGEMENT: u8 = 5;
/// AttrRqst: which attributes do services have?
pub const ATTRIBUTE_REQUEST: u8 = 6;
/// AttrRply: they have these attributes.
pub const ATTRIBUTE_REPLY: u8 = 7;
/// DAAdvert: a directory agent is there.
pub const DIRECTORY_ADVERT: u8 = 8;
/// SrvTypeRqst: which types of service are there?
pub const TYPE_REQUEST: u8 = 9;
/// SrvTypeRply: these types are there.
pub const TYPE_REPLY: u8 = 10;
/// SAAdvert: a service agent is there.
pub const SERVICE_ADVERT: u8 = 11;

/// A law: no constant above can be another number than the protocol's.
pub fn functions_are_numbered()
    ensures { (function.SERVICE_REQUEST ≡ 1) × (function.SERVICE_REPLY ≡ 2) × (function.REGISTRATION ≡ 3) × (function.WITHDRAWAL ≡ 4)
        × (function.ACKNOWLEDGEMENT ≡ 5) × (function.ATTRIBUTE_REQUEST ≡ 6) × (function.ATTRIBUTE_REPLY ≡ 7) × (function.DIRECTORY_ADVERT ≡ 8)
        × (function.TYPE_REQUEST ≡ 9) × (function.TYPE_REPLY ≡ 10) × (function.SERVICE_ADVERT ≡ 11) }
{}
