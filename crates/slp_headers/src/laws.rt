//! The numbers that the protocol gives. The functions do nothing: their contracts are the laws, so that
//! no constant beside them can be another number.
ghost use Rattle.std.specs.Prelude.{◌≡◌};
ghost use Rattle.slp_headers.specs.declared.beginning.TheConstants as fixed;
ghost use Rattle.slp_headers.specs.declared.flag.TheConstants as flag;
ghost use Rattle.slp_headers.specs.declared.offset.TheConstants as offset;

/// The version, and the bits of the flags (RFC 2608, section 8).
pub fn flags_are_numbered()
    ensures { (fixed.VERSION ≡ 2) × (flag.OVERFLOW ≡ 0x8000) × (flag.FRESH ≡ 0x4000) × (flag.MULTICAST ≡ 0x2000) }
{}

/// Where the parts of a header begin (RFC 2608, section 8).
pub fn offsets_are_numbered()
    ensures { (offset.VERSION ≡ 0) × (offset.FUNCTION ≡ 1) × (offset.LENGTH ≡ 2) × (offset.FLAGS ≡ 5)
        × (offset.EXTENSION ≡ 7) × (offset.XID ≡ 10) × (offset.TAG_LENGTH ≡ 12) × (offset.TAG ≡ 14) }
{}
