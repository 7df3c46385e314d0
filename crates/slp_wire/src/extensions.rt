//! Extensions after the body of a message: each is skipped, or has to be understood and is refused.
ghost use Rattle.std.specs.Prelude.{◌≡◌, ◌<◌, ◌+◌, ◌-◌, ◌^◌, drop, length, IfOk, IfSome};
ghost use Rattle.std.specs.Option.{option_map};
ghost use Rattle.slp_wire.specs.Extensions.{next_at, extensions_at};
ghost use Rattle.slp_fields.specs.Steps.{Gives};

use byteorder::{BigEndian, ByteOrder};
use slp_fields::WireFault;

// The bytes of an extension, but for its data.
const SHORTEST: usize = 5;

// The offset of the next extension, if one follows, and the bytes from there on.
fn next_of(at: usize, bytes: &[u8]) -> Result<Option<(usize, &[u8])>, WireFault>
    requires { at + length bytes.now < 2 ^ 32 }
    ensures value { Gives (option_map (λ p. p.0)) result (next_at at bytes.now) }
    ensures rest { IfOk result (λ o. IfSome o (λ p. p.1.now ≡ drop (p.0 - at) bytes.now)) }
    ensures within { IfOk result (λ o. IfSome o (λ p. p.0 + length p.1.now ≡ at + length bytes.now)) }
{
    if bytes.len() < SHORTEST {
        return Err(WireFault::Parse);
    }
    let id = BigEndian::read_u16(bytes);
    if (0x4000..=0x7fff).contains(&id) {
        return Err(WireFault::Option);
    }
    let next = BigEndian::read_u24(&bytes[2..]) as usize;
    if next == 0 {
        return Ok(None);
    }
    if next < at + SHORTEST || at + bytes.len() < next + SHORTEST {
        return Err(WireFault::Parse);
    }
    Ok(Some((next, &bytes[next - at..])))
}

/// Goes through the extensions of a message from an offset of it to its end (RFC 2608, section 9.1).
pub fn skip_extensions(begin: usize, bytes: &[u8]) -> Result<(), WireFault>
    requires { begin + length bytes.now < 2 ^ 32 }
    ensures { Gives (λ x. x) result (extensions_at (length bytes.now) begin bytes.now) }
{
    let mut at = begin;
    let mut rest = bytes;
    for _ in 0..bytes.len() {
        match next_of(at, rest)? {
            None => return Ok(()),
            Some((next, after)) => {
                rest = after;
                at = next;
            }
        }
    }
    Err(WireFault::Parse)
}
