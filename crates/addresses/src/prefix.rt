ghost use Rattle.std.specs.Prelude.{◌≡◌};
ghost use Rattle.addresses.specs.Addresses as spec;
ghost use Rattle.addresses.specs.Addresses.{bits_of, prefix_of};

use crate::address::{Addr, number};
use slp_text::cut;

/// The addresses whose first bits are these, as in `10.0.0.0/8`.
#[derive(Clone, Copy, Debug)]
pub struct Prefix {
    pub addr: Addr,
    /// 0 to 32. A prefix of more bits holds no address.
    pub bits: u8,
}

// How many bits digits are: 0 to 32.
fn bits(digits: &[u8]) -> Option<u8>
    ensures { result ≡ bits_of digits.now }
{
    let value = number(digits)?;
    if value > 32 {
        return None;
    }
    Some(value as u8)
}

impl Prefix {
    /// The prefix that a text is: an address and a decimal number of at most 32, with a slash between
    /// them. Takes no memory.
    #[tactic(auto, using(crate::proofs::Addresses::no_slash, crate::proofs::Addresses::no_prefix, crate::proofs::Addresses::no_bits, crate::proofs::Addresses::address_and_bits))]
    pub fn parse(text: &[u8]) -> Option<Prefix>
        ensures { result ≡ prefix_of text.now }
    {
        let (host, digits) = cut(text, b'/')?;
        Some(Prefix {
            addr: Addr::parse(host)?,
            bits: bits(digits)?,
        })
    }

    /// Whether an address is one of these. Takes no memory.
    pub fn holds(&self, addr: Addr) -> bool
        ensures { result ≡ spec.has_address self.now addr }
    {
        if self.bits > 32 {
            return false;
        }
        let ignored = 32 - u32::from(self.bits);
        u64::from(self.addr.0) >> ignored == u64::from(addr.0) >> ignored
    }
}
