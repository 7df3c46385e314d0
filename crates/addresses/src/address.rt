ghost use Rattle.std.specs.Prelude.{◌≡◌, ◌<◌, [], ◌∷◌, IfSome};
ghost use Rattle.addresses.specs.Addresses.{number_of, octet_of, address_in, address_of, port_of, socket_of};

use slp_text::cut;
use std::fmt;
use std::marker::Model;

/// An address of IPv4, its first byte the highest. Contracts see the number.
#[derive(Clone, Copy, Debug, PartialEq, Eq)]
pub struct Addr(pub u32);

impl Model for Addr {
    ghost use Rattle.std.specs.Prelude.{ℕ};

    ghost Value = { ℕ };

    ghost view = { λ a. a.0 };

    ghost inverse = { λ n. record { 0 = n } };
}

/// The number that decimal digits are, below 2^32.
pub fn number(digits: &[u8]) -> Option<u32>
    ensures { result ≡ number_of digits.now }
{
    if digits.is_empty() {
        return None;
    }
    let mut value = 0u32;
    for x in digits {
        if *x < b'0' || *x > b'9' {
            return None;
        }
        let next = u64::from(value) * 10 + u64::from(*x - b'0');
        if next >= 1 << 32 {
            return None;
        }
        value = next as u32;
    }
    Some(value)
}

fn octet(digits: &[u8]) -> Option<u32>
    ensures value { result ≡ octet_of digits.now }
    ensures small { IfSome result (λ n. n < 256) }
{
    let value = number(digits)?;
    if value > 255 {
        return None;
    }
    Some(value)
}

// The address of four octets, the first of them the highest.
fn joined(a: &[u8], b: &[u8], c: &[u8], d: &[u8]) -> Option<u32>
    ensures { result ≡ address_in (octet_of a.now ∷ octet_of b.now ∷ octet_of c.now ∷ octet_of d.now ∷ []) }
{
    let high = octet(a)? * 256 + octet(b)?;
    let low = octet(c)? * 256 + octet(d)?;
    Some(high * 65536 + low)
}

// The address that four octets are, with a dot between each two.
fn address(text: &[u8]) -> Option<u32>
    ensures { result ≡ address_of text.now }
{
    let (a, rest) = cut(text, b'.')?;
    let (b, rest) = cut(rest, b'.')?;
    let (c, d) = cut(rest, b'.')?;
    joined(a, b, c, d)
}

// The port that digits are: 1 to 65535.
fn port(digits: &[u8]) -> Option<u16>
    ensures { result ≡ port_of digits.now }
{
    let value = number(digits)?;
    if value == 0 || value > 65_535 {
        return None;
    }
    Some(value as u16)
}

impl Addr {
    /// The address that a text is: four decimal numbers of at most 255 with dots between them; leading
    /// zeros are allowed. Takes no memory.
    pub fn parse(text: &[u8]) -> Option<Addr>
        ensures { result ≡ address_of text.now }
    {
        Some(Addr(address(text)?))
    }

    /// The address and the port, 1 to 65535, that a text is, with a colon between them. Takes no memory.
    #[tactic(auto, using(crate::proofs::Addresses::no_colon, crate::proofs::Addresses::no_address, crate::proofs::Addresses::no_port, crate::proofs::Addresses::address_and_port))]
    pub fn parse_with_port(text: &[u8]) -> Option<(Addr, u16)>
        ensures { result ≡ socket_of text.now }
    {
        let (host, digits) = cut(text, b':')?;
        Some((Addr::parse(host)?, port(digits)?))
    }
}

impl fmt::Display for Addr {
    ghost use Rattle.std.specs.Prelude.{Some};
    ghost use Rattle.addresses.specs.Addresses.{address_text};

    ghost output = { λ a. Some (address_text a) };

    fn fmt<W: fmt::Write>(&self, f: &mut fmt::Formatter<W>) -> fmt::Result {
        let number = self.0;
        let (first, second) = (number / 16_777_216, number / 65_536 % 256);
        let (third, fourth) = (number / 256 % 256, number % 256);
        write!(f, "{first}.{second}.{third}.{fourth}")
    }
}
