//! The text of an asker's address, with what stands behind it in a line.
ghost use Rattle.std.specs.Prelude.{◌≡◌, ℕ, ◌+◌, ◌<◌, ◌≤◌, ◌++◌, ◌∷◌, [], codes, take};
ghost use Rattle.std.specs.Fmt.{decimal};
ghost use Rattle.addresses.specs.Addresses.{address_text};
ghost use Rattle.slp_text.specs.Ascii.{dot};

use addresses::Addr;

// ---- each function below writes at a place of the text, and returns where it ends

#[inline(always)]
fn put_byte(text: &mut [u8; 24], at: usize, byte: u8) -> usize
    requires { at < 16 }
    ensures text { take result text.new ≡ take at text.old ++ byte ∷ [] }
    ensures end { result ≡ at + 1 }
{
    text[at] = byte;
    at + 1
}

#[inline(always)]
fn put_digit(text: &mut [u8; 24], at: usize, digit: u32) -> usize
    requires room { at < 16 }
    requires digit { digit < 10 }
    ensures text { take result text.new ≡ take at text.old ++ decimal digit }
    ensures end { result ≡ at + 1 }
{
    put_byte(text, at, b'0' + digit as u8)
}

// A number of at most two digits, with no digit more than it has.
#[inline(always)]
fn put_small(text: &mut [u8; 24], at: usize, number: u32) -> usize
    requires room { at < 15 }
    requires number { number < 100 }
    ensures text { take result text.new ≡ take at text.old ++ decimal number }
    ensures end { result ≤ at + 2 }
{
    if number < 10 {
        return put_digit(text, at, number);
    }
    let at = put_digit(text, at, number / 10);
    put_digit(text, at, number % 10)
}

// A number of at most three.
#[inline(always)]
fn put_octet(text: &mut [u8; 24], at: usize, octet: u32) -> usize
    requires room { at < 14 }
    requires octet { octet < 256 }
    ensures text { take result text.new ≡ take at text.old ++ decimal octet }
    ensures end { result ≤ at + 3 }
{
    if octet < 100 {
        return put_small(text, at, octet);
    }
    let at = put_small(text, at, octet / 10);
    put_digit(text, at, octet % 10)
}

// With a dot before it.
#[inline(always)]
fn put_next(text: &mut [u8; 24], at: usize, octet: u32) -> usize
    requires room { at < 13 }
    requires octet { octet < 256 }
    ensures text { take result text.new ≡ take at text.old ++ dot ∷ decimal octet }
    ensures end { result ≤ at + 4 }
{
    let at = put_byte(text, at, b'.');
    put_octet(text, at, octet)
}

// The text of an address.
fn put_address(text: &mut [u8; 24], address: Addr) -> usize
    ensures text { take result text.new ≡ address_text address }
    ensures end { result ≤ 15 }
{
    let number = address.0;
    let first = put_octet(text, 0, number / 16_777_216);
    let second = put_next(text, first, number / 65_536 % 256);
    let third = put_next(text, second, number / 256 % 256);
    put_next(text, third, number % 256)
}

/// The text of an address, what stands before the type in a line, and how long both are.
pub(crate) fn asker_bytes(address: Addr) -> ([u8; 24], usize)
    ensures text { take result.1 result.0 ≡ address_text address ++ codes " type=" }
    ensures end { result.1 ≤ 24 }
{
    let mut text = [0; 24];
    let end = put_address(&mut text, address);
    text[end..end + 6].copy_from_slice(b" type=");
    (text, end + 6)
}
