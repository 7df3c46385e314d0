ghost use Rattle.std.specs.Prelude.{◌≡◌, ◌∷◌, ◌++◌};
ghost use Rattle.byteorder.specs.Endian.{big_bytes};

/// The version of the protocol that is spoken.
pub const VERSION: u8 = 2;

/// The two low bytes of a number, the high one first.
pub fn two_bytes(number: usize) -> [u8; 2]
    ensures { result ≡ big_bytes 2 number }
{
    let [.., high, low] = number.to_be_bytes();
    [high, low]
}

/// The bytes of a header in front of its tag: version 2, and no extension.
pub fn opening(function: u8, length: usize, flags: u16, xid: u16, tag_length: usize) -> [u8; 14]
    ensures { result ≡ 2 ∷ function ∷ big_bytes 3 length ++ big_bytes 2 flags ++ big_bytes 3 0 ++ big_bytes 2 xid ++ big_bytes 2 tag_length }
{
    let [.., high, middle, low] = length.to_be_bytes();
    let [first_flags, last_flags] = flags.to_be_bytes();
    let [high_xid, low_xid] = xid.to_be_bytes();
    let [high_tag, low_tag] = two_bytes(tag_length);
    [
        VERSION,
        function,
        high,
        middle,
        low,
        first_flags,
        last_flags,
        0,
        0,
        0,
        high_xid,
        low_xid,
        high_tag,
        low_tag,
    ]
}
