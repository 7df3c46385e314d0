ghost use Rattle.std.specs.Prelude.{◌≡◌, ◌≤◌, ◌+◌, ◌∷◌, ◌++◌, length, take, if◌then◌else◌};
ghost use Rattle.byteorder.specs.Endian.{big_bytes};
ghost use Rattle.slp_headers.specs.Headers.{reply_function_of, refusal_bytes};
ghost use Rattle.slp_headers.specs.declared.flag.TheConstants.{OVERFLOW};

use crate::beginning::opening;
use crate::view::HeaderView;
use crate::{flag, offset};
use slp_messages::function;

/// The function of the reply to a request of this function.
pub fn reply_function(function: u8) -> Option<u8>
    ensures { result ≡ reply_function_of function }
{
    match function {
        function::SERVICE_REQUEST => Some(function::SERVICE_REPLY),
        function::REGISTRATION | function::WITHDRAWAL => Some(function::ACKNOWLEDGEMENT),
        function::ATTRIBUTE_REQUEST => Some(function::ATTRIBUTE_REPLY),
        function::TYPE_REQUEST => Some(function::TYPE_REPLY),
        _ => None,
    }
}

/// The bytes of a reply's header in front of its tag, of so many bytes in all: XID and tag are those of the request, and
/// OVERFLOW says whether the reply is cut.
pub fn reply_opening(header: &HeaderView<'_>, function: u8, total: usize, is_cut: bool) -> [u8; 14]
    ensures { result ≡ 2 ∷ function ∷ big_bytes 3 total ++ big_bytes 2 (if is_cut then OVERFLOW else 0) ++ big_bytes 3 0 ++ big_bytes 2 header.now.xid ++ big_bytes 2 (length header.now.language.now) }
{
    let flags = if is_cut { flag::OVERFLOW } else { 0 };
    opening(function, total, flags, header.xid, header.language.len())
}

// Writes a part at a place, and answers the place after it.
fn put(reply: &mut [u8; 80], at: usize, part: &[u8]) -> usize
    requires { at + length part.now ≤ 80 }
    ensures bytes { take result reply.new ≡ take at reply.old ++ part.now }
    ensures end { result ≡ at + length part.now }
{
    let end = at + part.len();
    reply[at..end].copy_from_slice(part);
    end
}

/// Writes a reply of this function that ends with its code, with the XID and the tag of a request,
/// and answers how many bytes it has.
pub fn error_reply(header: &HeaderView<'_>, function: u8, code: u16, reply: &mut [u8; 80]) -> usize
    ensures bytes { take result reply.new ≡ refusal_bytes function code header.now.xid header.now.language.now }
    ensures length { result ≡ 16 + length header.now.language.now }
    ensures room { result ≤ 80 }
{
    let tag = header.language.as_bytes();
    let total = offset::TAG + tag.len() + 2;
    let fixed = reply_opening(header, function, total, false);
    let end = put(reply, 0, &fixed);
    let end = put(reply, end, tag);
    put(reply, end, &code.to_be_bytes())
}
