//! What all replies share: a code, and nothing that is kept after one that is not 0 (RFC 2608, section 7).
ghost use Rattle.std.specs.Prelude.{◌≡◌, ◌++◌};
ghost use Rattle.std.specs.List.{AllByRecursion};
ghost use Rattle.byteorder.specs.Endian.{big_bytes};
ghost use Rattle.slp_messages.specs.Fields.{IsRefusal};
ghost use Rattle.slp_fields.specs.Steps.{Gives};
ghost use Rattle.slp_fields.specs.Writing.{fields_bytes, IsField};
ghost use Rattle.slp_bodies.specs.Replies.{rest_at};

use slp_fields::{Field, WireFault, skip_fields};
use slp_messages::{ErrorCode, Kind};

/// What stands after an error code is read for its faults alone. So many bytes at the end are not part of it.
#[tactic(auto, unfolding(crate::specs::Replies::rest_at))]
pub(crate) fn after_code<'a>(
    kinds: &[Kind],
    tail: usize,
    bytes: &'a [u8],
) -> Result<&'a [u8], WireFault>
    ensures { Gives (λ x. x.now) result (rest_at kinds.now tail bytes.now) }
{
    if bytes.len() == tail {
        return Ok(bytes);
    }
    skip_fields(kinds, bytes)
}

/// The fields of a reply that ends with its code.
pub fn refusal_fields(code: &ErrorCode) -> [Field<'static>; 1]
    ensures bytes { fields_bytes result ≡ big_bytes 2 code.now }
    ensures sound { AllByRecursion IsField result → IsRefusal code.now }
{
    [Field::Number(code.get())]
}
