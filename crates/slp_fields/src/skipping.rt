//! Fields that are read for their faults alone. Nothing here takes memory.
ghost use Rattle.std.specs.Prelude.{◌≡◌};
ghost use Rattle.slp_fields.specs.Reading.{entry_at, entries_at, listing_at, authority_at, rest_of_reading, rest_of_field_at, rest_of_fields_at};
ghost use Rattle.slp_fields.specs.Steps.{Gives};

use crate::fault::WireFault;
use crate::reading::{ALL, after_no_block, after_no_index, byte_of, long_of, number_of, str_of};
use slp_messages::Kind;

#[tactic(auto, unfolding(crate::specs::Reading::entry_at))]
fn skip_entry(bytes: &[u8]) -> Result<&[u8], WireFault>
    ensures { Gives (λ x. x.now) result (rest_of_reading (entry_at bytes.now)) }
{
    let (_, rest) = byte_of(bytes)?;
    let (_, rest) = number_of(rest)?;
    let (_, rest) = str_of(rest)?;
    after_no_block(rest)
}

fn skip_entries(count: u16, bytes: &[u8]) -> Result<&[u8], WireFault>
    ensures { Gives (λ x. x.now) result (rest_of_reading (entries_at count bytes.now)) }
{
    let mut rest = bytes;
    for _ in 0..count {
        rest = skip_entry(rest)?;
    }
    Ok(rest)
}

#[tactic(auto, unfolding(crate::specs::Reading::listing_at))]
fn skip_listing(bytes: &[u8]) -> Result<&[u8], WireFault>
    ensures { Gives (λ x. x.now) result (rest_of_reading (listing_at bytes.now)) }
{
    let (count, rest) = number_of(bytes)?;
    skip_entries(count, rest)
}

#[tactic(auto, unfolding(crate::specs::Reading::authority_at))]
fn skip_authority(bytes: &[u8]) -> Result<&[u8], WireFault>
    ensures { Gives (λ x. x.now) result (rest_of_reading (authority_at bytes.now)) }
{
    let (length, rest) = number_of(bytes)?;
    if length == ALL {
        return Ok(rest);
    }
    let (_, rest) = str_of(bytes)?;
    Ok(rest)
}

fn skip_field(kind: Kind, bytes: &[u8]) -> Result<&[u8], WireFault>
    ensures { Gives (λ x. x.now) result (rest_of_field_at kind bytes.now) }
{
    match kind {
        Kind::Number => {
            let (_, rest) = number_of(bytes)?;
            Ok(rest)
        }
        Kind::Long => {
            let (_, rest) = long_of(bytes)?;
            Ok(rest)
        }
        Kind::Text => {
            let (_, rest) = str_of(bytes)?;
            Ok(rest)
        }
        Kind::Entry => skip_entry(bytes),
        Kind::Entries => skip_listing(bytes),
        Kind::Authority => skip_authority(bytes),
        Kind::NoBlock => after_no_block(bytes),
        Kind::NoIndex => after_no_index(bytes),
    }
}

/// The bytes after fields of these kinds, whose values are not kept.
pub fn skip_fields<'a>(kinds: &[Kind], bytes: &'a [u8]) -> Result<&'a [u8], WireFault>
    ensures { Gives (λ x. x.now) result (rest_of_fields_at kinds.now bytes.now) }
{
    let mut rest = bytes;
    for kind in kinds {
        rest = skip_field(*kind, rest)?;
    }
    Ok(rest)
}
