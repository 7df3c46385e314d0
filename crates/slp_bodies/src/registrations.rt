//! SrvReg and SrvDeReg, functions 3 and 4 (RFC 2608, sections 8.3 and 10.6).
ghost use Rattle.std.specs.Prelude.{◌≡◌};
ghost use Rattle.std.specs.List.{AllByRecursion};
ghost use Rattle.slp_messages.specs.Layouts as layout;
ghost use Rattle.slp_messages.specs.Layouts.{FitsLayout};
ghost use Rattle.slp_messages.specs.Views.{registration_in, withdrawal_in};
ghost use Rattle.slp_fields.specs.Spelling.{layout_bytes};
ghost use Rattle.slp_fields.specs.Steps.{Gives};
ghost use Rattle.slp_fields.specs.Writing.{fields_bytes, IsField};
ghost use Rattle.slp_bodies.specs.Bodies.{registration_at, withdrawal_at};

use slp_fields::{Field, WireFault, after_no_block, entry_view_of, str_of};
use slp_messages::{Registration, RegistrationView, Withdrawal, WithdrawalView};
use std::alloc::Global;

/// Reads a registration without a copy.
// A call in the machine's code as well: inlined, the pieces of its answer are moved again and again.
#[inline(never)]
#[tactic(auto, unfolding(crate::specs::Bodies::registration_at))]
pub fn registration_view_of(bytes: &[u8]) -> Result<(RegistrationView<'_>, &[u8]), WireFault>
    ensures { Gives (λ x. (registration_in x.0, x.1.now)) result (registration_at bytes.now) }
{
    let (entry, rest) = entry_view_of(bytes)?;
    let (kind, rest) = str_of(rest)?;
    let (scopes, rest) = str_of(rest)?;
    let (attributes, rest) = str_of(rest)?;
    let rest = after_no_block(rest)?;
    let view = RegistrationView {
        entry,
        kind,
        scopes,
        attributes,
    };
    Ok((view, rest))
}

/// Reads a registration.
pub fn registration_of(alloc: Global, bytes: &[u8]) -> Result<(Registration, &[u8]), WireFault>
    ensures { Gives (λ x. (x.0, x.1.now)) result (registration_at bytes.now) }
{
    let (view, rest) = registration_view_of(bytes)?;
    Ok((view.copy(alloc)?, rest))
}

/// The fields of a registration.
pub fn registration_fields(registration: &Registration) -> [Field<'_>; 5]
    ensures bytes { fields_bytes result ≡ layout_bytes layout.registration registration.now }
    ensures sound { AllByRecursion IsField result → FitsLayout layout.registration registration.now }
{
    [
        Field::Entry(&registration.entry),
        Field::Text(&registration.kind),
        Field::Text(&registration.scopes),
        Field::Text(&registration.attributes),
        Field::NoBlock,
    ]
}

/// Reads a withdrawal without a copy.
#[tactic(auto, unfolding(crate::specs::Bodies::withdrawal_at))]
pub fn withdrawal_view_of(bytes: &[u8]) -> Result<(WithdrawalView<'_>, &[u8]), WireFault>
    ensures { Gives (λ x. (withdrawal_in x.0, x.1.now)) result (withdrawal_at bytes.now) }
{
    let (scopes, rest) = str_of(bytes)?;
    let (entry, rest) = entry_view_of(rest)?;
    let (tags, rest) = str_of(rest)?;
    let view = WithdrawalView {
        scopes,
        entry,
        tags,
    };
    Ok((view, rest))
}

/// Reads a withdrawal.
pub fn withdrawal_of(alloc: Global, bytes: &[u8]) -> Result<(Withdrawal, &[u8]), WireFault>
    ensures { Gives (λ x. (x.0, x.1.now)) result (withdrawal_at bytes.now) }
{
    let (view, rest) = withdrawal_view_of(bytes)?;
    Ok((view.copy(alloc)?, rest))
}

/// The fields of a withdrawal.
pub fn withdrawal_fields(withdrawal: &Withdrawal) -> [Field<'_>; 3]
    ensures bytes { fields_bytes result ≡ layout_bytes layout.withdrawal withdrawal.now }
    ensures sound { AllByRecursion IsField result → FitsLayout layout.withdrawal withdrawal.now }
{
    [
        Field::Text(&withdrawal.scopes),
        Field::Entry(&withdrawal.entry),
        Field::Text(&withdrawal.tags),
    ]
}
