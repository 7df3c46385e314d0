//! What is read of a message that asks for a change, before rules and registry are asked.
ghost use Rattle.std.specs.Prelude.{◌≡◌, IfOk};
ghost use Rattle.slp_messages.specs.Views.{message_in};
ghost use Rattle.directory_judge.specs.ReadChanges.{message_read, IsReadAt};

use crate::change::Withdrawing;
use crate::particulars::{Reading, name};
use crate::site::Site;
use crate::withdrawals::read_withdrawal;
use service_url::ServiceType;
use slp_messages::{ChangeView, KeptHeader, RegistrationView, WithdrawalView};
use slp_text::NoMemory;
use std::alloc::Global;

/// A message that asks for a change, lent, with what a site reads in its texts: what a registration names, or the fault that denies it; what a
/// withdrawal is of, where its texts are no fault.
#[derive(Drop)]
pub enum ReadChange<'a> {
    Registration(KeptHeader<'a>, RegistrationView<'a>, Reading),
    Withdrawal(KeptHeader<'a>, WithdrawalView<'a>, Option<Withdrawing>),
}

/// Reads a message that asks for a change, for a site: all that its texts say, and nothing of what the directory holds.
pub fn read_change<'a>(
    alloc: Global,
    site: &Site,
    change: &ChangeView<'a>,
) -> Result<ReadChange<'a>, NoMemory>
    ensures message { IfOk result (λ r. message_read r ≡ message_in change.now) }
    ensures read { IfOk result (IsReadAt site.now) }
{
    match *change {
        ChangeView::Registration(header, registration) => {
            let kind = ServiceType::read(alloc, registration.kind)?;
            let reading = name(alloc, site, &header, &registration, kind)?;
            Ok(ReadChange::Registration(header, registration, reading))
        }
        ChangeView::Withdrawal(header, withdrawal) => {
            let reading = read_withdrawal(alloc, site, &withdrawal)?;
            Ok(ReadChange::Withdrawal(header, withdrawal, reading))
        }
    }
}
