ghost use Rattle.std.specs.Prelude.{◌≡◌, true, IfOk, MatchResult};
ghost use Rattle.slp_messages.specs.Views.{message_in};
ghost use Rattle.directory_questions.specs.Readings.{IsRead, IsUnread};
ghost use Rattle.directory_questions.specs.Requests.{function_in, is_change_function};

use crate::heard::Heard;
use slp_text::NoMemory;
use slp_wire::{ChangeView, WireFault, read_change};

/// The change that a call asks for, as the message that its bytes are, lent, or the fault for which they are
/// none.
pub fn asked_change<'a>(heard: &Heard<'a>) -> Result<Result<ChangeView<'a>, WireFault>, NoMemory>
    requires { is_change_function (function_in heard.now.request) ≡ true }
    ensures { IfOk result (λ read. MatchResult read (λ change. IsRead heard.now.call.now.bytes.now (message_in change)) (IsUnread heard.now.call.now.bytes.now)) }
{
    match read_change(&heard.header, heard.call.bytes) {
        Ok(change) => Ok(Ok(change)),
        Err(WireFault::NoMemory) => Err(NoMemory),
        Err(fault) => Ok(Err(fault)),
    }
}
