//! Why a server does not start where a loop is not opened, and why its rules stay at a reload.
ghost use Rattle.std.specs.Prelude.{◌≡◌};
ghost use Rattle.agent_parts.specs.Statuses.{loop_start, reload_refused, unread};

use published_view::ViewFault;
use rule_files::RuleFault;
use site_opening::{ReadFault, StartFault};
use slp_sockets::LoopFault;

/// Why the rules that decided before a reload stay.
#[derive(Clone, Copy, Debug, PartialEq, Eq)]
pub(crate) enum ReloadFault {
    /// The file of rules failed, or is no text.
    File,
    /// The rules are refused, or memory ran out.
    Rules(RuleFault),
    /// The writer is shut, since a publish before found no memory. It is told as want of memory is.
    Shut,
}

/// Why an agent does not start where a loop is not opened.
pub fn loop_fault(fault: LoopFault) -> StartFault
    ensures { result ≡ loop_start fault }
{
    match fault {
        LoopFault::Io => StartFault::Failed,
        LoopFault::NoMemory => StartFault::NoMemory,
    }
}

/// Why the rules stay where a file of rules is not read.
pub(crate) fn unread_rules(fault: ReadFault) -> ReloadFault
    ensures { result ≡ unread fault }
{
    match fault {
        ReadFault::Failed => ReloadFault::File,
        ReadFault::Refused(fault) => ReloadFault::Rules(fault),
    }
}

/// Why the rules stay where the writer refuses others.
pub(crate) fn refused_rules(fault: ViewFault) -> ReloadFault
    ensures { result ≡ reload_refused fault }
{
    match fault {
        ViewFault::Closed => ReloadFault::Shut,
        ViewFault::NoMemory | ViewFault::NoPlace => ReloadFault::Rules(RuleFault::NoMemory),
    }
}
