ghost use Rattle.std.specs.Prelude.{◌≡◌};
ghost use Rattle.directory_questions.specs.Outcomes.{decider_of_fault};

use directory_judge::Decider;
use slp_wire::WireFault;

/// The step that asks for a fault, where it is answered (RFC 2608, section 7).
pub fn decider_of(fault: WireFault) -> Option<Decider>
    ensures { result ≡ decider_of_fault fault }
{
    match fault {
        WireFault::Version => Some(Decider::Version),
        WireFault::Parse => Some(Decider::Parse),
        WireFault::Auth => Some(Decider::Auth),
        WireFault::Option => Some(Decider::Option),
        WireFault::NoHeader => None,
        WireFault::Unknown => None,
        WireFault::NoMemory => None,
        WireFault::TooLong => None,
    }
}
