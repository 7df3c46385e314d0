ghost use Rattle.agent_clients.specs.Upkeep.{Looked, Told, Asked, Rested};

use crate::fault::ClientFault;
use std::alloc::Global;

/// What keeping registrations alive needs from outside. Each implementation says by `may` what may happen there.
pub(crate) trait Outside {
    ghost use Rattle.agent_clients.specs.Upkeep.{Outsides};

    // Holds of the outside before, what happens, and the outside after.
    ghost may: { Outsides Self };

    /// Whether the flag is set.
    fn is_stopped(&mut self) -> bool
        ensures { may self.old (Looked result) self.new };

    /// The moment that it is, in whole seconds since the start.
    fn now(&mut self) -> Result<u32, ClientFault>
        ensures { may self.old (Told result) self.new };

    /// Sends a message, and waits for its acknowledgement.
    fn ask(&mut self, alloc: Global, message: Vec<u8>) -> Result<(), ClientFault>
        ensures { may self.old (Asked message.items result) self.new };

    /// Rests a while.
    fn rest(&mut self)
        ensures { may self.old Rested self.new };
}
