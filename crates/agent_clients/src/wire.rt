ghost use Rattle.std.specs.Prelude.{◌≤◌, length, IfOk, IfSome};
ghost use Rattle.agent_clients.specs.Wires.{Told, Sent, Waited, Opened, Read, received};

use crate::fault::ClientFault;

/// The clock and the sockets of one request. Each implementation says by `may` what may happen there.
pub(crate) trait Wire {
    ghost use Rattle.agent_clients.specs.Wires.{Wires};

    // Holds of the wire before, what happens, and the wire after.
    ghost may: { Wires Self };

    /// The moment that it is, in whole seconds since the request began.
    fn now(&mut self) -> Result<u32, ClientFault>
        ensures { may self.old (Told result) self.new };

    /// Sends a datagram to the peer. That nobody listens there is no failure.
    fn send(&mut self, request: &[u8]) -> Result<(), ClientFault>
        ensures { may self.old (Sent request.now result) self.new };

    /// Waits for a datagram of the peer until a moment, and answers how many bytes came.
    fn receive(&mut self, until: u32, buffer: &mut [u8]) -> Result<Option<usize>, ClientFault>
        ensures within { IfOk result (λ told. IfSome told (λ count. count ≤ length buffer.new)) }
        ensures waited { may self.old (Waited until (received result buffer.new)) self.new };

    /// Opens a stream to the peer and writes the request there, and answers whether that was done.
    fn open(&mut self, request: &[u8]) -> bool
        ensures { may self.old (Opened request.now result) self.new };

    /// Waits for bytes of the stream until a moment, and answers how many came.
    fn read(&mut self, until: u32, buffer: &mut [u8]) -> Result<Option<usize>, ClientFault>
        ensures within { IfOk result (λ told. IfSome told (λ count. count ≤ length buffer.new)) }
        ensures waited { may self.old (Read until (received result buffer.new)) self.new };
}
