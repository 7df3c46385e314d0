//! Sockets of datagrams.
ghost use Rattle.std.specs.Prelude.{◌≤◌, length, IfOk};
ghost use Rattle.slp_sockets.specs.Ports.{Left, received};

use crate::serve::Settled;
use mio::net::UdpSocket;
use std::io;
use std::net::SocketAddr;

/// A socket of datagrams. Each implementation says by `may` what may happen at it.
pub trait Port {
    ghost use Rattle.slp_sockets.specs.Ports.{Ports};

    // Holds of the port before, what happens, and the port after.
    ghost may: { Ports Self };

    /// Takes the next datagram: how many bytes it has, and who sent it.
    fn receive(&mut self, buffer: &mut [u8]) -> io::Result<(usize, SocketAddr)>
        ensures within { IfOk result (λ r. r.0 ≤ length buffer.new) }
        ensures received { may self.old (received result buffer.new) self.new };

    /// Hands a datagram over, once what was told of it is handed over. One that the system does not take now is dropped: datagrams may be
    /// lost, and their senders ask again.
    fn send(&mut self, settled: &Settled, bytes: &[u8], peer: SocketAddr)
        ensures { may self.old (Left (record { peer = peer; bytes = bytes.now })) self.new };
}

impl Port for UdpSocket {
    ghost use Rattle.std.specs.Prelude.{⊤};

    // Anything may come, and what a network does with what is handed over no clause says.
    ghost may = { λ before happening after. ⊤ };

    fn receive(&mut self, buffer: &mut [u8]) -> io::Result<(usize, SocketAddr)> {
        self.recv_from(buffer)
    }

    fn send(&mut self, _settled: &Settled, bytes: &[u8], peer: SocketAddr) {
        let _ = self.send_to(bytes, peer);
    }
}
