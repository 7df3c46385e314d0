//! What is relied on of whoever serves messages: the contract of its one call, said once more by a function that makes the call.
ghost use Rattle.std.specs.Prelude.{◌≤◌};

use addresses::Addr;
use slp_answer::{Answer, Sent};
use slp_loops::Serve;
use slp_text::NoMemory;

/// Serves one message, by no more than `limit` bytes. Another server of the kind is lent, of which nothing is asked.
pub fn serve<S: Serve>(
    server: &mut S,
    _other: &mut S,
    asker: Addr,
    message: &[u8],
    limit: usize,
    answer: &mut Answer,
) -> Result<Sent, NoMemory>
    requires least { 1400 ≤ limit }
    requires most { limit ≤ 65535 }
    ensures { S.manner.steps server.old asker message.now limit result answer.new server.new }
{
    let told = server.serve(asker, message, limit, answer);
    told
}
