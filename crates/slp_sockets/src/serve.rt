ghost use Rattle.std.specs.Prelude.{◌≤◌};

use addresses::Addr;
use slp_replies::{Answer, Sent};
use slp_text::NoMemory;

/// What answers messages. Each implementation says by `manner` what one call may do.
pub trait Serve {
    ghost use Rattle.std.specs.Prelude.{◌≡◌, IsTrue};
    ghost use Rattle.slp_sockets.specs.Serving.{Manner};

    ghost manner: { Manner Self };

    /// Whether a message with which these bytes begin would wait for others, if it were served now. It decides when a message is
    /// served, and nothing else.
    fn waits(&self, bytes: &[u8]) -> bool
        ensures { IsTrue result → manner.may_wait bytes.now };

    /// Whether to serve a message may take long, so that it is timed. It decides how many are served in a turn, and nothing else.
    fn may_last(&self, message: &[u8]) -> bool
        ensures { IsTrue result → manner.may_last message.now };

    /// Whether to serve a message takes so long that the loop beside is to do it, where there is one. It decides who serves it, and
    /// nothing else.
    fn is_long(&mut self, message: &[u8]) -> bool
        ensures kept { self.new ≡ self.old }
        ensures long { IsTrue result → manner.may_last message.now };

    /// The microseconds of a clock that never goes back, from some start on. It decides the same.
    fn micros(&self) -> u64;

    /// Answers one message, by no more than `limit` bytes.
    fn serve(
        &mut self,
        asker: Addr,
        message: &[u8],
        limit: usize,
        answer: &mut Answer,
    ) -> Result<Sent, NoMemory>
        requires least { 1400 ≤ limit }
        requires most { limit ≤ 65535 }
        ensures { manner.steps self.old asker message.now limit result answer.new self.new };

    /// What was told of the messages so far is to be handed over when it returns: their answers leave next, or its loop waits.
    fn settle(&mut self)
        ensures { manner.settles self.old self.new };
}

/// That what was told of the messages so far is handed over. `settle` alone gives it.
#[derive(Drop)]
pub struct Settled(());

/// Has a server settle, before answers leave.
pub fn settle<S: Serve>(server: &mut S) -> Settled
    ensures { S.manner.settles server.old server.new }
{
    server.settle();
    Settled(())
}
