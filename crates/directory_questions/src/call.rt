ghost use Rattle.std.specs.Prelude.{◌≡◌, ◌≤◌};
ghost use Rattle.directory_questions.specs.Bytes.{AreBytes};

use addresses::Addr;

/// Bytes that an asker sends at a moment, in seconds, to an address of the directory, and how many
/// bytes a reply may have: no fewer than a datagram takes, and no more than a message has.
#[derive(Clone, Copy)]
pub struct Call<'a> {
    pub own: Addr,
    pub moment: u32,
    pub asker: Addr,
    pub bytes: &'a [u8],
    pub limit: usize,
    ghost least: { 1400 ≤ limit },
    ghost most: { limit ≤ 65535 },
    ghost are_bytes: { AreBytes bytes.now },
}

impl<'a> Call<'a> {
    /// Bytes that an asker sent at a moment, in seconds, to whatever address. What comes of a message that asks for a change is
    /// the same at each, and fits everywhere.
    pub fn anywhere(moment: u32, asker: Addr, bytes: &'a [u8]) -> Call<'a>
        ensures moment { result.moment ≡ moment }
        ensures asker { result.asker ≡ asker }
        ensures bytes { result.bytes.now ≡ bytes.now }
    {
        Call {
            own: Addr(0),
            moment,
            asker,
            bytes,
            limit: 1_400,
        }
    }
}
