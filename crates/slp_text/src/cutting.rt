ghost use Rattle.std.specs.Prelude.{◌≡◌, ◌++◌, ◌∷◌, MatchOption};
ghost use Rattle.slp_text.specs.Words.{Lacks};

use memchr::memchr;

/// The bytes before the first of this value, and those after it. `None` where there is none. Takes no
/// memory.
pub fn cut(piece: &[u8], byte: u8) -> Option<(&[u8], &[u8])>
    ensures { MatchOption result (Lacks byte piece.now) (λ parts. (piece.now ≡ parts.0.now ++ byte ∷ parts.1.now) × Lacks byte parts.0.now) }
{
    let end = memchr(byte, piece)?;
    Some((&piece[..end], &piece[end + 1..]))
}
