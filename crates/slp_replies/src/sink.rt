//! Where a line is written: into a vector, which may find no memory, or into a short line, which takes none.
ghost use Rattle.std.specs.Prelude.{◌≡◌, ◌≤◌, ◌+◌, ◌++◌, length, OnOk, OnErr};

use arrayvec::ArrayVec;
use slp_text::NoMemory;

/// Bytes that are written one after the other.
pub(crate) trait Sink {
    ghost use Rattle.std.specs.Prelude.{ℕ, List};

    /// What was written.
    ghost written: { Self → List ℕ };

    /// For so many bytes there is room for certain.
    ghost room: { Self → ℕ };

    /// Appends bytes. They are refused only where they fill the room.
    fn put(&mut self, bytes: &[u8]) -> Result<(), NoMemory>
        ensures ok { OnOk result (written self.new ≡ written self.old ++ bytes.now) }
        ensures room { OnOk result (room self.old ≤ room self.new + length bytes.now) }
        ensures err { OnErr result (room self.old ≤ length bytes.now) };
}

impl Sink for Vec<u8> {
    ghost written = { λ v. v.items };

    ghost room = { λ v. 0 };

    fn put(&mut self, bytes: &[u8]) -> Result<(), NoMemory> {
        self.extend_from_slice(bytes)?;
        Ok(())
    }
}

/// A line of at most 128 bytes. It takes no memory.
pub type ShortLine = ArrayVec<u8, 128>;

impl Sink for ShortLine {
    ghost use Rattle.std.specs.Prelude.{◌-◌, length};

    ghost written = { λ l. l.items };

    ghost room = { λ l. 128 - length l.items };

    fn put(&mut self, bytes: &[u8]) -> Result<(), NoMemory> {
        match self.try_extend_from_slice(bytes) {
            Ok(()) => Ok(()),
            Err(_) => Err(NoMemory),
        }
    }
}
