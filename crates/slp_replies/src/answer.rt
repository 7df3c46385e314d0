ghost use Rattle.std.specs.Prelude.{◌≡◌, [], vec_capacity, OnErr, OnOk};

use slp_text::NoMemory;
use std::alloc::Global;

/// The bytes of a reply, and those of its audit line. Either may be empty.
#[derive(Drop)]
pub struct Answer {
    pub bytes: Vec<u8>,
    pub audit: Vec<u8>,
}

impl Answer {
    /// An empty answer. Takes no memory.
    pub fn new(alloc: Global) -> Answer
        ensures bytes { result.bytes.items ≡ [] }
        ensures audit { result.audit.items ≡ [] }
        ensures bytes_room { vec_capacity result.bytes ≡ 0 }
        ensures audit_room { vec_capacity result.audit ≡ 0 }
    {
        Answer {
            bytes: Vec::new(alloc),
            audit: Vec::new(alloc),
        }
    }

    /// Empties the answer, and keeps its memory for the next. Takes no memory.
    pub fn clear(&mut self)
        ensures bytes { self.new.bytes.items ≡ [] }
        ensures audit { self.new.audit.items ≡ [] }
        ensures bytes_room { vec_capacity self.new.bytes ≡ vec_capacity self.old.bytes }
        ensures audit_room { vec_capacity self.new.audit ≡ vec_capacity self.old.audit }
    {
        self.bytes.clear();
        self.audit.clear();
    }
}

/// What was told, where memory was not wanting. Else the answer is emptied.
pub fn told_whole<T>(told: Result<T, NoMemory>, answer: &mut Answer) -> Result<T, NoMemory>
    ensures told { result ≡ told }
    ensures kept { OnOk result (answer.new ≡ answer.old) }
    ensures no_reply { OnErr result (answer.new.bytes.items ≡ []) }
    ensures no_line { OnErr result (answer.new.audit.items ≡ []) }
{
    if told.is_err() {
        answer.clear();
    }
    told
}

/// What was sent: a reply with this code, or nothing.
#[derive(Clone, Copy, Debug, PartialEq, Eq)]
pub enum Sent {
    Bytes(u16),
    Silence,
}
