//! What holds of every message. The functions do nothing: their contracts are the laws.
ghost use Rattle.std.specs.Prelude.{◌≡◌, ◌≤◌, ℕ, List, [], ◌++◌, length, Ok};
ghost use Rattle.slp_messages.specs.Messages.{IsMessage};
ghost use Rattle.slp_wire.specs.Reading.{reading};
ghost use Rattle.slp_wire.specs.Spelling.{plain_bytes, longest};
ghost use Rattle.slp_messages.specs.declared.message.Message.{Message};

/// What was written is read again as the same message, whatever follows it.
pub fn a_spelling_is_read_back()
    ensures { (m : Message) (rest : List ℕ) → IsMessage m → length (plain_bytes m) ≤ longest → reading (plain_bytes m ++ rest) ≡ Ok m }
{}

/// No spelling begins another.
pub fn no_spelling_begins_another()
    ensures { (m n : Message) (rest : List ℕ) → IsMessage m → IsMessage n → length (plain_bytes m) ≤ longest → length (plain_bytes n) ≤ longest
        → plain_bytes m ++ rest ≡ plain_bytes n → (m ≡ n) × (rest ≡ []) }
{}
