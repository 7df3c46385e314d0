//! What holds of every script. The functions do nothing: their contracts are the laws.
ghost use Rattle.std.specs.Prelude.{◌≡◌, ℕ, List};
ghost use Rattle.slp_script.specs.Lines.{Line};
ghost use Rattle.slp_script.specs.Commands.{Command, Reads, StopsAt};

/// Lines are read in one way.
pub fn one_reading()
    ensures { (ls : List Line) (cs ds : List Command) → Reads ls cs → Reads ls ds → cs ≡ ds }
{}

/// Lines that are read to the end have none at fault.
pub fn no_fault()
    ensures { (ls : List Line) (cs ds : List Command) (n : ℕ) → Reads ls cs → StopsAt ls ds n → ⊥ }
{}

/// One line is the first at fault, after the same commands.
pub fn one_fault()
    ensures { (ls : List Line) (cs ds : List Command) (n m : ℕ) → StopsAt ls cs n → StopsAt ls ds m → (cs ≡ ds) × (n ≡ m) }
{}
