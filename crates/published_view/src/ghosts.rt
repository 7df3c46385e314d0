//! What threads do at what is published. It exists in proofs alone: no value of it is made.
use std::marker::{Brand, Model};

/// What a thread did, and where.
#[derive(Drop)]
pub struct Marked {
    nothing: (),
}

impl Model for Marked {
    ghost use Rattle.std.specs.Prelude.{[], None};
    ghost use Rattle.published_view.specs.Traces.{Asked, Mark, mark_code};

    ghost Value = { Mark };

    ghost coded = { mark_code };

    ghost view = { λ _. Asked [] None };
}

/// The call by which a thread asks, or for which it writes, if there is one. Each call of a function that asks or writes picks it.
pub trait Asks {
    ghost use Rattle.std.specs.Prelude.{Option};
    ghost use Rattle.directory_questions.specs.Calls.{Call};

    ghost call: { Option Call };
}

impl Asks for Brand {
    ghost use Rattle.std.specs.Prelude.{None};

    ghost call = { None };
}

/// Nothing is asked.
pub struct AsksNothing;

impl Asks for AsksNothing {
    ghost use Rattle.std.specs.Prelude.{None};

    ghost call = { None };
}
