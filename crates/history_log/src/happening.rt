//! Events, of which no value is made: each is picked by the proof of the call that writes it down.
use logbook::Plain;
use std::marker::{Brand, Model, PhantomData};

/// An event of the history. No value of it is made.
#[derive(Drop)]
pub struct Happened {
    nothing: (),
}

impl Model for Happened {
    ghost use Rattle.directory_judge.specs.History.{Event, Sweep};
    ghost use Rattle.history_log.specs.Events.{event_code};

    ghost Value = { Event };

    ghost coded = { event_code };

    ghost view = { λ _. record { moment = 0; act = Sweep } };
}

/// Which event it is. Each call of a function that writes one down picks it.
pub trait Happening {
    ghost use Rattle.directory_judge.specs.History.{Event};

    ghost event: { Event };
}

impl Happening for Brand {
    ghost use Rattle.directory_judge.specs.History.{Sweep};

    ghost event = { record { moment = 0; act = Sweep } };
}

/// What a step asks for: the event.
pub struct Names<E> {
    of: PhantomData<E>,
}

impl<E: Happening> Plain<(), Happened, u64> for Names<E> {
    ghost use Rattle.std.specs.Prelude.{None};

    ghost ask = { λ _. E.event };

    ghost state = { λ _. None };
}
