//! What is published: a directory with the history that it stands for.
use directory_judge::Change;
use directory_state::Directory;
use history_log::Trail;
use left_right::Absorb;
use std::alloc::AllocError;
use table_registry::SiteRegistry;

/// The directory of an agent.
pub type AgentDirectory = Directory<SiteRegistry>;

/// A directory, and the history that it stands for.
pub struct PublishedCopy {
    pub directory: AgentDirectory,
    pub trail: Trail,
}

impl Drop for PublishedCopy {
    fn drop(self) {
        let PublishedCopy {
            directory: _,
            trail: _,
        } = self;
    }
}

/// A change, and the history that ends in its event.
#[derive(Drop)]
pub struct Step {
    pub change: Change,
    pub trail: Trail,
}

impl PublishedCopy {
    ghost use Rattle.std.specs.Prelude.{◌≡◌};
    ghost use Rattle.published_view.specs.Steps.{stepped};

    /// It takes no memory, and cannot fail.
    pub fn take_in(&mut self, step: Step)
        ensures { self.new ≡ stepped self.old step }
    {
        let Step { change, trail } = step;
        self.directory.apply(change);
        self.trail = trail;
    }
}

/// What is put in line. The first, at the opening, is nothing: it makes the line's room.
#[derive(Drop)]
pub enum Operation {
    Nothing,
    Makes(Step),
}

impl Absorb<Operation> for PublishedCopy {
    ghost use Rattle.published_view.specs.Steps.{operated};

    type State = PublishedCopy;

    ghost state = { λ k. k };

    ghost applied = { operated };

    /// The change is shared first. That may be refused.
    fn absorb_first(
        &mut self,
        operation: &Operation,
        _other: &PublishedCopy,
    ) -> Result<(), AllocError> {
        let Operation::Makes(step) = operation else {
            return Ok(());
        };
        let Ok(change) = step.change.share() else {
            return Err(AllocError);
        };
        self.directory.apply(change);
        self.trail = step.trail.again();
        Ok(())
    }

    /// It takes no share.
    fn absorb_second(
        &mut self,
        operation: Operation,
        _other: &PublishedCopy,
    ) -> Result<(), Operation> {
        if let Operation::Makes(step) = operation {
            self.take_in(step);
        }
        Ok(())
    }
}
