//! What the rule of what is published says of all threads. The functions do nothing: their contracts are the laws.
ghost use Rattle.std.specs.Prelude.{ℕ, List, Option};
ghost use Rattle.logbook.specs.Pages.{Book};
ghost use Rattle.directory_questions.specs.Calls.{Opening};
ghost use Rattle.directory_questions.specs.Outcomes.{Outcome};
ghost use Rattle.directory_runs.specs.Promises.{IsKeptThroughout};
ghost use Rattle.directory_runs.specs.Runs.{Run};
ghost use Rattle.published_view.specs.Rules.{IsPublished, history_of};
ghost use Rattle.published_view.specs.Traces.{AreAllTold, IsRunBehind, Trace};
ghost use Rattle.published_view.specs.declared.copies.PublishedCopy.{PublishedCopy};

/// Whenever the rule holds, what all threads were told and wrote so far is in one run, which published the history of the copy that is
/// shown, and which keeps what users are promised.
pub fn the_rule_is_a_run()
    ensures { (book : Book) (o : Opening) (k : PublishedCopy) (traces : List Trace) (told : ℕ → ℕ → Option Outcome) → IsPublished book o k traces → AreAllTold o told traces
        → (run : Run) × IsRunBehind o (history_of k) told traces run × IsKeptThroughout o run }
{}
