ghost use Rattle.std.specs.Prelude.{◌≡◌};
ghost use Rattle.template_files.specs.Reading as spec;
ghost use Rattle.template_files.specs.Reading.{from_blank, to_blank};
ghost use Rattle.template_files.specs.Stops.{texts_of};
ghost use Rattle.template_files.specs.declared.lines.Stop.TheVariants as stop;

use slp_text::{NoMemory, is_blank};
use std::alloc::{AllocError, AllocFailed};

/// Why lines are not read.
#[derive(Clone, Copy, Debug)]
pub enum Stop {
    /// So many of them are left from the first on that does not fit.
    Left(usize),
    NoMemory,
}

impl From<AllocError> for Stop {
    ghost from_gives = { λ _ e. e ≡ stop.NoMemory };

    fn from(_e: AllocError) -> Stop {
        Stop::NoMemory
    }
}

impl<T: Drop> From<AllocFailed<T>> for Stop {
    ghost from_gives = { λ _ e. e ≡ stop.NoMemory };

    fn from(_e: AllocFailed<T>) -> Stop {
        Stop::NoMemory
    }
}

impl From<NoMemory> for Stop {
    ghost from_gives = { λ _ e. e ≡ stop.NoMemory };

    fn from(_e: NoMemory) -> Stop {
        Stop::NoMemory
    }
}

/// The lines from the first on that is not blank.
pub fn after_blanks<'a, 'b>(lines: &'b [&'a str]) -> &'b [&'a str]
    ensures { texts_of result.now ≡ spec.after_blanks (texts_of lines.now) }
{
    for i in 0..lines.len() {
        if !is_blank(lines[i]) {
            return &lines[i..];
        }
    }
    &[]
}

/// The lines up to the first blank one, and those from it on.
pub fn split_at_blank<'a, 'b>(lines: &'b [&'a str]) -> (&'b [&'a str], &'b [&'a str])
    ensures before { texts_of result.0.now ≡ to_blank (texts_of lines.now) }
    ensures after { texts_of result.1.now ≡ from_blank (texts_of lines.now) }
{
    for i in 0..lines.len() {
        if is_blank(lines[i]) {
            return (&lines[..i], &lines[i..]);
        }
    }
    (lines, &[])
}
