//! At which part a text stops being a template.
ghost use Rattle.std.specs.Prelude.{◌≡◌, IfOk};
ghost use Rattle.std.specs.Str.Lines.{lines};
ghost use Rattle.template_files.specs.Parts as spec;
ghost use Rattle.template_files.specs.Parts.{faulty_after_type, faulty_part_in};
ghost use Rattle.template_files.specs.Stops.{texts_of};

use crate::faults::{DefinitionFault, refusal};
use crate::lines::{Stop, split_at_blank};
use crate::reading::{after_part, read_definitions, read_type};
use slp_text::NoMemory;
use std::alloc::Global;

/// A part of a template, in their order (RFC 2609, section 4).
#[derive(Clone, Copy, Debug, PartialEq, Eq)]
pub enum Part {
    /// The line `template-type=`.
    ServiceType,
    /// The line `template-version=`.
    Version,
    /// The line `template-description=`, and the lines up to a blank one.
    Description,
    /// The line `template-url-syntax=`, and the lines up to a blank one.
    Syntax,
    /// The definitions of tags, and why the first is refused that is.
    Definitions(DefinitionFault),
}

// That definitions are at fault, and why the first is that is refused.
fn faulty_definitions(alloc: Global, lines: &[&str]) -> Result<Option<Part>, NoMemory>
    ensures { IfOk result (λ p. p ≡ spec.faulty_definitions (texts_of lines.now)) }
{
    match read_definitions(alloc, lines) {
        Ok(_) => Ok(None),
        Err(Stop::Left(left)) => {
            let place = lines.len().saturating_sub(left);
            let fault = refusal(alloc, &lines[place..])?;
            Ok(Some(Part::Definitions(fault)))
        }
        Err(Stop::NoMemory) => Err(NoMemory),
    }
}

// The part that is at fault after the one of the type.
#[tactic(auto, unfolding(crate::specs::Parts::faulty_after_type))]
fn faulty_after(alloc: Global, lines: &[&str]) -> Result<Option<Part>, NoMemory>
    ensures { IfOk result (λ p. p ≡ faulty_after_type (texts_of lines.now)) }
{
    let version = match after_part(alloc, "template-version", lines) {
        Ok(rest) => rest,
        Err(Stop::Left(_)) => return Ok(Some(Part::Version)),
        Err(Stop::NoMemory) => return Err(NoMemory),
    };
    let description = match after_part(alloc, "template-description", version) {
        Ok(rest) => rest,
        Err(Stop::Left(_)) => return Ok(Some(Part::Description)),
        Err(Stop::NoMemory) => return Err(NoMemory),
    };
    let syntax = match after_part(alloc, "template-url-syntax", split_at_blank(description).1) {
        Ok(rest) => rest,
        Err(Stop::Left(_)) => return Ok(Some(Part::Syntax)),
        Err(Stop::NoMemory) => return Err(NoMemory),
    };
    faulty_definitions(alloc, split_at_blank(syntax).1)
}

// The first part of lines that is at fault.
#[tactic(auto, unfolding(crate::specs::Parts::faulty_part_in))]
fn faulty_of(alloc: Global, lines: &[&str]) -> Result<Option<Part>, NoMemory>
    ensures { IfOk result (λ p. p ≡ faulty_part_in (texts_of lines.now)) }
{
    match read_type(alloc, lines) {
        Ok((_, rest)) => faulty_after(alloc, rest),
        Err(Stop::Left(_)) => Ok(Some(Part::ServiceType)),
        Err(Stop::NoMemory) => Err(NoMemory),
    }
}

/// The first part of a text for which the text is not a template; `None` where each part stands.
pub fn faulty_part(alloc: Global, text: &str) -> Result<Option<Part>, NoMemory>
    ensures { IfOk result (λ p. p ≡ faulty_part_in (lines text.now)) }
{
    let lines: Vec<&str> = text.lines().collect(alloc)?;
    faulty_of(alloc, &lines)
}
