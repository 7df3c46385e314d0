ghost use Rattle.srv_template.specs.Templates.{IsReading};
ghost use Rattle.template_files.specs.Reading.{template_in};

use crate::lines::Stop;
use crate::reading::read_template;
use srv_template::{ParseFault, Template};
use std::alloc::Global;

/// The bytes of the longest template.
const LONGEST_TEMPLATE: usize = 1_048_576;

/// The template that a text is (RFC 2609, section 4). Another text is refused by its first line that
/// does not fit, and one of more than 1,048,576 bytes, which is asked first, by line 1. It takes time
/// for the length of the text, and for the number of definitions and its logarithm.
pub fn template_of_text(alloc: Global, text: &str) -> Result<Template, ParseFault>
    ensures { IsReading result (template_in text.now) }
{
    if text.len() > LONGEST_TEMPLATE {
        return Err(ParseFault::Line(1));
    }
    let lines: Vec<&str> = text.lines().collect(alloc)?;
    match read_template(alloc, &lines) {
        Ok(template) => Ok(template),
        Err(Stop::Left(left)) => Err(ParseFault::Line((lines.len() + 1).saturating_sub(left))),
        Err(Stop::NoMemory) => Err(ParseFault::NoMemory),
    }
}
