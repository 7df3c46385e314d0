//! At which line a template is at fault, and with what; and which default values it refuses itself.
ghost use Rattle.std.specs.Prelude.{◌≡◌, flat_map, OnOk};
ghost use Rattle.std.specs.Io.KnownBytes.{Appends};
ghost use Rattle.site_check.specs.TemplateFaults.{default_line, default_lines, definition_text, refusal_text, template_lines};

use crate::fault::CheckFault;
use crate::problem::{FileText, LONGEST_TEXT, Place, Problem, Warning, report, warn};
use slp_text::Key;
use std::alloc::Global;
use std::io::{self, Write};
use template_files::{DefinitionFault, Part, faulty_part, refused_defaults};

// What is wrong with a definition.
fn definition_refusal(fault: DefinitionFault) -> &'static str
    ensures { result.now ≡ definition_text fault }
{
    match fault {
        DefinitionFault::Form => "expected TAG = KIND, and flags",
        DefinitionFault::Tag => "what stands before the = is no tag",
        DefinitionFault::Kind => {
            "its kind is none of STRING, INTEGER, BOOLEAN, OPAQUE and KEYWORD"
        }
        DefinitionFault::Flag => "a flag is none of M, O, L and X",
        DefinitionFault::FlagTwice => "a flag stands twice",
        DefinitionFault::KeywordValues => "a KEYWORD has no values",
        DefinitionFault::NoBlankLine => {
            "a value has a raw =, or no blank line stands before the next definition"
        }
        DefinitionFault::DefaultUnread => {
            "a default value is not read: ( ) , \\ ! < = > ~ are written as \\28 and so on"
        }
        DefinitionFault::DefaultKind => "a default value is not of its kind",
        DefinitionFault::AllowedUnread => {
            "an allowed value is not read: ( ) , \\ ! < = > ~ are written as \\28 and so on"
        }
        DefinitionFault::AllowedKind => "an allowed value is not of its kind",
        DefinitionFault::Twice => "an earlier definition is of its tag",
    }
}

// What is wrong where a template stops at a part.
fn refusal(part: Part) -> &'static str
    ensures { result.now ≡ refusal_text part }
{
    match part {
        Part::ServiceType => "expected template-type=TYPE",
        Part::Version => "expected template-version=",
        Part::Description => "expected template-description=",
        Part::Syntax => "expected template-url-syntax=",
        Part::Definitions(fault) => definition_refusal(fault),
    }
}

/// Writes why a text is not a template, which was refused at a line.
pub(crate) fn explain_template<W: Write>(
    alloc: Global,
    file: FileText<'_>,
    line: usize,
    writer: &mut W,
) -> Result<(), CheckFault>
    ensures { OnOk result (Appends (W.contents writer.old) (W.contents writer.new) (template_lines file.entry.path.now file.entry.text.now line)) }
{
    if file.text.len() > LONGEST_TEXT {
        report(Place::File(file.path), Problem::TooLong, writer)?;
    } else if let Some(part) = faulty_part(alloc, file.text)? {
        let problem = Problem::Template(refusal(part));
        report(Place::Line(file.path, line), problem, writer)?;
    }
    Ok(())
}

// Writes that the definitions of some tags refuse their own default values.
fn warn_of_tags<W: Write>(path: &str, tags: &[Key], writer: &mut W) -> io::Result<()>
    ensures { OnOk result (Appends (W.contents writer.old) (W.contents writer.new) (flat_map (default_line path.now) tags.now)) }
{
    for tag in tags {
        warn(
            Place::File(path),
            Warning::RefusedDefault(tag.as_str()),
            writer,
        )?;
    }
    Ok(())
}

/// Writes which definitions of the template that a text is refuse their own default values.
pub(crate) fn warn_of_defaults<W: Write>(
    alloc: Global,
    file: FileText<'_>,
    writer: &mut W,
) -> Result<(), CheckFault>
    ensures { OnOk result (Appends (W.contents writer.old) (W.contents writer.new) (default_lines file.entry.path.now file.entry.text.now)) }
{
    let tags = refused_defaults(alloc, file.text)?;
    let told = warn_of_tags(file.path, &tags, writer);
    drop(tags);
    told?;
    Ok(())
}
