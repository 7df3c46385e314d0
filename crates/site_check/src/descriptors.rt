//! How many descriptors a server can need, beside how many this process may have.
ghost use Rattle.std.specs.Prelude.{◌≡◌, ℕ, List, Result, length, OnOk};
ghost use Rattle.std.specs.Io.KnownBytes.{Appends};
ghost use Rattle.site_config.specs.Configurations.{IsWithin};
ghost use Rattle.site_opening.specs.declared.files.FileFault.{FileFault};
ghost use Rattle.site_check.specs.Descriptors.{descriptor_lines, limit_line, need_line};

use crate::fault::CheckFault;
use crate::problem::{Place, Warning, warn};
use shown_text::print_text;
use site_config::Config;
use site_opening::{descriptor_limit, needed_descriptors};
use std::alloc::Global;
use std::io::{self, Write};
use std::rt::Files;

// Writes that there may be fewer than are needed, where that is so.
fn warn_of_limit<W: Write>(
    file: &str,
    need: usize,
    most: Option<u32>,
    writer: &mut W,
) -> io::Result<()>
    ensures { OnOk result (Appends (W.contents writer.old) (W.contents writer.new) (limit_line file.now need most)) }
{
    match most {
        Some(most) if (most as usize) < need => {
            warn(
                Place::File(file),
                Warning::FewDescriptors(most, need),
                writer,
            )
        }
        _ => Ok(()),
    }
}

// Writes how many are needed.
fn print_need<W: Write>(file: &str, need: usize, writer: &mut W) -> io::Result<()>
    ensures { OnOk result (Appends (W.contents writer.old) (W.contents writer.new) (need_line file.now need)) }
{
    print_text(file, writer)?;
    writeln!(writer, ": slpda can need {need} descriptors")
}

/// Writes how many descriptors a server of the configuration in a file can need, and that this process may have fewer, where that is so.
pub(crate) fn tell_descriptors<R: Files, W: Write>(
    rt: &R,
    alloc: Global,
    file: &str,
    config: &Config,
    writer: &mut W,
) -> Result<(), CheckFault>
    requires { IsWithin config.now }
    ensures { OnOk result ((limits : Result (List ℕ) FileFault)
        × Appends (W.contents writer.old) (W.contents writer.new) (descriptor_lines file.now (length config.now.listen) config.now.connections limits)) }
{
    let need = needed_descriptors(config);
    print_need(file, need, writer)?;
    let most = descriptor_limit(rt, alloc)?;
    warn_of_limit(file, need, most, writer)?;
    Ok(())
}
