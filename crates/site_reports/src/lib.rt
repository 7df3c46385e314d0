//! What is printed of a configuration, a template or a rule file: that it is taken, or the number of its fault.
#![tactic(auto)]

ghost use Rattle.std.specs.Prelude.{OnOk};
ghost use Rattle.std.specs.Io.KnownBytes.{Appends};
ghost use Rattle.site_reports.specs.Reports.{config_fault_text, config_text, refusal_text, rule_fault_text, rules_text, template_fault_text, template_text};

use rule_files::RuleFault;
use site_config::ConfigFault;
use srv_template::ParseFault;
use std::io::{self, Write};

// Writes that something of a kind is refused, for the fault of this number.
fn print_refusal<W: Write>(kind: &str, number: u8, writer: &mut W) -> io::Result<()>
    ensures { OnOk result (Appends (W.contents writer.old) (W.contents writer.new) (refusal_text kind.now number)) }
{
    writeln!(writer, "! {kind} {number}")
}

/// Writes why a configuration is refused.
pub fn print_config_fault<W: Write>(fault: ConfigFault, writer: &mut W) -> io::Result<()>
    ensures { OnOk result (Appends (W.contents writer.old) (W.contents writer.new) (config_fault_text fault)) }
{
    let number = match fault {
        ConfigFault::Toml => 1,
        ConfigFault::Missing => 2,
        ConfigFault::Range => 3,
        ConfigFault::NoMemory => 4,
    };
    print_refusal("config", number, writer)
}

/// Writes what came of a configuration.
pub fn print_config<W: Write>(told: Result<(), ConfigFault>, writer: &mut W) -> io::Result<()>
    ensures { OnOk result (Appends (W.contents writer.old) (W.contents writer.new) (config_text told)) }
{
    match told {
        Ok(()) => writer.write_all(b"# config\n"),
        Err(fault) => print_config_fault(fault, writer),
    }
}

/// Writes why a template is refused.
pub fn print_template_fault<W: Write>(fault: ParseFault, writer: &mut W) -> io::Result<()>
    ensures { OnOk result (Appends (W.contents writer.old) (W.contents writer.new) (template_fault_text fault)) }
{
    let number = match fault {
        ParseFault::Line(_) => 1,
        ParseFault::TwiceType => 2,
        ParseFault::NoMemory => 3,
        ParseFault::TooMany => 4,
    };
    print_refusal("template", number, writer)
}

/// Writes what came of a template.
pub fn print_template<W: Write>(told: Result<(), ParseFault>, writer: &mut W) -> io::Result<()>
    ensures { OnOk result (Appends (W.contents writer.old) (W.contents writer.new) (template_text told)) }
{
    match told {
        Ok(()) => writer.write_all(b"# template\n"),
        Err(fault) => print_template_fault(fault, writer),
    }
}

/// Writes why a rule file is refused.
pub fn print_rules_fault<W: Write>(fault: RuleFault, writer: &mut W) -> io::Result<()>
    ensures { OnOk result (Appends (W.contents writer.old) (W.contents writer.new) (rule_fault_text fault)) }
{
    let number = match fault {
        RuleFault::Shape(_) => 1,
        RuleFault::TwiceName => 2,
        RuleFault::NoMemory => 3,
        RuleFault::Toml => 4,
    };
    print_refusal("rules", number, writer)
}

/// Writes what came of a rule file.
pub fn print_rules<W: Write>(told: Result<usize, RuleFault>, writer: &mut W) -> io::Result<()>
    ensures { OnOk result (Appends (W.contents writer.old) (W.contents writer.new) (rules_text told)) }
{
    match told {
        Ok(number) => writeln!(writer, "# rules {number}"),
        Err(fault) => print_rules_fault(fault, writer),
    }
}
