//! A look at each file of a site.
ghost use Rattle.std.specs.Prelude.{◌≡◌, ◌≢◌, ◌++◌, IfOk, List, Ok, OnOk, Some, codes, map, option_and_then, option_map, string_bytes};
ghost use Rattle.std.specs.FinMap as fin;
ghost use Rattle.std.specs.Io.KnownBytes.{Appends};
ghost use Rattle.std.specs.Option.{option_copied, option_map_or};
ghost use Rattle.std.specs.Result.{result_and, result_ok, result_unwrap_or};
ghost use Rattle.service_url.specs.Types.{type_of};
ghost use Rattle.srv_template.specs.Templates.{added_to};
ghost use Rattle.site_config.specs.Configurations.{IsWithin};
ghost use Rattle.site_opening.specs.Openings.{rules_start_of, started, templates_and};
ghost use Rattle.site_opening.specs.Statuses.{config_start, file_start, opening_status, start_status, template_start};
ghost use Rattle.slp_text.specs.Reading.{read_map};
ghost use Rattle.site_check.specs.ConfigFaults.{config_lines};
ghost use Rattle.site_check.specs.NotToml.{AppendsStopped};
ghost use Rattle.site_check.specs.SiteLines.{AreNamed, AreRead, ReadTemplate, ReadToml, SiteReads, StopsWithin, addition_line, each_template_lines, fault_text, file_lines, named_file_lines, named_lines, named_rule_lines, rule_text_lines, site_lines, template_kind, template_text_lines, template_warning, templates_with, unread_line};
ghost use Rattle.site_check.specs.SiteStatus.{named_begun, rule_file_begun, site_begun, templates_begun};

use crate::config_faults::explain_config;
use crate::descriptors::tell_descriptors;
use crate::fault::CheckFault;
use crate::listening::warn_of_listen;
use crate::problem::{FileText, Place, Problem, Warning, report, warn};
use crate::rule_faults::explain_rules;
use crate::template_faults::{explain_template, warn_of_defaults};
use crate::warnings::{warn_of_rules, warn_of_stand};
use access_rules::Rules;
use rule_files::{RuleFault, rules_of_text};
use service_url::{ServiceType, UrlFault};
use shown_text::print_text;
use site_config::{Config, ConfigFault};
use site_opening::{FileFault, StartFault, read};
use slp_scopes::ScopeList;
use slp_text::{NoMemory, Text};
use srv_template::{ParseFault, Template, Templates};
use std::alloc::Global;
use std::io::Write;
use std::rt::Files;
use template_files::template_of_text;

// Why a file has no text.
fn fault_words(fault: FileFault) -> &'static str
    ensures { result.now ≡ fault_text fault }
{
    match fault {
        FileFault::Missing => "there is no such file",
        FileFault::Unread => "it cannot be read",
        FileFault::NotText => "it is not UTF-8",
        FileFault::NoMemory => "out of memory",
    }
}

// Writes why a file has no text, and answers why a server would not start on it. Want of memory says nothing of the file.
fn report_unread<W: Write>(
    file: &str,
    fault: FileFault,
    writer: &mut W,
) -> Result<StartFault, CheckFault>
    ensures { IfOk result (λ told. (told ≡ file_start fault)
        × Appends (W.contents writer.old) (W.contents writer.new) (unread_line file.now fault)) }
{
    if matches!(fault, FileFault::NoMemory) {
        return Err(CheckFault::NoMemory);
    }
    print_text(file, writer)?;
    let words = fault_words(fault);
    writeln!(writer, ": {words}")?;
    Ok(StartFault::from(fault))
}

// The rules that a text is, or why a server would not start on it. What is wrong with them, and what is surely not meant, is written.
fn look_at_rule_text<W: Write>(
    alloc: Global,
    file: FileText<'_>,
    scopes: &ScopeList,
    writer: &mut W,
) -> Result<Result<Rules, StartFault>, CheckFault>
    ensures { IfOk result (λ rules. (rules ≡ rules_start_of (Some file.entry.text.now))
        × AppendsStopped (W.contents writer.old) (W.contents writer.new) file.entry.text.now (rule_text_lines file.entry.path.now scopes.now file.entry.text.now)) }
{
    match rules_of_text(alloc, file.text) {
        Ok(rules) => match warn_of_rules(file.path, &rules, scopes, writer) {
            Ok(()) => Ok(Ok(rules)),
            Err(fault) => {
                drop(rules);
                Err(fault)
            }
        },
        Err(RuleFault::NoMemory) => Err(CheckFault::NoMemory),
        Err(fault) => {
            explain_rules(alloc, file, writer)?;
            Ok(Err(StartFault::from(fault)))
        }
    }
}

// The rules in a file, the same way.
fn look_at_rule_file<R: Files, W: Write>(
    rt: &R,
    alloc: Global,
    path: &str,
    scopes: &ScopeList,
    writer: &mut W,
) -> Result<Result<Rules, StartFault>, CheckFault>
    ensures { IfOk result (λ rules. (r : ReadToml) × StopsWithin r × (rules ≡ rule_file_begun r)
        × Appends (W.contents writer.old) (W.contents writer.new) (file_lines path.now (λ text. rule_text_lines path.now scopes.now text r.stop) r.read)) }
{
    match read(rt, alloc, path) {
        Ok(text) => {
            let file = FileText {
                path,
                text: text.as_str(),
            };
            look_at_rule_text(alloc, file, scopes, writer)
        }
        Err(fault) => {
            let told = report_unread(path, fault, writer)?;
            Ok(Err(told))
        }
    }
}

// The rules in the file that a configuration names, the same way, if it names one.
fn look_at_rules<R: Files, W: Write>(
    rt: &R,
    alloc: Global,
    path: &str,
    config: &Config,
    writer: &mut W,
) -> Result<Option<Result<Rules, StartFault>>, CheckFault>
    ensures { IfOk result (λ rules. (r : ReadToml) × StopsWithin r × (rules ≡ option_map (λ file. rule_file_begun r) config.now.rules)
        × Appends (W.contents writer.old) (W.contents writer.new) (named_rule_lines path.now config.now.scopes config.now.rules r)) }
{
    match &config.rules {
        Some(file) => {
            let rules = look_at_rule_file(rt, alloc, file.as_str(), &config.scopes, writer)?;
            Ok(Some(rules))
        }
        None => {
            warn(Place::File(path), Warning::NoRuleFile, writer)?;
            Ok(None)
        }
    }
}

// The type that a text names, if it names one.
fn kind_in(alloc: Global, text: &str) -> Result<Option<ServiceType>, CheckFault>
    ensures { IfOk result (λ kind. kind ≡ result_ok (type_of text.now)) }
{
    match ServiceType::parse(alloc, text) {
        Ok(kind) => Ok(Some(kind)),
        Err(UrlFault::NoMemory) => Err(CheckFault::NoMemory),
        Err(_) => Ok(None),
    }
}

// The text of the type of a template.
fn kind_text(alloc: Global, template: &Template) -> Result<String, NoMemory>
    ensures { IfOk result (λ text. string_bytes text ≡ codes "service:" ++ template.now.name) }
{
    let mut text = String::from_str(alloc, "service:")?;
    text.push_str(template.name())?;
    Ok(text)
}

// The type of a template.
fn kind_of(alloc: Global, template: &Template) -> Result<Option<ServiceType>, CheckFault>
    ensures { IfOk result (λ kind. kind ≡ template_kind template.now) }
{
    let text = kind_text(alloc, template)?;
    kind_in(alloc, text.as_str())
}

// Writes that no rule lets anyone register a service of the type of a template, or none but rules about every type, where that is so.
fn warn_of_template<W: Write>(
    alloc: Global,
    file: &str,
    template: &Template,
    rules: Option<&Rules>,
    writer: &mut W,
) -> Result<(), CheckFault>
    ensures { OnOk result (Appends (W.contents writer.old) (W.contents writer.new) (template_warning file.now (option_copied rules.entry) template.now)) }
{
    let Some(rules) = rules else {
        return Ok(());
    };
    let kind = kind_of(alloc, template)?;
    warn_of_stand(Place::File(file), kind.as_ref(), rules.as_slice(), writer)?;
    Ok(())
}

// Adds a template to others, or answers why a server would not start. That one is of its type is written.
fn add_template<W: Write>(
    file: &str,
    template: Template,
    templates: &mut Templates,
    writer: &mut W,
) -> Result<Result<(), StartFault>, CheckFault>
    ensures { IfOk result (λ told. (templates.new ≡ result_unwrap_or (added_to templates.old template) templates.old)
        × (read_map (λ added. templates.new) told ≡ started template_start (added_to templates.old template))
        × Appends (W.contents writer.old) (W.contents writer.new) (addition_line file.now (added_to templates.old template))) }
{
    match templates.add(template) {
        Ok(()) => Ok(Ok(())),
        Err(ParseFault::TwiceType) => {
            report(Place::File(file), Problem::SameType, writer)?;
            Ok(Err(StartFault::from(ParseFault::TwiceType)))
        }
        Err(_) => Err(CheckFault::NoMemory),
    }
}

// Adds the template that a text is to others, or answers why a server would not start. What is wrong with it, and what is surely not meant, is written.
fn look_at_template<W: Write>(
    alloc: Global,
    file: FileText<'_>,
    rules: Option<&Rules>,
    templates: &mut Templates,
    writer: &mut W,
) -> Result<Result<(), StartFault>, CheckFault>
    ensures { IfOk result (λ told. (templates.new ≡ templates_with templates.old file.entry.text.now)
        × (read_map (λ added. templates.new) told ≡ templates_and templates.old file.entry.text.now)
        × Appends (W.contents writer.old) (W.contents writer.new) (template_text_lines file.entry.path.now (option_copied rules.entry) templates.old file.entry.text.now)) }
{
    match template_of_text(alloc, file.text) {
        Ok(template) => {
            warn_of_template(alloc, file.path, &template, rules, writer)?;
            warn_of_defaults(alloc, file, writer)?;
            add_template(file.path, template, templates, writer)
        }
        Err(ParseFault::Line(line)) => {
            explain_template(alloc, file, line, writer)?;
            Ok(Err(StartFault::from(ParseFault::Line(line))))
        }
        Err(_) => Err(CheckFault::NoMemory),
    }
}

// Looks at the templates in files, and answers the first reason why a server would not start on them.
fn look_at_templates<R: Files, W: Write>(
    rt: &R,
    alloc: Global,
    paths: &[Text],
    rules: Option<&Rules>,
    writer: &mut W,
) -> Result<Result<(), StartFault>, CheckFault>
    ensures { IfOk result (λ told. (read : List ReadTemplate) × (map (λ t. t.path) read ≡ paths.now)
        × (opening_status told ≡ opening_status (templates_begun fin.empty read))
        × Appends (W.contents writer.old) (W.contents writer.new) (each_template_lines (option_copied rules.entry) fin.empty read)) }
{
    let mut templates = Templates::new(alloc);
    let mut told = Ok(());
    for path in paths {
        let path = path.as_str();
        let added = match read(rt, alloc, path) {
            Ok(text) => {
                let file = FileText {
                    path,
                    text: text.as_str(),
                };
                look_at_template(alloc, file, rules, &mut templates, writer)?
            }
            Err(fault) => Err(report_unread(path, fault, writer)?),
        };
        told = told.and(added);
    }
    Ok(told)
}

// The rules in the file that is named, where it is read and taken.
fn taken_rules(rules: &Option<Result<Rules, StartFault>>) -> Option<&Rules>
    ensures { option_copied result ≡ option_and_then result_ok rules.now }
{
    match rules {
        Some(Ok(rules)) => Some(rules),
        _ => None,
    }
}

// The status with which a server would not start on rules, if a file of them is named, and then on templates, else 0.
fn named_status(rules: &Option<Result<Rules, StartFault>>, templates: Result<(), StartFault>) -> u8
    ensures { result ≡ option_map_or (λ told. opening_status (result_and told templates)) rules.now (opening_status templates) }
{
    if let Some(Err(fault)) = rules {
        return fault.status();
    }
    match templates {
        Ok(()) => 0,
        Err(fault) => fault.status(),
    }
}

// Looks at the files that the configuration in a file names, and answers the status with which a server would not start on them, else 0.
fn look_at_files<R: Files, W: Write>(
    rt: &R,
    alloc: Global,
    path: &str,
    config: &Config,
    writer: &mut W,
) -> Result<u8, CheckFault>
    ensures { IfOk result (λ status. (s : SiteReads) × AreNamed s config.now
        × (status ≡ opening_status (named_begun s config.now))
        × Appends (W.contents writer.old) (W.contents writer.new) (named_file_lines path.now s config.now)) }
{
    let rules = look_at_rules(rt, alloc, path, config, writer)?;
    let templates = look_at_templates(
        rt,
        alloc,
        config.templates.as_slice(),
        taken_rules(&rules),
        writer,
    )?;
    Ok(named_status(&rules, templates))
}

// Looks at what a configuration says: its addresses, how many descriptors it needs, and the files that it names; with the same answer.
fn look_at_named<R: Files, W: Write>(
    rt: &R,
    alloc: Global,
    path: &str,
    config: &Config,
    writer: &mut W,
) -> Result<u8, CheckFault>
    requires { IsWithin config.now }
    ensures { IfOk result (λ status. (s : SiteReads) × AreNamed s config.now
        × (status ≡ opening_status (named_begun s config.now))
        × Appends (W.contents writer.old) (W.contents writer.new) (named_lines path.now s config.now)) }
{
    warn_of_listen(path, config.listen.as_slice(), writer)?;
    tell_descriptors(rt, alloc, path, config, writer)?;
    look_at_files(rt, alloc, path, config, writer)
}

// Writes what is wrong with a text that is refused as a configuration, and answers the status. Want of memory says nothing of the text.
fn explain_refused<W: Write>(
    alloc: Global,
    fault: ConfigFault,
    file: FileText<'_>,
    writer: &mut W,
) -> Result<u8, CheckFault>
    ensures status { IfOk result (λ status. status ≡ start_status (config_start fault)) }
    ensures written { OnOk result (AppendsStopped (W.contents writer.old) (W.contents writer.new) file.entry.text.now (config_lines file.entry.path.now file.entry.text.now)) }
    ensures text { OnOk result (fault ≢ ConfigFault.NoMemory) }
{
    match fault {
        ConfigFault::NoMemory => Err(CheckFault::NoMemory),
        _ => {
            explain_config(alloc, file, writer)?;
            Ok(StartFault::from(fault).status())
        }
    }
}

// Looks at the text of a configuration and at the files that it names, and answers the status with which a server would not start.
fn look_at_config<R: Files, W: Write>(
    rt: &R,
    alloc: Global,
    file: FileText<'_>,
    writer: &mut W,
) -> Result<u8, CheckFault>
    ensures { IfOk result (λ status. (s : SiteReads) × (s.config.read ≡ Ok file.entry.text.now) × AreRead s
        × (status ≡ opening_status (site_begun s))
        × Appends (W.contents writer.old) (W.contents writer.new) (site_lines file.entry.path.now s)) }
{
    match Config::from_text(alloc, file.text) {
        Ok(config) => {
            let told = look_at_named(rt, alloc, file.path, &config, writer);
            drop(config);
            told
        }
        Err(fault) => explain_refused(alloc, fault, file, writer),
    }
}

/// Looks at the configuration in a file and at the files that it names, and writes what is wrong with each, and what is lawful and
/// surely not meant. Where the configuration is refused that is all. It answers the status with which a server would not start on
/// what was read, else 0. Each file is read once.
pub(crate) fn look_at_site<R: Files, W: Write>(
    rt: &R,
    alloc: Global,
    path: &str,
    writer: &mut W,
) -> Result<u8, CheckFault>
    ensures { IfOk result (λ status. (s : SiteReads) × AreRead s × (status ≡ opening_status (site_begun s))
        × Appends (W.contents writer.old) (W.contents writer.new) (site_lines path.now s)) }
{
    match read(rt, alloc, path) {
        Ok(text) => {
            let file = FileText {
                path,
                text: text.as_str(),
            };
            look_at_config(rt, alloc, file, writer)
        }
        Err(fault) => {
            let told = report_unread(path, fault, writer)?;
            Ok(told.status())
        }
    }
}
