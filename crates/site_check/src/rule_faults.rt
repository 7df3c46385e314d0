//! Which rules and hide tables of a rule file are at fault.
ghost use Rattle.std.specs.Prelude.{◌≡◌, ◌+◌, ◌^◌, ◌<◌, OnOk, flat_map, length, map};
ghost use Rattle.std.specs.Io.KnownBytes.{Appends};
ghost use Rattle.std.specs.List.{enumerate_from};
ghost use Rattle.std.specs.Option.{option_copied, option_map};
ghost use Rattle.toml.specs.View.{table_view, view};
ghost use Rattle.toml_tables.specs.Tables as tables;
ghost use Rattle.site_check.specs.Lines.{place_in, problem_in};
ghost use Rattle.site_check.specs.NotToml.{AppendsStopped};
ghost use Rattle.site_check.specs.RuleFaults as spec;
ghost use Rattle.site_check.specs.RuleFaults.{all_lines, array_line, file_key_line, has_name, hide_lines, name_given, name_line, rule_file_lines, rule_lines, rule_table_lines, version_line};

use crate::config_faults::explain_toml;
use crate::elements::elements_at;
use crate::fault::CheckFault;
use crate::problem::{FileText, LONGEST_TEXT, Numbered, Place, Problem, report};
use crate::rule_keys::{explain_value, hide_keys, keys_of};
use rule_files::{Version, fields};
use std::alloc::Global;
use std::io::{self, Write};
use toml::{Table, Value};
use toml_tables::{array_values, value_at};

/// The most rules and hide tables of a file.
const MOST_RULES: usize = 1_024;

// The name that a value gives a rule or a hide table, if it is a text.
fn name_of(value: &Value) -> Option<&str>
    ensures { option_copied result ≡ name_given (view value.now) }
{
    value_at(value.as_table()?, "name")?.as_str()
}

// Whether a value gives this name.
fn has_name(name: &str, value: &Value) -> bool
    ensures { result ≡ has_name name.now (view value.now) }
{
    match name_of(value) {
        Some(given) => name == given,
        None => false,
    }
}

// The number of the first value with a name, where they are numbered from `first`.
fn number_named(name: &str, first: usize, values: &[Value]) -> Option<usize>
    requires { first + length values.now < 2 ^ 64 }
    ensures { result ≡ spec.number_named name.now first (map view values.now) }
{
    for (i, value) in values.iter().enumerate() {
        if has_name(name, value) {
            return Some(first + i);
        }
    }
    None
}

// Which of some rules has a name, or of the hide tables after them.
fn named(name: &str, rules: &[Value], hides: &[Value]) -> Option<Numbered>
    ensures { result ≡ spec.named name.now (map view rules.now) (map view hides.now) }
{
    if let Some(number) = number_named(name, 1, rules) {
        return Some(Numbered::Rule(number));
    }
    let number = number_named(name, rules.len() + 1, hides)?;
    Some(Numbered::Hide(number))
}

// Writes which earlier rule or hide table has the name of one, if there is one.
fn explain_name<W: Write>(
    place: Place<'_>,
    name: Option<&str>,
    rules: &[Value],
    hides: &[Value],
    writer: &mut W,
) -> io::Result<()>
    ensures { OnOk result (Appends (W.contents writer.old) (W.contents writer.new) (name_line (place_in place.entry) (option_copied name.entry) (map view rules.now) (map view hides.now))) }
{
    let Some(name) = name else {
        return Ok(());
    };
    match named(name, rules, hides) {
        Some(other) => report(place, Problem::SameName(other), writer),
        None => Ok(()),
    }
}

/// A rule file by its path, and the values of its rules.
#[derive(Clone, Copy)]
struct RuleFile<'a> {
    path: &'a str,
    rules: &'a [Value],
}

// Writes what is wrong with a value as a rule, which has this index among those of the file.
fn explain_rule<W: Write>(
    alloc: Global,
    version: Option<Version>,
    file: RuleFile<'_>,
    indexed: (usize, &Value),
    writer: &mut W,
) -> Result<(), CheckFault>
    requires { indexed.0 < length file.rules.now }
    ensures { OnOk result (Appends (W.contents writer.old) (W.contents writer.new) (rule_lines file.entry.path.now version (map view file.entry.rules.now) (indexed.entry.0, view indexed.entry.1.now))) }
{
    let (index, value) = indexed;
    let name = name_of(value);
    let place = Place::Numbered(file.path, Numbered::Rule(index + 1), name);
    explain_value(alloc, keys_of(version), place, value, writer)?;
    explain_name(place, name, &file.rules[..index], &[], writer)?;
    Ok(())
}

// Writes what is wrong with values as the rules of a file.
fn explain_rules_in<W: Write>(
    alloc: Global,
    version: Option<Version>,
    file: RuleFile<'_>,
    writer: &mut W,
) -> Result<(), CheckFault>
    ensures { OnOk result (Appends (W.contents writer.old) (W.contents writer.new) (flat_map (rule_lines file.entry.path.now version (map view file.entry.rules.now)) (enumerate_from 0 (map view file.entry.rules.now)))) }
{
    for (i, value) in file.rules.iter().enumerate() {
        explain_rule(alloc, version, file, (i, value), writer)?;
    }
    Ok(())
}

// Writes what is wrong with a value as a hide table, which has this index among those of the file.
fn explain_hide<W: Write>(
    alloc: Global,
    file: RuleFile<'_>,
    hides: &[Value],
    indexed: (usize, &Value),
    writer: &mut W,
) -> Result<(), CheckFault>
    requires { indexed.0 < length hides.now }
    ensures { OnOk result (Appends (W.contents writer.old) (W.contents writer.new) (hide_lines file.entry.path.now (map view file.entry.rules.now) (map view hides.now) (indexed.entry.0, view indexed.entry.1.now))) }
{
    let (index, value) = indexed;
    let name = name_of(value);
    let number = file.rules.len() + index + 1;
    let place = Place::Numbered(file.path, Numbered::Hide(number), name);
    explain_value(alloc, hide_keys(), place, value, writer)?;
    explain_name(place, name, file.rules, &hides[..index], writer)?;
    Ok(())
}

// Writes what is wrong with values as the hide tables of a file, which come after its rules.
fn explain_hides_in<W: Write>(
    alloc: Global,
    file: RuleFile<'_>,
    hides: &[Value],
    writer: &mut W,
) -> Result<(), CheckFault>
    ensures { OnOk result (Appends (W.contents writer.old) (W.contents writer.new) (flat_map (hide_lines file.entry.path.now (map view file.entry.rules.now) (map view hides.now)) (enumerate_from 0 (map view hides.now)))) }
{
    for (i, value) in hides.iter().enumerate() {
        explain_hide(alloc, file, hides, (i, value), writer)?;
    }
    Ok(())
}

// Writes what is wrong with the version of a rule file.
fn explain_version<W: Write>(file: &str, table: &Table, writer: &mut W) -> io::Result<()>
    ensures { OnOk result (Appends (W.contents writer.old) (W.contents writer.new) (version_line file.now (table_view table.now))) }
{
    if fields::version(table).is_some() {
        return Ok(());
    }
    let problem = match value_at(table, "version") {
        None => Problem::Missing("version"),
        Some(_) => Problem::Value("version", "neither 1, 2 nor 3"),
    };
    report(Place::File(file), problem, writer)
}

// Whether a version is known, and has no hide tables.
fn is_before_hides(version: Option<Version>) -> bool
    ensures { result ≡ spec.is_before_hides version }
{
    matches!(version, Some(Version::One | Version::Two))
}

// What is wrong with a key of a file, if anything is.
fn file_key_fault(version: Option<Version>, key: &str) -> Option<Problem<'_>>
    ensures { option_map problem_in result ≡ spec.file_key_fault version key.now }
{
    match key {
        "version" | "rule" => None,
        "hide" if is_before_hides(version) => Some(Problem::EarlyHides),
        "hide" => None,
        other => Some(Problem::UnknownKey(other)),
    }
}

// Writes what is wrong with a key of a file, if anything is.
fn explain_file_key<W: Write>(
    file: &str,
    version: Option<Version>,
    key: &str,
    writer: &mut W,
) -> io::Result<()>
    ensures { OnOk result (Appends (W.contents writer.old) (W.contents writer.new) (file_key_line file.now version key.now)) }
{
    match file_key_fault(version, key) {
        Some(problem) => report(Place::File(file), problem, writer),
        None => Ok(()),
    }
}

// Writes which keys of a rule file no rule file of its version has.
fn explain_file_keys<W: Write>(
    file: &str,
    version: Option<Version>,
    table: &Table,
    writer: &mut W,
) -> io::Result<()>
    ensures { OnOk result (Appends (W.contents writer.old) (W.contents writer.new) (flat_map (file_key_line file.now version) (tables.keys_of (table_view table.now)))) }
{
    for key in table.keys() {
        explain_file_key(file, version, key.as_str(), writer)?;
    }
    Ok(())
}

// Writes that what stands at a key is no array, where that is so.
fn explain_array<W: Write>(file: &str, table: &Table, key: &str, writer: &mut W) -> io::Result<()>
    ensures { OnOk result (Appends (W.contents writer.old) (W.contents writer.new) (array_line file.now (table_view table.now) key.now)) }
{
    let Some(value) = value_at(table, key) else {
        return Ok(());
    };
    match array_values(value) {
        Some(_) => Ok(()),
        None => {
            let problem = Problem::Value(key, "not an array of tables");
            report(Place::File(file), problem, writer)
        }
    }
}

// Which of rules and hide tables there are too many of.
fn too_many(hides: &[Value]) -> Problem<'static>
    ensures { problem_in result ≡ spec.too_many (map view hides.now) }
{
    if hides.is_empty() {
        Problem::TooManyRules
    } else {
        Problem::TooManyTogether
    }
}

// Writes what is wrong with the rules and the hide tables of a file; where there are too many, that alone.
fn explain_all<W: Write>(
    alloc: Global,
    version: Option<Version>,
    file: RuleFile<'_>,
    hides: &[Value],
    writer: &mut W,
) -> Result<(), CheckFault>
    ensures { OnOk result (Appends (W.contents writer.old) (W.contents writer.new) (all_lines file.entry.path.now version (map view file.entry.rules.now) (map view hides.now))) }
{
    if file.rules.len() + hides.len() > MOST_RULES {
        report(Place::File(file.path), too_many(hides), writer)?;
        return Ok(());
    }
    explain_rules_in(alloc, version, file, writer)?;
    explain_hides_in(alloc, file, hides, writer)
}

// Writes what is wrong with a table as a rule file.
fn explain_table<W: Write>(
    alloc: Global,
    path: &str,
    table: &Table,
    writer: &mut W,
) -> Result<(), CheckFault>
    ensures { OnOk result (Appends (W.contents writer.old) (W.contents writer.new) (rule_table_lines path.now (table_view table.now))) }
{
    let version = fields::version(table);
    explain_version(path, table, writer)?;
    explain_file_keys(path, version, table, writer)?;
    explain_array(path, table, "rule", writer)?;
    explain_array(path, table, "hide", writer)?;
    let file = RuleFile {
        path,
        rules: elements_at(table, "rule"),
    };
    let hides = elements_at(table, "hide");
    explain_all(alloc, version, file, hides, writer)
}

/// Writes what is wrong with a text as a rule file, each key of each rule and hide table by itself.
pub(crate) fn explain_rules<W: Write>(
    alloc: Global,
    file: FileText<'_>,
    writer: &mut W,
) -> Result<(), CheckFault>
    ensures { OnOk result (AppendsStopped (W.contents writer.old) (W.contents writer.new) file.entry.text.now (rule_file_lines file.entry.path.now file.entry.text.now)) }
{
    if file.text.len() > LONGEST_TEXT {
        report(Place::File(file.path), Problem::TooLong, writer)?;
        return Ok(());
    }
    match toml::table_from_str(alloc, file.text) {
        Ok(table) => {
            let told = explain_table(alloc, file.path, &table, writer);
            drop(table);
            told
        }
        Err(fault) => explain_toml(file, &fault, writer),
    }
}
