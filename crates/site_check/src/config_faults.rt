//! Which keys of a configuration are at fault.
ghost use Rattle.std.specs.Prelude.{◌≡◌, OnOk, flat_map};
ghost use Rattle.std.specs.Io.KnownBytes.{Appends};
ghost use Rattle.toml.specs.Errors.{IsMemory, span_start};
ghost use Rattle.toml.specs.View.{table_view, view};
ghost use Rattle.toml_tables.specs.Tables as tables;
ghost use Rattle.site_config.specs.Tables.{members_in};
ghost use Rattle.site_check.specs.ConfigFaults.{config_lines, config_table_lines, key_line, part_lines, unknown_line};
ghost use Rattle.site_check.specs.NotToml.{AppendsStopped, Stop, not_toml_line};

use crate::elements::{elements_of, explain_listen};
use crate::fault::CheckFault;
use crate::problem::{FileText, LONGEST_TEXT, Place, Problem, line_at, report};
use site_config::{CONFIG_KEYS, ConfigFault, ConfigKey, keys};
use std::alloc::Global;
use std::io::{self, Write};
use toml::{Table, Value};

// Writes which elements of the value of a key are wrong.
fn explain_parts<W: Write>(
    file: &str,
    key: ConfigKey,
    table: &Value,
    writer: &mut W,
) -> io::Result<()>
    ensures { OnOk result (Appends (W.contents writer.old) (W.contents writer.new) (part_lines file.now (members_in (view table.now)) key)) }
{
    match key {
        ConfigKey::Listen => explain_listen(file, elements_of(table.get("listen")), writer),
        _ => Ok(()),
    }
}

// Writes what is wrong with the value of a key, if anything is.
fn explain_key<W: Write>(
    alloc: Global,
    file: &str,
    key: ConfigKey,
    table: &Value,
    writer: &mut W,
) -> Result<(), CheckFault>
    ensures { OnOk result (Appends (W.contents writer.old) (W.contents writer.new) (key_line file.now (members_in (view table.now)) key)) }
{
    let (text, refusal) = key.texts();
    let problem = match key.fault(alloc, table) {
        None => return Ok(()),
        Some(ConfigFault::NoMemory) => return Err(CheckFault::NoMemory),
        Some(ConfigFault::Missing) => Problem::Missing(text),
        Some(ConfigFault::Range | ConfigFault::Toml) => Problem::Value(text, refusal),
    };
    report(Place::File(file), problem, writer)?;
    explain_parts(file, key, table, writer)?;
    Ok(())
}

// Writes what is wrong with the values of some keys.
fn explain_keys<W: Write>(
    alloc: Global,
    file: &str,
    keys: &[ConfigKey],
    table: &Value,
    writer: &mut W,
) -> Result<(), CheckFault>
    ensures { OnOk result (Appends (W.contents writer.old) (W.contents writer.new) (flat_map (key_line file.now (members_in (view table.now))) keys.now)) }
{
    for key in keys {
        explain_key(alloc, file, *key, table, writer)?;
    }
    Ok(())
}

// Writes a key that no configuration has.
fn explain_unknown<W: Write>(file: &str, key: &str, writer: &mut W) -> io::Result<()>
    ensures { OnOk result (Appends (W.contents writer.old) (W.contents writer.new) (unknown_line file.now key.now)) }
{
    if keys::is_known(key) {
        return Ok(());
    }
    report(Place::File(file), Problem::UnknownKey(key), writer)
}

// Writes the keys of a table that no configuration has.
fn explain_others<W: Write>(file: &str, table: &Table, writer: &mut W) -> io::Result<()>
    ensures { OnOk result (Appends (W.contents writer.old) (W.contents writer.new) (flat_map (unknown_line file.now) (tables.keys_of (table_view table.now)))) }
{
    for key in table.keys() {
        explain_unknown(file, key.as_str(), writer)?;
    }
    Ok(())
}

// The same of a value that may be a table.
fn explain_others_in<W: Write>(file: &str, table: &Value, writer: &mut W) -> io::Result<()>
    ensures { OnOk result (Appends (W.contents writer.old) (W.contents writer.new) (flat_map (unknown_line file.now) (tables.keys_of (members_in (view table.now))))) }
{
    match table.as_table() {
        Some(table) => explain_others(file, table, writer),
        None => Ok(()),
    }
}

// Writes what is wrong with a table as a configuration.
fn explain_table<W: Write>(
    alloc: Global,
    file: &str,
    table: &Value,
    writer: &mut W,
) -> Result<(), CheckFault>
    ensures { OnOk result (Appends (W.contents writer.old) (W.contents writer.new) (config_table_lines file.now (members_in (view table.now)))) }
{
    explain_keys(alloc, file, &CONFIG_KEYS, table, writer)?;
    explain_others_in(file, table, writer)?;
    Ok(())
}

/// Writes that a text is not TOML.
pub(crate) fn explain_toml<W: Write>(
    file: FileText<'_>,
    fault: &toml::de::Error,
    writer: &mut W,
) -> Result<(), CheckFault>
    ensures written { OnOk result ((stop : Stop) × (stop.place ≡ span_start fault.now) × Appends (W.contents writer.old) (W.contents writer.new) (not_toml_line file.entry.path.now file.entry.text.now stop)) }
    ensures text { OnOk result (¬ IsMemory fault.now) }
{
    let Some(span) = fault.span() else {
        return Err(CheckFault::NoMemory);
    };
    let place = Place::Line(file.path, line_at(file.text, span.start));
    report(place, Problem::NotToml(fault.message()), writer)?;
    Ok(())
}

/// Writes what is wrong with a text as a configuration, each key by itself.
pub(crate) fn explain_config<W: Write>(
    alloc: Global,
    file: FileText<'_>,
    writer: &mut W,
) -> Result<(), CheckFault>
    ensures { OnOk result (AppendsStopped (W.contents writer.old) (W.contents writer.new) file.entry.text.now (config_lines file.entry.path.now file.entry.text.now)) }
{
    if file.text.len() > LONGEST_TEXT {
        report(Place::File(file.path), Problem::TooLong, writer)?;
        return Ok(());
    }
    match toml::table_from_str(alloc, file.text) {
        Ok(table) => {
            let table = Value::Table(table);
            let told = explain_table(alloc, file.path, &table, writer);
            drop(table);
            told
        }
        Err(fault) => explain_toml(file, &fault, writer),
    }
}
