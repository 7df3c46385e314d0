//! Values of a table, by their kinds and within their limits.
ghost use Rattle.std.specs.Prelude.{◌≡◌, ◌≤◌, ◌<◌, ◌^◌, map, length, IfOk, OnErr, IsTrue};
ghost use Rattle.toml.specs.Data.{as_str};
ghost use Rattle.toml.specs.View.{view};
ghost use Rattle.toml_tables.specs.Tables.{number_in, each_in, array_in};
ghost use Rattle.site_config.specs.Configurations as spec;
ghost use Rattle.site_config.specs.Configurations.{in_range, scopes_in, path_in, templates_in, IsReading};
ghost use Rattle.site_config.specs.declared.fault.ConfigFault.TheVariants as fault;

use crate::fault::ConfigFault;
use slp_scopes::ScopeList;
use slp_text::{Row, Text, TextFault};
use std::alloc::Global;
use toml::Value;

/// The most scopes of a site.
const MOST_SCOPES: usize = 16;

/// The bytes of the longest list of them, printed.
const LONGEST_SCOPES: usize = 1_024;

/// The most templates.
const MOST_TEMPLATES: usize = 256;

/// The whole number from `low` to `high` that a value is.
pub fn number(value: &Value, low: u32, high: u32) -> Result<u32, ConfigFault>
    ensures value { result ≡ in_range (number_in low high (view value.now)) }
    ensures low { IfOk result (λ n. low ≤ n) }
    ensures high { IfOk result (λ n. n ≤ high) }
{
    match value.as_integer() {
        Some(n) if n >= i64::from(low) && n <= i64::from(high) => Ok(n as u32),
        _ => Err(ConfigFault::Range),
    }
}

// Whether there are 1 to 16 scopes, whose printed list has at most 1,024 bytes.
fn are_site_scopes(alloc: Global, scopes: &ScopeList) -> Result<bool, ConfigFault>
    ensures value { IfOk result (λ b. b ≡ spec.are_site_scopes scopes.now) }
    ensures memory { OnErr result (result ≡ Err fault.NoMemory) }
{
    let mut printed = String::new(alloc);
    scopes.print_into(&mut printed)?;
    Ok(!scopes.is_empty() && scopes.len() <= MOST_SCOPES && printed.len() <= LONGEST_SCOPES)
}

/// The scopes that a value names.
pub fn scopes(alloc: Global, value: &Value) -> Result<ScopeList, ConfigFault>
    ensures value { IsReading result (in_range (scopes_in (view value.now))) }
    ensures limits { IfOk result (λ scopes. IsTrue (spec.are_site_scopes scopes)) }
{
    let Some(text) = value.as_str() else {
        return Err(ConfigFault::Range);
    };
    let scopes = match ScopeList::parse(alloc, text) {
        Ok(scopes) => scopes,
        Err(TextFault::NoMemory) => return Err(ConfigFault::NoMemory),
        Err(_) => return Err(ConfigFault::Range),
    };
    if !are_site_scopes(alloc, &scopes)? {
        return Err(ConfigFault::Range);
    }
    Ok(scopes)
}

/// The path that a value is.
pub fn path(alloc: Global, value: &Value) -> Result<Text, ConfigFault>
    ensures { IsReading result (in_range (as_str (view value.now))) }
{
    let Some(path) = value.as_str() else {
        return Err(ConfigFault::Range);
    };
    Ok(Text::wrap(String::from_str(alloc, path)?))
}

#[tactic(auto, using(toml_tables::proofs::Arrays::read_one, toml_tables::proofs::Arrays::read_none))]
fn paths(alloc: Global, values: &[Value]) -> Result<Row<Text>, ConfigFault>
    ensures { IsReading result (in_range (each_in as_str (map view values.now))) }
{
    let mut paths = Vec::new(alloc);
    for value in values {
        let Some(path) = value.as_str() else {
            return Err(ConfigFault::Range);
        };
        paths.push(Text::wrap(String::from_str(alloc, path)?))?;
    }
    Ok(Row::wrap(paths))
}

#[tactic(auto, using(toml_tables::proofs::Arrays::read_array))]
fn listed(alloc: Global, value: &Value) -> Result<Row<Text>, ConfigFault>
    ensures { IsReading result (in_range (array_in as_str (view value.now))) }
{
    match value.as_array() {
        Some(values) => paths(alloc, values.as_slice()),
        None => Err(ConfigFault::Range),
    }
}

/// The paths of templates that a value is.
#[tactic(auto, using(crate::proofs::Readings::refused_too))]
pub fn templates(alloc: Global, value: &Value) -> Result<Row<Text>, ConfigFault>
    ensures value { IsReading result (in_range (templates_in (view value.now))) }
    ensures limit { IfOk result (λ paths. length paths ≤ 256) }
{
    let paths = listed(alloc, value)?;
    if paths.as_slice().len() > MOST_TEMPLATES {
        return Err(ConfigFault::Range);
    }
    Ok(paths)
}
