//! Which keys of a rule or of a hide table are at fault.
ghost use Rattle.std.specs.Prelude.{◌≡◌, IfOk, OnOk, flat_map};
ghost use Rattle.std.specs.Io.KnownBytes.{Appends};
ghost use Rattle.std.specs.Option.{option_map};
ghost use Rattle.toml.specs.View.{table_view, view};
ghost use Rattle.toml_tables.specs.Tables as tables;
ghost use Rattle.site_check.specs.Lines.{place_in, problem_in};
ghost use Rattle.site_check.specs.RuleKeys as spec;
ghost use Rattle.site_check.specs.RuleKeys.{key_line, key_refusal, key_text, keys_in, other_line, part_lines, rule_keys, table_lines, value_lines};

use crate::elements::{elements_at, explain_from};
use crate::fault::CheckFault;
use crate::problem::{Place, Problem, report};
use rule_files::{Version, fields};
use slp_text::NoMemory;
use std::alloc::Global;
use std::io::{self, Write};
use toml::{Table, Value};
use toml_tables::value_at;

/// A key of a rule or of a hide table.
#[derive(Clone, Copy)]
pub(crate) enum RuleKey {
    Name,
    From,
    Action,
    Kind,
    Scopes,
    Verdict,
    Owner,
    Tags,
    SpareOwner,
}

const RULE_KEYS: [RuleKey; 7] = [
    RuleKey::Name,
    RuleKey::From,
    RuleKey::Action,
    RuleKey::Kind,
    RuleKey::Scopes,
    RuleKey::Verdict,
    RuleKey::Owner,
];

const HIDE_KEYS: [RuleKey; 6] = [
    RuleKey::Name,
    RuleKey::From,
    RuleKey::Kind,
    RuleKey::Scopes,
    RuleKey::Tags,
    RuleKey::SpareOwner,
];

/// The keys that a table may have in the version of its file, and those that it may have in a later one alone.
#[derive(Clone, Copy)]
pub(crate) struct Keys {
    known: &'static [RuleKey],
    later: &'static [RuleKey],
}

/// Those of a rule: that it is about owners comes with version 2.
pub(crate) fn keys_of(version: Option<Version>) -> Keys
    ensures { keys_in result ≡ rule_keys version }
{
    match version {
        Some(Version::One) => Keys {
            known: &RULE_KEYS[..6],
            later: &RULE_KEYS[6..],
        },
        _ => Keys {
            known: &RULE_KEYS,
            later: &[],
        },
    }
}

/// Those of a hide table.
pub(crate) fn hide_keys() -> Keys
    ensures { keys_in result ≡ spec.hide_keys }
{
    Keys {
        known: &HIDE_KEYS,
        later: &[],
    }
}

impl RuleKey {
    // What the key is called, and what a value that is refused is not.
    fn texts(self) -> (&'static str, &'static str)
        ensures text { result.0.now ≡ key_text self }
        ensures refusal { result.1.now ≡ key_refusal self }
    {
        match self {
            RuleKey::Name => ("name", "not 1 to 32 small letters, digits and \"-\""),
            RuleKey::From => ("from", "not an array of one or more prefixes \"a.b.c.d/n\""),
            RuleKey::Action => ("action", "neither \"register\", \"withdraw\" nor \"see\""),
            RuleKey::Kind => ("type", "neither \"*\" nor a service type"),
            RuleKey::Scopes => (
                "scopes",
                "neither [\"*\"] nor an array of one or more scopes",
            ),
            RuleKey::Verdict => ("verdict", "neither \"allow\" nor \"deny\""),
            RuleKey::Owner => ("owner", "neither true nor false"),
            RuleKey::Tags => ("tags", "not a tag list with one tag at least"),
            RuleKey::SpareOwner => ("spare-owner", "neither true nor false"),
        }
    }

    // Whether what stands at the key is taken.
    fn stands(self, alloc: Global, table: &Table) -> Result<bool, NoMemory>
        ensures { IfOk result (λ b. b ≡ spec.stands self (table_view table.now)) }
    {
        match self {
            RuleKey::Name => Ok(fields::name(alloc, table)?.is_some()),
            RuleKey::From => Ok(fields::from(alloc, table)?.is_some()),
            RuleKey::Action => Ok(fields::action(table).is_some()),
            RuleKey::Kind => Ok(fields::kind(alloc, table)?.is_some()),
            RuleKey::Scopes => Ok(fields::scopes(alloc, table)?.is_some()),
            RuleKey::Verdict => Ok(fields::verdict(table).is_some()),
            RuleKey::Owner => Ok(fields::owner(table).is_some()),
            RuleKey::Tags => Ok(fields::tags(alloc, table)?.is_some()),
            RuleKey::SpareOwner => Ok(fields::spare_owner(table).is_some()),
        }
    }

    // Writes which elements of what stands at the key are wrong.
    fn explain_parts<W: Write>(
        self,
        place: Place<'_>,
        table: &Table,
        writer: &mut W,
    ) -> io::Result<()>
        ensures { OnOk result (Appends (W.contents writer.old) (W.contents writer.new) (part_lines (place_in place.entry) (table_view table.now) self)) }
    {
        match self {
            RuleKey::From => explain_from(place, elements_at(table, "from"), writer),
            _ => Ok(()),
        }
    }

    // Writes what is wrong with what stands at the key, if anything is.
    fn explain<W: Write>(
        self,
        alloc: Global,
        place: Place<'_>,
        table: &Table,
        writer: &mut W,
    ) -> Result<(), CheckFault>
        ensures { OnOk result (Appends (W.contents writer.old) (W.contents writer.new) (key_line (place_in place.entry) (table_view table.now) self)) }
    {
        if self.stands(alloc, table)? {
            return Ok(());
        }
        let (text, refusal) = self.texts();
        let problem = match value_at(table, text) {
            None => Problem::Missing(text),
            Some(_) => Problem::Value(text, refusal),
        };
        report(place, problem, writer)?;
        self.explain_parts(place, table, writer)?;
        Ok(())
    }
}

fn is_one_of(keys: &[RuleKey], key: &str) -> bool
    ensures { result ≡ spec.is_one_of keys.now key.now }
{
    keys.iter().any(|known| known.texts().0 == key)
}

// What is wrong with a key, if anything is.
fn fault_of<'a>(keys: Keys, key: &'a str) -> Option<Problem<'a>>
    ensures { option_map problem_in result ≡ spec.fault_of (keys_in keys) key.now }
{
    if is_one_of(keys.known, key) {
        return None;
    }
    if is_one_of(keys.later, key) {
        return Some(Problem::EarlyKey(key));
    }
    Some(Problem::UnknownKey(key))
}

// Writes a key that a table may not have.
fn explain_other<W: Write>(
    keys: Keys,
    place: Place<'_>,
    key: &str,
    writer: &mut W,
) -> io::Result<()>
    ensures { OnOk result (Appends (W.contents writer.old) (W.contents writer.new) (other_line (keys_in keys) (place_in place.entry) key.now)) }
{
    match fault_of(keys, key) {
        Some(problem) => report(place, problem, writer),
        None => Ok(()),
    }
}

// Writes the keys of a table that it may not have.
fn explain_others<W: Write>(
    keys: Keys,
    place: Place<'_>,
    table: &Table,
    writer: &mut W,
) -> io::Result<()>
    ensures { OnOk result (Appends (W.contents writer.old) (W.contents writer.new) (flat_map (other_line (keys_in keys) (place_in place.entry)) (tables.keys_of (table_view table.now)))) }
{
    for key in table.keys() {
        explain_other(keys, place, key.as_str(), writer)?;
    }
    Ok(())
}

// Writes what is wrong with what stands at the keys that a table may have.
fn explain_known<W: Write>(
    alloc: Global,
    known: &[RuleKey],
    place: Place<'_>,
    table: &Table,
    writer: &mut W,
) -> Result<(), CheckFault>
    ensures { OnOk result (Appends (W.contents writer.old) (W.contents writer.new) (flat_map (key_line (place_in place.entry) (table_view table.now)) known.now)) }
{
    for key in known {
        key.explain(alloc, place, table, writer)?;
    }
    Ok(())
}

// Writes what is wrong with a table of these keys.
fn explain_keys<W: Write>(
    alloc: Global,
    keys: Keys,
    place: Place<'_>,
    table: &Table,
    writer: &mut W,
) -> Result<(), CheckFault>
    ensures { OnOk result (Appends (W.contents writer.old) (W.contents writer.new) (table_lines (keys_in keys) (place_in place.entry) (table_view table.now))) }
{
    explain_known(alloc, keys.known, place, table, writer)?;
    explain_others(keys, place, table, writer)?;
    Ok(())
}

/// Writes what is wrong with a value as a table of these keys.
pub(crate) fn explain_value<W: Write>(
    alloc: Global,
    keys: Keys,
    place: Place<'_>,
    value: &Value,
    writer: &mut W,
) -> Result<(), CheckFault>
    ensures { OnOk result (Appends (W.contents writer.old) (W.contents writer.new) (value_lines (keys_in keys) (place_in place.entry) (view value.now))) }
{
    match value.as_table() {
        Some(table) => explain_keys(alloc, keys, place, table, writer),
        None => {
            report(place, Problem::NotTable, writer)?;
            Ok(())
        }
    }
}
