//! What stands at the keys of a rule, of a hide table and of a rule file, each by itself. It is public for who has to say which key is at fault.
ghost use Rattle.std.specs.Prelude.{◌≡◌, IfOk, map, string_bytes};
ghost use Rattle.std.specs.BTreeMap.{keys};
ghost use Rattle.std.specs.List.{list_all};
ghost use Rattle.std.specs.Option.{option_copied, option_map};
ghost use Rattle.toml.specs.View.{table_view, view};
ghost use Rattle.rule_files.specs.RuleFiles as spec;
ghost use Rattle.rule_files.specs.RuleFiles.{action_in, action_named, comma_ended, from_in, is_every_scope, is_scope_name, kind_in, kind_named, listed_scopes, name_in, owner_in, prefix_in, scope_name_in, scopes_in, scopes_listed, spare_owner_in, tags_in, tags_named, verdict_in, verdict_named, version_in};
ghost use Rattle.toml_tables.specs.Tables.{each_in, keys_of};

use crate::version::Version;
use access_rules::Action;
use addresses::Prefix;
use service_url::{ServiceType, UrlFault};
use slp_scopes::ScopeList;
use slp_tags::TagList;
use slp_text::{NoMemory, Row, Text, TextFault};
use std::alloc::Global;
use toml::{Table, Value};
use toml_tables::{text_at, value_at, values_at};

/// The bytes of the longest name of a rule.
const LONGEST_NAME: usize = 32;

fn is_name_byte(b: u8) -> bool
    ensures { result ≡ spec.is_name_byte b }
{
    b.is_ascii_lowercase() || b.is_ascii_digit() || b == b'-'
}

fn are_name_bytes(text: &[u8]) -> bool
    ensures { result ≡ list_all spec.is_name_byte text.now }
{
    text.iter().all(|b| is_name_byte(*b))
}

fn is_rule_name(text: &[u8]) -> bool
    ensures { result ≡ spec.is_rule_name text.now }
{
    !text.is_empty() && text.len() <= LONGEST_NAME && are_name_bytes(text)
}

/// The name of a rule or a hide table: 1 to 32 small letters, digits and `-`.
pub fn name(alloc: Global, table: &Table) -> Result<Option<Text>, NoMemory>
    ensures { IfOk result (λ n. n ≡ name_in (table_view table.now)) }
{
    match text_at(table, "name") {
        Some(text) if is_rule_name(text.as_bytes()) => {
            Ok(Some(Text::wrap(String::from_str(alloc, text)?)))
        }
        _ => Ok(None),
    }
}

fn prefix(value: &Value) -> Option<Prefix>
    ensures { result ≡ prefix_in (view value.now) }
{
    Prefix::parse(value.as_str()?.as_bytes())
}

fn prefixes(alloc: Global, values: &[Value]) -> Result<Option<Row<Prefix>>, NoMemory>
    ensures { IfOk result (λ o. o ≡ each_in prefix_in (map view values.now)) }
{
    let mut prefixes = Vec::new(alloc);
    for value in values {
        let Some(read) = prefix(value) else {
            return Ok(None);
        };
        prefixes.push(read)?;
    }
    Ok(Some(Row::wrap(prefixes)))
}

/// Whom it is about: at least one prefix.
pub fn from(alloc: Global, table: &Table) -> Result<Option<Row<Prefix>>, NoMemory>
    ensures { IfOk result (λ o. o ≡ from_in (table_view table.now)) }
{
    match values_at(table, "from") {
        Some(values) if !values.is_empty() => prefixes(alloc, values),
        _ => Ok(None),
    }
}

fn action_of(word: &str) -> Option<Action>
    ensures { result ≡ action_named word.now }
{
    match word {
        "register" => Some(Action::Register),
        "withdraw" => Some(Action::Withdraw),
        "see" => Some(Action::See),
        _ => None,
    }
}

/// What is done.
pub fn action(table: &Table) -> Option<Action>
    ensures { result ≡ action_in (table_view table.now) }
{
    action_of(text_at(table, "action")?)
}

fn verdict_of(word: &str) -> Option<bool>
    ensures { result ≡ verdict_named word.now }
{
    match word {
        "allow" => Some(true),
        "deny" => Some(false),
        _ => None,
    }
}

/// Whether it is allowed.
pub fn verdict(table: &Table) -> Option<bool>
    ensures { result ≡ verdict_in (table_view table.now) }
{
    verdict_of(text_at(table, "verdict")?)
}

/// Whether it is about owners alone, which it is not where nothing says so.
pub fn owner(table: &Table) -> Option<bool>
    ensures { result ≡ owner_in (table_view table.now) }
{
    match value_at(table, "owner") {
        Some(value) => value.as_bool(),
        None => Some(false),
    }
}

fn tags_of(alloc: Global, text: &str) -> Result<Option<TagList>, NoMemory>
    ensures { IfOk result (λ o. o ≡ tags_named text.now) }
{
    match TagList::read(alloc, text)? {
        Some(tags) if !tags.is_empty() => Ok(Some(tags)),
        _ => Ok(None),
    }
}

/// The tags that are hidden: at least one part.
pub fn tags(alloc: Global, table: &Table) -> Result<Option<TagList>, NoMemory>
    ensures { IfOk result (λ o. o ≡ tags_in (table_view table.now)) }
{
    match text_at(table, "tags") {
        Some(text) => tags_of(alloc, text),
        None => Ok(None),
    }
}

/// Whether owners are spared, which they are not where nothing says so.
pub fn spare_owner(table: &Table) -> Option<bool>
    ensures { result ≡ spare_owner_in (table_view table.now) }
{
    match value_at(table, "spare-owner") {
        Some(value) => value.as_bool(),
        None => Some(false),
    }
}

fn kind_of(alloc: Global, text: &str) -> Result<Option<Option<ServiceType>>, NoMemory>
    ensures { IfOk result (λ o. o ≡ kind_named text.now) }
{
    if text == "*" {
        return Ok(Some(None));
    }
    match ServiceType::parse(alloc, text) {
        Ok(kind) => Ok(Some(Some(kind))),
        Err(UrlFault::NoMemory) => Err(NoMemory),
        Err(_) => Ok(None),
    }
}

/// The type that it is about: `Some(None)` is every type.
pub fn kind(alloc: Global, table: &Table) -> Result<Option<Option<ServiceType>>, NoMemory>
    ensures { IfOk result (λ o. o ≡ kind_in (table_view table.now)) }
{
    match text_at(table, "type") {
        Some(text) => kind_of(alloc, text),
        None => Ok(None),
    }
}

fn is_scope(alloc: Global, text: &str) -> Result<bool, NoMemory>
    ensures { IfOk result (λ b. b ≡ is_scope_name text.now) }
{
    match ScopeList::parse(alloc, text) {
        Ok(scopes) => Ok(scopes.len() == 1),
        Err(TextFault::NoMemory) => Err(NoMemory),
        Err(_) => Ok(false),
    }
}

// The name of a scope that a value is, lent.
fn scope_name(alloc: Global, value: &Value) -> Result<Option<&str>, NoMemory>
    ensures { IfOk result (λ o. option_copied o ≡ scope_name_in (view value.now)) }
{
    match value.as_str() {
        Some(text) if is_scope(alloc, text)? => Ok(Some(text)),
        _ => Ok(None),
    }
}

// The names of scopes that values are, with a comma after each.
fn scope_names(alloc: Global, values: &[Value]) -> Result<Option<String>, NoMemory>
    ensures { IfOk result (λ o. option_map string_bytes o ≡ option_map comma_ended (each_in scope_name_in (map view values.now))) }
{
    let mut names = String::new(alloc);
    for value in values {
        let Some(name) = scope_name(alloc, value)? else {
            return Ok(None);
        };
        names.push_str(name)?;
        names.push(',')?;
    }
    Ok(Some(names))
}

fn is_every(values: &[Value]) -> bool
    ensures { result ≡ is_every_scope (map view values.now) }
{
    match values {
        [only] => only.as_str() == Some("*"),
        _ => false,
    }
}

// The scopes that values name, if each of them is the name of one, and there is one.
fn listed(alloc: Global, values: &[Value]) -> Result<Option<ScopeList>, NoMemory>
    ensures { IfOk result (λ o. o ≡ listed_scopes (map view values.now)) }
{
    if values.is_empty() {
        return Ok(None);
    }
    let Some(names) = scope_names(alloc, values)? else {
        return Ok(None);
    };
    match ScopeList::parse(alloc, names.as_str()) {
        Ok(scopes) => Ok(Some(scopes)),
        Err(TextFault::NoMemory) => Err(NoMemory),
        Err(_) => Ok(None),
    }
}

fn scopes_of(alloc: Global, values: &[Value]) -> Result<Option<Option<ScopeList>>, NoMemory>
    ensures { IfOk result (λ o. o ≡ scopes_listed (map view values.now)) }
{
    if is_every(values) {
        return Ok(Some(None));
    }
    match listed(alloc, values)? {
        Some(scopes) => Ok(Some(Some(scopes))),
        None => Ok(None),
    }
}

/// The scopes that it is about: `Some(None)` is every scope.
pub fn scopes(alloc: Global, table: &Table) -> Result<Option<Option<ScopeList>>, NoMemory>
    ensures { IfOk result (λ o. o ≡ scopes_in (table_view table.now)) }
{
    match values_at(table, "scopes") {
        Some(values) => scopes_of(alloc, values),
        None => Ok(None),
    }
}

/// The version that a table names.
pub fn version(table: &Table) -> Option<Version>
    ensures { result ≡ version_in (table_view table.now) }
{
    match value_at(table, "version")?.as_integer()? {
        1 => Some(Version::One),
        2 => Some(Version::Two),
        3 => Some(Version::Three),
        _ => None,
    }
}

fn is_common_key(key: &str) -> bool
    ensures { result ≡ spec.is_common_key key.now }
{
    matches!(
        key,
        "name" | "from" | "action" | "type" | "scopes" | "verdict"
    )
}

fn is_rule_key(version: Version, key: &str) -> bool
    ensures { result ≡ spec.is_rule_key version key.now }
{
    match version {
        Version::One => is_common_key(key),
        Version::Two | Version::Three => is_common_key(key) || key == "owner",
    }
}

fn is_hide_key(key: &str) -> bool
    ensures { result ≡ spec.is_hide_key key.now }
{
    matches!(
        key,
        "name" | "from" | "type" | "scopes" | "tags" | "spare-owner"
    )
}

fn is_plain_file_key(key: &str) -> bool
    ensures { result ≡ spec.is_plain_file_key key.now }
{
    matches!(key, "version" | "rule")
}

fn is_file_key(version: Version, key: &str) -> bool
    ensures { result ≡ spec.is_file_key version key.now }
{
    match version {
        Version::One | Version::Two => is_plain_file_key(key),
        Version::Three => is_plain_file_key(key) || key == "hide",
    }
}

fn are_rule_keys(version: Version, table: &Table) -> bool
    ensures { result ≡ list_all (λ key. spec.is_rule_key version (string_bytes key)) (keys table.now) }
{
    table.keys().all(|key| is_rule_key(version, key.as_str()))
}

/// Whether a table has no key but those of a rule in a file of this version.
#[tactic(auto, using(toml_tables::proofs::KeysOfTables::test_keys))]
pub fn has_rule_keys(version: Version, table: &Table) -> bool
    ensures { result ≡ list_all (spec.is_rule_key version) (keys_of (table_view table.now)) }
{
    are_rule_keys(version, table)
}

fn are_hide_keys(table: &Table) -> bool
    ensures { result ≡ list_all (λ key. spec.is_hide_key (string_bytes key)) (keys table.now) }
{
    table.keys().all(|key| is_hide_key(key.as_str()))
}

/// Whether a table has no key but those of a hide table.
#[tactic(auto, using(toml_tables::proofs::KeysOfTables::test_keys))]
pub fn has_hide_keys(table: &Table) -> bool
    ensures { result ≡ list_all spec.is_hide_key (keys_of (table_view table.now)) }
{
    are_hide_keys(table)
}

fn are_file_keys(version: Version, table: &Table) -> bool
    ensures { result ≡ list_all (λ key. spec.is_file_key version (string_bytes key)) (keys table.now) }
{
    table.keys().all(|key| is_file_key(version, key.as_str()))
}

/// Whether a table has no key but those of a rule file of this version.
#[tactic(auto, using(toml_tables::proofs::KeysOfTables::test_keys))]
pub fn has_file_keys(version: Version, table: &Table) -> bool
    ensures { result ≡ list_all (spec.is_file_key version) (keys_of (table_view table.now)) }
{
    are_file_keys(version, table)
}
