//! The keys of a configuration: what each is called, what stands at it, and what is said of a value that is refused.
ghost use Rattle.std.specs.Prelude.{◌≡◌, ◌≤◌, None, [], length, string_bytes, IfOk, IsTrue};
ghost use Rattle.std.specs.BTreeMap.{keys};
ghost use Rattle.std.specs.List.{list_all};
ghost use Rattle.toml.specs.View.{view};
ghost use Rattle.toml_tables.specs.Tables.{number_in, keys_of};
ghost use Rattle.site_config.specs.Configurations as spec;
ghost use Rattle.site_config.specs.Configurations.{scopes_key, listen_key, rules_key, templates_key, capacity_in, connections_in, sweep_in, are_site_scopes, scopes_in, are_listening, listen_in, path_in, templates_in, key_text, key_refusal, key_fault, needed_value, optional_value, numbers_in, paths_in, IsKeyFault, IsReading};
ghost use Rattle.site_config.specs.Tables.{members_in};

use crate::fault::ConfigFault;
use crate::{sockets, values};
use addresses::Addr;
use slp_scopes::ScopeList;
use slp_text::{Row, Text};
use std::alloc::Global;
use toml::{Table, Value};

/// A key of a configuration.
#[derive(Clone, Copy)]
pub enum ConfigKey {
    Scopes,
    Listen,
    Capacity,
    Connections,
    Sweep,
    Rules,
    Templates,
}

/// All keys, in the order in which they are asked.
pub const CONFIG_KEYS: [ConfigKey; 7] = [
    ConfigKey::Scopes,
    ConfigKey::Listen,
    ConfigKey::Capacity,
    ConfigKey::Connections,
    ConfigKey::Sweep,
    ConfigKey::Rules,
    ConfigKey::Templates,
];

impl ConfigKey {
    /// What the key is called, and what a value that is refused is not.
    pub fn texts(self) -> (&'static str, &'static str)
        ensures text { result.0.now ≡ key_text self }
        ensures refusal { result.1.now ≡ key_refusal self }
    {
        match self {
            ConfigKey::Scopes => (
                "scopes",
                "not a list of 1 to 16 scopes in at most 1024 bytes",
            ),
            ConfigKey::Listen => (
                "listen",
                "not an array of 1 to 8 distinct texts \"a.b.c.d:port\"",
            ),
            ConfigKey::Capacity => ("capacity", "not within 1 to 65536"),
            ConfigKey::Connections => ("connections", "not within 1 to 256"),
            ConfigKey::Sweep => ("sweep", "not within 1 to 3600"),
            ConfigKey::Rules => ("rules", "not the path of a file"),
            ConfigKey::Templates => ("templates", "not an array of at most 256 paths"),
        }
    }

    /// Why the value at the key is refused, if it is.
    #[tactic(auto, using(crate::proofs::Readings::fault_read))]
    pub fn fault(self, alloc: Global, table: &Value) -> Option<ConfigFault>
        ensures { IsKeyFault result (key_fault self (members_in (view table.now))) }
    {
        match self {
            ConfigKey::Scopes => scopes(alloc, table).err(),
            ConfigKey::Listen => listen(alloc, table).err(),
            ConfigKey::Capacity => capacity(table).err(),
            ConfigKey::Connections => connections(table).err(),
            ConfigKey::Sweep => sweep(table).err(),
            ConfigKey::Rules => rules(alloc, table).err(),
            ConfigKey::Templates => templates(alloc, table).err(),
        }
    }
}

/// The scopes.
pub fn scopes(alloc: Global, table: &Value) -> Result<ScopeList, ConfigFault>
    ensures value { IsReading result (needed_value scopes_in scopes_key (members_in (view table.now))) }
    ensures limits { IfOk result (λ scopes. IsTrue (are_site_scopes scopes)) }
{
    match table.get("scopes") {
        Some(value) => values::scopes(alloc, value),
        None => Err(ConfigFault::Missing),
    }
}

/// The addresses with their ports.
pub fn listen(alloc: Global, table: &Value) -> Result<Row<(Addr, u16)>, ConfigFault>
    ensures value { IsReading result (needed_value listen_in listen_key (members_in (view table.now))) }
    ensures limits { IfOk result (λ sockets. IsTrue (are_listening sockets)) }
{
    match table.get("listen") {
        Some(value) => sockets::listen(alloc, value),
        None => Err(ConfigFault::Missing),
    }
}

/// The capacity.
pub fn capacity(table: &Value) -> Result<u32, ConfigFault>
    ensures value { result ≡ capacity_in (members_in (view table.now)) }
    ensures low { IfOk result (λ n. 1 ≤ n) }
    ensures high { IfOk result (λ n. n ≤ 65536) }
{
    match table.get("capacity") {
        Some(value) => values::number(value, 1, 65_536),
        None => Err(ConfigFault::Missing),
    }
}

// The number from 1 to `high` at a key, or the usual one where the key is missing.
fn number(table: &Value, key: &str, usual: u32, high: u32) -> Result<u32, ConfigFault>
    requires low { 1 ≤ usual }
    requires high { usual ≤ high }
    ensures value { result ≡ optional_value (number_in 1 high) key.now usual (members_in (view table.now)) }
    ensures low { IfOk result (λ n. 1 ≤ n) }
    ensures high { IfOk result (λ n. n ≤ high) }
{
    match table.get(key) {
        Some(value) => values::number(value, 1, high),
        None => Ok(usual),
    }
}

/// The connections of a loop.
pub fn connections(table: &Value) -> Result<u32, ConfigFault>
    ensures value { result ≡ connections_in (members_in (view table.now)) }
    ensures low { IfOk result (λ n. 1 ≤ n) }
    ensures high { IfOk result (λ n. n ≤ 256) }
{
    number(table, "connections", 64, 256)
}

/// The seconds between two sweeps.
pub fn sweep(table: &Value) -> Result<u32, ConfigFault>
    ensures value { result ≡ sweep_in (members_in (view table.now)) }
    ensures low { IfOk result (λ n. 1 ≤ n) }
    ensures high { IfOk result (λ n. n ≤ 3600) }
{
    number(table, "sweep", 60, 3_600)
}

/// The capacity, the connections and the sweep.
#[tactic(auto, using(crate::proofs::Readings::fault_first))]
pub fn numbers(table: &Value) -> Result<(u32, u32, u32), ConfigFault>
    ensures value { result ≡ numbers_in (members_in (view table.now)) }
    ensures capacity { IfOk result (λ n. (1 ≤ n.0) × (n.0 ≤ 65536)) }
    ensures connections { IfOk result (λ n. (1 ≤ n.1) × (n.1 ≤ 256)) }
    ensures sweep { IfOk result (λ n. (1 ≤ n.2) × (n.2 ≤ 3600)) }
{
    let capacity = capacity(table)?;
    let connections = connections(table)?;
    let sweep = sweep(table)?;
    Ok((capacity, connections, sweep))
}

/// The path of the rules, if there is one.
pub fn rules(alloc: Global, table: &Value) -> Result<Option<Text>, ConfigFault>
    ensures { IsReading result (optional_value path_in rules_key None (members_in (view table.now))) }
{
    match table.get("rules") {
        Some(value) => Ok(Some(values::path(alloc, value)?)),
        None => Ok(None),
    }
}

/// The paths of the templates.
pub fn templates(alloc: Global, table: &Value) -> Result<Row<Text>, ConfigFault>
    ensures value { IsReading result (optional_value templates_in templates_key [] (members_in (view table.now))) }
    ensures limit { IfOk result (λ paths. length paths ≤ 256) }
{
    match table.get("templates") {
        Some(value) => values::templates(alloc, value),
        None => Ok(Row::wrap(Vec::new(alloc))),
    }
}

/// The paths of the rules and of the templates.
#[tactic(auto, using(crate::proofs::Readings::fault_first))]
pub fn paths(alloc: Global, table: &Value) -> Result<(Option<Text>, Row<Text>), ConfigFault>
    ensures value { IsReading result (paths_in (members_in (view table.now))) }
    ensures limit { IfOk result (λ paths. length paths.1 ≤ 256) }
{
    let rules = rules(alloc, table)?;
    let templates = templates(alloc, table)?;
    Ok((rules, templates))
}

/// Whether a key is one of a configuration.
pub fn is_known(key: &str) -> bool
    ensures { result ≡ spec.is_known key.now }
{
    matches!(
        key,
        "scopes" | "listen" | "capacity" | "connections" | "sweep" | "rules" | "templates"
    )
}

fn has_known_keys(table: &Table) -> bool
    ensures { result ≡ list_all (λ key. spec.is_known (string_bytes key)) (keys table.now) }
{
    table.keys().all(|key| is_known(key.as_str()))
}

/// Whether a table has no key but those of a configuration.
#[tactic(auto, using(toml_tables::proofs::KeysOfTables::test_keys))]
pub fn are_known(table: &Value) -> bool
    ensures { result ≡ list_all spec.is_known (keys_of (members_in (view table.now))) }
{
    match table.as_table() {
        Some(table) => has_known_keys(table),
        None => true,
    }
}
