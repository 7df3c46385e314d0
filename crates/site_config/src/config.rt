ghost use Rattle.std.specs.Prelude.{◌≡◌, IfOk};
ghost use Rattle.toml.specs.View.{view};
ghost use Rattle.site_config.specs.Configurations.{config_in, config_of, IsReading, IsWithin};
ghost use Rattle.site_config.specs.Tables.{members_in};

use crate::fault::ConfigFault;
use crate::keys;
use addresses::Addr;
use slp_scopes::ScopeList;
use slp_text::{Row, Text};
use std::alloc::Global;
use toml::Value;

/// The bytes of the longest configuration.
pub const LONGEST_CONFIG: usize = 1_048_576;

/// The configuration of a site.
#[derive(Drop)]
pub struct Config {
    /// The supported scopes: 1 to 16, whose printed list has at most 1,024 bytes.
    pub scopes: ScopeList,
    /// 1 to 8 distinct addresses with their ports, one for each loop.
    pub listen: Row<(Addr, u16)>,
    /// The greatest number of entries, 1 to 65,536.
    pub capacity: usize,
    /// The greatest number of connections of a loop, 1 to 256; 64 where the key is missing.
    pub connections: usize,
    /// The seconds between two sweeps, 1 to 3,600; 60 where the key is missing.
    pub sweep: u32,
    /// The path of the rule file, if there is one.
    pub rules: Option<Text>,
    /// The paths of the templates, at most 256.
    pub templates: Row<Text>,
}

impl Config {
    /// The configuration that a text of TOML is. Its keys are asked in the order of the fields, and
    /// last that there is no other.
    #[tactic(auto, unfolding(crate::specs::Configurations::config_of))]
    pub fn from_text(alloc: Global, text: &str) -> Result<Config, ConfigFault>
        ensures reading { IsReading result (config_of text.now) }
        ensures limits { IfOk result IsWithin }
    {
        if text.len() > LONGEST_CONFIG {
            return Err(ConfigFault::Range);
        }
        match toml::table_from_str(alloc, text) {
            Ok(table) => Config::from_table(alloc, &Value::Table(table)),
            Err(fault) if fault.is_memory() => Err(ConfigFault::NoMemory),
            Err(_) => Err(ConfigFault::Toml),
        }
    }

    // The configuration that a table is.
    #[tactic(auto, using(crate::proofs::Readings::fault_first), unfolding(crate::specs::Configurations::config_in))]
    fn from_table(alloc: Global, table: &Value) -> Result<Config, ConfigFault>
        ensures reading { IsReading result (config_in (members_in (view table.now))) }
        ensures limits { IfOk result IsWithin }
    {
        let scopes = keys::scopes(alloc, table)?;
        let listen = keys::listen(alloc, table)?;
        let (capacity, connections, sweep) = keys::numbers(table)?;
        let (rules, templates) = keys::paths(alloc, table)?;
        if !keys::are_known(table) {
            return Err(ConfigFault::Range);
        }
        Ok(Config {
            scopes,
            listen,
            capacity: capacity as usize,
            connections: connections as usize,
            sweep,
            rules,
            templates,
        })
    }
}
