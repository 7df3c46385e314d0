//! What stands in a table of TOML, for rule files and for configurations. Takes no memory.
#![tactic(auto)]

mod tables;

pub use tables::{array_values, text_at, value_at, values_at};
