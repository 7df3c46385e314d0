//! The addresses on which a site listens.
ghost use Rattle.std.specs.Prelude.{◌≡◌, map, IfOk, IsTrue};
ghost use Rattle.std.specs.List.{list_any};
ghost use Rattle.std.specs.Option.{option_and_then};
ghost use Rattle.toml.specs.Data.{as_str};
ghost use Rattle.toml.specs.View.{view};
ghost use Rattle.addresses.specs.Addresses.{socket_of};
ghost use Rattle.toml_tables.specs.Tables.{each_in, array_in};
ghost use Rattle.site_config.specs.Configurations as spec;
ghost use Rattle.site_config.specs.Configurations.{in_range, same_socket, listen_in, IsReading};

use crate::fault::ConfigFault;
use addresses::Addr;
use slp_text::Row;
use std::alloc::Global;
use toml::Value;

/// The most addresses of a site.
const MOST_ADDRESSES: usize = 8;

// The address and the port that a value is.
fn socket(value: &Value) -> Option<(Addr, u16)>
    ensures { result ≡ option_and_then socket_of (as_str (view value.now)) }
{
    Addr::parse_with_port(value.as_str()?.as_bytes())
}

fn sockets(alloc: Global, values: &[Value]) -> Result<Row<(Addr, u16)>, ConfigFault>
    ensures { IsReading result (in_range (each_in (λ t. option_and_then socket_of (as_str t)) (map view values.now))) }
{
    let mut sockets = Vec::new(alloc);
    for value in values {
        let Some(read) = socket(value) else {
            return Err(ConfigFault::Range);
        };
        sockets.push(read)?;
    }
    Ok(Row::wrap(sockets))
}

#[tactic(auto, using(toml_tables::proofs::Arrays::read_array))]
fn listed(alloc: Global, value: &Value) -> Result<Row<(Addr, u16)>, ConfigFault>
    ensures { IsReading result (in_range (array_in (λ t. option_and_then socket_of (as_str t)) (view value.now))) }
{
    match value.as_array() {
        Some(values) => sockets(alloc, values.as_slice()),
        None => Err(ConfigFault::Range),
    }
}

fn has(sockets: &[(Addr, u16)], socket: (Addr, u16)) -> bool
    ensures { result ≡ list_any (same_socket socket) sockets.now }
{
    sockets
        .iter()
        .any(|other| socket.0 == other.0 && socket.1 == other.1)
}

fn are_distinct(sockets: &[(Addr, u16)]) -> bool
    ensures { result ≡ spec.are_distinct sockets.now }
{
    for i in 0..sockets.len() {
        if has(&sockets[i + 1..], sockets[i]) {
            return false;
        }
    }
    true
}

fn are_listening(sockets: &[(Addr, u16)]) -> bool
    ensures { result ≡ spec.are_listening sockets.now }
{
    !sockets.is_empty() && sockets.len() <= MOST_ADDRESSES && are_distinct(sockets)
}

/// The addresses with ports that a value is.
#[tactic(auto, using(crate::proofs::Readings::refused_too))]
pub fn listen(alloc: Global, value: &Value) -> Result<Row<(Addr, u16)>, ConfigFault>
    ensures value { IsReading result (in_range (listen_in (view value.now))) }
    ensures limits { IfOk result (λ sockets. IsTrue (spec.are_listening sockets)) }
{
    let sockets = listed(alloc, value)?;
    if !are_listening(sockets.as_slice()) {
        return Err(ConfigFault::Range);
    }
    Ok(sockets)
}
