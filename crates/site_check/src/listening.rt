//! What is lawful in the addresses of a configuration, and surely not meant.
ghost use Rattle.std.specs.Prelude.{◌≡◌, ◌<◌, length, OnOk};
ghost use Rattle.std.specs.Io.KnownBytes.{Appends};
ghost use Rattle.site_check.specs.ListenWarnings.{listen_line, listen_lines};

use crate::problem::{Place, Warning, warn};
use addresses::Addr;
use std::io::{self, Write};

/// From this address on, 224.0.0.0, none is of one machine.
const FIRST_GROUP: u32 = 0xe000_0000;

// Writes what is surely not meant with an address, which has this index.
fn warn_of_address<W: Write>(
    file: &str,
    index: usize,
    place: &(Addr, u16),
    places: &[(Addr, u16)],
    writer: &mut W,
) -> io::Result<()>
    requires { index < length places.now }
    ensures { OnOk result (Appends (W.contents writer.old) (W.contents writer.new) (listen_line file.now (index, place.now))) }
{
    let (address, _) = *place;
    if address.0 == 0 {
        return warn(Place::File(file), Warning::AnyAddress(index + 1), writer);
    }
    if address.0 >= FIRST_GROUP {
        return warn(Place::File(file), Warning::NoMachine(index + 1), writer);
    }
    Ok(())
}

/// Writes what is surely not meant with the addresses at which a configuration in a file listens.
pub(crate) fn warn_of_listen<W: Write>(
    file: &str,
    places: &[(Addr, u16)],
    writer: &mut W,
) -> io::Result<()>
    ensures { OnOk result (Appends (W.contents writer.old) (W.contents writer.new) (listen_lines file.now places.now)) }
{
    for (i, place) in places.iter().enumerate() {
        warn_of_address(file, i, place, places, writer)?;
    }
    Ok(())
}
