mod rows;

use crate::tables::{Asking, Question, assert_table, whole};
use rows::TABLE;
use slp_text::{NoMemory, Row, Text};
use slp_wire::{
    Flags, Header, HeaderView, Message, ServiceReply, Tag, UrlEntry, WireFault, decode, encode,
    read_header,
};
use std::alloc::Global;

#[derive(Clone, Copy)]
struct Messages;

/// The bytes of digits.
pub fn bytes_of(alloc: Global, digits: &str) -> Result<Vec<u8>, NoMemory> {
    match hex::decode(alloc, digits) {
        Ok(bytes) => Ok(bytes),
        Err(_) => Err(NoMemory),
    }
}

/// Appends the digits of bytes.
pub fn put_bytes(alloc: Global, bytes: &[u8], out: &mut String) -> Result<(), NoMemory> {
    let digits = hex::encode(alloc, bytes)?;
    Ok(out.push_str(digits.as_str())?)
}

// The message, as it is written once more.
fn print_written(alloc: Global, bytes: &[u8], out: &mut String) -> Result<(), WireFault> {
    let message = decode(alloc, bytes)?;
    let mut written = Vec::new(alloc);
    let told = encode(&message, &mut written);
    drop(message);
    told?;
    Ok(put_bytes(alloc, written.as_slice(), out)?)
}

fn fault_of(alloc: Global, bytes: &[u8]) -> Option<WireFault> {
    decode(alloc, bytes).err()
}

fn is_malformed(alloc: Global, bytes: &[u8], length: usize) -> Result<bool, NoMemory> {
    let mut front = Vec::from_slice(alloc, bytes)?;
    front.truncate(length);
    if let Some(place) = front.get_mut(4) {
        *place = u8::try_from(length).unwrap_or(0);
    }
    let fault = if length < 16 {
        WireFault::NoHeader
    } else {
        WireFault::Parse
    };
    Ok(fault_of(alloc, front.as_slice()) == Some(fault))
}

fn print_fronts(alloc: Global, bytes: &[u8], out: &mut String) -> Result<(), NoMemory> {
    for length in 0..bytes.len() {
        if !is_malformed(alloc, bytes, length)? {
            write!(out, "{length} ")?;
        }
    }
    Ok(())
}

// A reply in the language of a message, whose tag is copied and printed.
fn long_reply(alloc: Global, view: &HeaderView<'_>, out: &mut String) -> Result<Message, NoMemory> {
    let language = Tag::new(alloc, view.language)?.copy(alloc)?;
    out.push_str(language.as_str())?;
    let header = Header {
        flags: Flags {
            overflow: false,
            fresh: false,
            multicast: false,
        },
        xid: view.xid,
        language,
    };
    let url = Text::wrap(whole(alloc, "<<65536 x>>")?);
    let entries = Row::wrap(vec![in alloc; UrlEntry { lifetime: 1, url }]?);
    Ok(Message::ServiceReply(header, ServiceReply::Found(entries)))
}

// What is written of a reply of one URL with 65,536 letters, after other bytes and with the header of a message.
fn print_long(alloc: Global, bytes: &[u8], out: &mut String) -> Result<(), WireFault> {
    let Some(view) = read_header(bytes) else {
        return Err(WireFault::NoHeader);
    };
    let mut written = Vec::from_slice(alloc, b"before")?;
    let message = long_reply(alloc, &view, out)?;
    let told = encode(&message, &mut written);
    drop(message);
    put_bytes(alloc, written.as_slice(), out)?;
    told
}

impl Asking for Messages {
    type Fault = WireFault;

    fn print(self, alloc: Global, row: Question<'_>, out: &mut String) -> Result<(), WireFault> {
        let bytes = bytes_of(alloc, row.text)?;
        match row.word {
            "written" => print_written(alloc, bytes.as_slice(), out),
            "long" => print_long(alloc, bytes.as_slice(), out),
            _ => Ok(print_fronts(alloc, bytes.as_slice(), out)?),
        }
    }
}

#[test]
fn messages_are_read_and_written(rt: HostRuntime) {
    assert_table(&rt, rt.alloc(), Messages, TABLE);
}
