ghost use Rattle.std.specs.Prelude.{◌≡◌, ◌≤◌, ◌++◌, ◌∷◌, [], length, map, take, Ok, IfOk, OnOk, OnErr, IfErr};
ghost use Rattle.std.specs.Option.{option_map};
ghost use Rattle.slp_messages.specs.declared.header.Header.{Header};
ghost use Rattle.slp_messages.specs.declared.message.Message.TheVariants as message;
ghost use Rattle.slp_messages.specs.declared.message.Registration.{Registration};
ghost use Rattle.slp_wire.specs.Reading.{reading};
ghost use Rattle.agent_clients.specs.Keeping.{Kept, Keeping, IsRegistration, place_of, kept_of, with_kept, next_xid, sent, xid_after, renewed, Forgets};
ghost use Rattle.agent_clients.specs.declared.fault.ClientFault.TheVariants as fault;

use crate::fault::ClientFault;
use crate::leases::Lease;
use slp_text::{Key, NoMemory};
use std::alloc::Global;
use std::marker::Model;
use std::mem;

/// The registrations that a service keeps alive, without a socket or a clock (RFC 2608, sections 8.3 and
/// 10.6): its caller sends what it answers.
#[derive(Drop)]
pub struct ServiceAgent {
    kept: Vec<Lease>,
    // The last number that was given to a message; 0 where none was.
    xid: u16,
}

impl Model for ServiceAgent {
    ghost use Rattle.agent_clients.specs.Keeping.{Keeping};

    ghost Value = { Keeping };

    ghost view = { λ a. record { kept = a.kept.items; xid = a.xid } };
}

// The number of the next message: 0 is none.
fn next_after(xid: u16) -> u16
    ensures { result ≡ next_xid xid }
{
    if xid == u16::MAX { 1 } else { xid + 1 }
}

// The place of the registration that is named so.
fn find(kept: &[Lease], url: &str, key: &Key) -> Option<usize>
    ensures { result ≡ place_of url.now key.now kept.now }
{
    kept.iter().position(|lease| lease.is_named(url, key))
}

// Appends the message of a registration that is due, and answers the number of the last message.
fn send_if_due(
    alloc: Global,
    lease: &Lease,
    now: u32,
    last: u16,
    messages: &mut Vec<Vec<u8>>,
) -> Result<u16, NoMemory>
    ensures messages { OnOk result (map (λ v. v.items) messages.new.items ≡ map (λ v. v.items) messages.old.items ++ sent now last (lease.now ∷ [])) }
    ensures last { IfOk result (λ x. x ≡ xid_after now last (lease.now ∷ [])) }
    ensures kept { take (length messages.old.items) messages.new.items ≡ messages.old.items }
{
    if !lease.is_due(now) {
        return Ok(last);
    }
    let xid = next_after(last);
    let bytes = lease.refreshed(alloc, xid)?;
    messages.push(bytes)?;
    Ok(xid)
}

// Appends the messages of those that are due, and answers the number of the last one. `NoMemory` leaves
// some of them.
fn send_due(
    alloc: Global,
    kept: &[Lease],
    now: u32,
    last: u16,
    messages: &mut Vec<Vec<u8>>,
) -> Result<u16, NoMemory>
    ensures messages { OnOk result (map (λ v. v.items) messages.new.items ≡ map (λ v. v.items) messages.old.items ++ sent now last kept.now) }
    ensures last { IfOk result (λ x. x ≡ xid_after now last kept.now) }
    ensures kept { take (length messages.old.items) messages.new.items ≡ messages.old.items }
{
    let mut xid = last;
    for lease in kept {
        xid = send_if_due(alloc, lease, now, xid, messages)?;
    }
    Ok(xid)
}

// Those that are due at a moment are due again later.
fn renew_all(kept: &mut [Lease], now: u32)
    ensures { kept.new ≡ map (renewed now) kept.old }
{
    for lease in kept.iter_mut() {
        lease.renew(now);
    }
}

impl ServiceAgent {
    /// An agent that keeps nothing. Takes no memory.
    pub fn new(alloc: Global) -> ServiceAgent
        ensures { result ≡ record { kept = []; xid = 0 } }
    {
        ServiceAgent {
            kept: Vec::new(alloc),
            xid: 0,
        }
    }

    /// Keeps a registration from now on, in the place of the one with its URL and language, if there is one.
    /// It is due at once. `NoMemory` changes nothing.
    pub fn keep(&mut self, alloc: Global, registration: Vec<u8>) -> Result<(), ClientFault>
        requires read { IsRegistration registration.items }
        requires short { length registration.items ≤ 65535 }
        ensures ok { (h : Header) (r : Registration) → reading registration.items ≡ Ok (message.Registration h r)
            → OnOk result (self.new ≡ record self.old { kept = with_kept (kept_of h r registration.items) self.old.kept }) }
        ensures err { OnErr result (self.new ≡ self.old) }
        ensures faults { IfErr result (λ e. e ≡ fault.NoMemory) }
    {
        let lease = Lease::of(alloc, registration)?;
        match find(self.kept.as_slice(), lease.url(), lease.key()) {
            Some(place) => drop(mem::replace(&mut self.kept[place], lease)),
            None => self.kept.push(lease)?,
        }
        Ok(())
    }

    /// Keeps the registration of a URL and a language no longer, and answers its withdrawal, or `None` where
    /// none is kept. `NoMemory` changes nothing.
    pub fn forget(
        &mut self,
        alloc: Global,
        url: &str,
        language: &str,
    ) -> Result<Option<Vec<u8>>, ClientFault>
        ensures ok { IfOk result (λ told. Forgets self.old url.now language.now (option_map (λ v. v.items) told) self.new) }
        ensures err { OnErr result (self.new ≡ self.old) }
        ensures faults { IfErr result (λ e. e ≡ fault.NoMemory) }
    {
        let key = Key::of(alloc, language)?;
        let Some(place) = find(self.kept.as_slice(), url, &key) else {
            return Ok(None);
        };
        let xid = next_after(self.xid);
        let bytes = self.kept[place].withdrawal(alloc, xid)?;
        drop(self.kept.remove(place));
        self.xid = xid;
        Ok(Some(bytes))
    }

    /// Appends a message for each registration that is due at a moment, in seconds: with FRESH, and the next
    /// XID, from 1 on, after 65,535 again 1. It is due again after half its lifetime. `NoMemory` changes
    /// nothing.
    pub fn turn(
        &mut self,
        alloc: Global,
        now: u32,
        messages: &mut Vec<Vec<u8>>,
    ) -> Result<(), ClientFault>
        ensures sent { OnOk result (map (λ v. v.items) messages.new.items ≡ map (λ v. v.items) messages.old.items ++ sent now self.old.xid self.old.kept) }
        ensures state { OnOk result (self.new ≡ record { kept = map (renewed now) self.old.kept; xid = xid_after now self.old.xid self.old.kept }) }
        ensures err { OnErr result ((self.new ≡ self.old) × (messages.new.items ≡ messages.old.items)) }
        ensures faults { IfErr result (λ e. e ≡ fault.NoMemory) }
    {
        let before = messages.len();
        match send_due(alloc, self.kept.as_slice(), now, self.xid, messages) {
            Ok(xid) => {
                renew_all(self.kept.as_mut_slice(), now);
                self.xid = xid;
                Ok(())
            }
            Err(_) => {
                messages.truncate(before);
                Err(ClientFault::NoMemory)
            }
        }
    }
}
