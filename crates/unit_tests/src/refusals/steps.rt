//! Steps that find no memory.
use crate::assertion::assert_holds;
use crate::refusals::hoard::Hoard;
use crate::refusals::messages::{
    FOUND, NOTHING, ONE_TYPE, REGISTERED, REGISTRATION, REQUEST, TYPES, bytes_of,
};
use crate::refusals::site::{OPEN, directory};
use addresses::Addr;
use directory_state::Directory;
use slp_answer::{Answer, Call, Sent, step};
use slp_text::NoMemory;
use std::alloc::Global;
use table_registry::SiteRegistry;

// Messages in their order, and the digits of each reply.
static MESSAGES: [(&str, &str); 4] = [
    (REQUEST, NOTHING),
    (REGISTRATION, REGISTERED),
    (REQUEST, FOUND),
    (TYPES, ONE_TYPE),
];

// What comes of a message.
fn stepped(
    alloc: Global,
    directory: &mut Directory<SiteRegistry>,
    bytes: &[u8],
    answer: &mut Answer,
) -> Result<Sent, NoMemory> {
    let call = Call {
        own: Addr(0x7f00_0001),
        moment: 0,
        asker: Addr(0x0a00_0001),
        bytes,
        limit: 1_400,
    };
    step(alloc, directory, &call, answer)
}

// Whether a message is answered as it has to be; and where it finds no memory, it leaves nothing, and is answered so the next time. All
// memory is in the hoard for the first time, if it has to be refused.
fn is_answered(
    alloc: Global,
    directory: &mut Directory<SiteRegistry>,
    hoard: &mut Hoard,
    (message, reply): &(&str, &str),
    is_refused: bool,
) -> Result<bool, NoMemory> {
    let bytes = bytes_of(alloc, *message)?;
    let want = bytes_of(alloc, *reply)?;
    let mut answer = Answer::new(alloc);
    let is_taken = is_refused && hoard.fill(alloc);
    let first = stepped(alloc, directory, bytes.as_slice(), &mut answer);
    hoard.empty();
    if first.is_ok() {
        return Ok(!is_refused && answer.bytes.as_slice() == want.as_slice());
    }
    let is_empty = answer.bytes.is_empty() && answer.audit.is_empty();
    let second = stepped(alloc, directory, bytes.as_slice(), &mut answer);
    Ok(
        is_taken == is_refused
            && is_empty
            && second.is_ok()
            && answer.bytes.as_slice() == want.as_slice(),
    )
}

// Whether all messages are.
fn are_answered(alloc: Global, is_refused: bool) -> Result<bool, NoMemory> {
    let mut directory = directory(alloc, 4, OPEN)?;
    let mut hoard = Hoard::new(alloc)?;
    for row in &MESSAGES {
        if !is_answered(alloc, &mut directory, &mut hoard, row, is_refused)? {
            return Ok(false);
        }
    }
    Ok(true)
}

#[test]
fn a_step_without_memory_changes_nothing(rt: HostRuntime) {
    let told = are_answered(rt.alloc(), true);
    assert_holds(&rt, told == Ok(true), "four messages");
}

#[test]
fn steps_are_answered(rt: HostRuntime) {
    let told = are_answered(rt.alloc(), false);
    assert_holds(&rt, told == Ok(true), "four messages");
}

// It passes, too, where what it makes ready is refused.
#[test]
fn steps_survive_a_refusal(rt: HostRuntime) {
    let told = are_answered(rt.alloc(), false);
    assert_holds(&rt, told != Ok(false), "four messages");
}
