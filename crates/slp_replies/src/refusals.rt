ghost use Rattle.std.specs.Prelude.{◌≡◌, ◌≤◌, [], take, Some, None};
ghost use Rattle.slp_headers.specs.Headers.{heading_in, heading_of};
ghost use Rattle.slp_messages.specs.declared.code.TheConstants.{INTERNAL_ERROR};
ghost use Rattle.access_rules.specs.Deciding.{no_rules};
ghost use Rattle.directory_judge.specs.Judgements.{by_step};
ghost use Rattle.directory_judge.specs.declared.reason.Decider.TheVariants.{Memory};
ghost use Rattle.slp_replies.specs.Audits.{audit_text};
ghost use Rattle.directory_questions.specs.Outcomes.{refusal_outcome};
ghost use Rattle.slp_replies.specs.Tellings.{line_of};

use crate::audit::{AuditView, write_line};
use crate::replies::is_unsent;
use crate::sink::ShortLine;
use access_rules::Action;
use addresses::Addr;
use directory_judge::{Decider, Finding};
use directory_questions::{Call, Heard};
use slp_wire::{code, error_reply};

// Writes a reply of code 10, where one is sent.
fn put_reply(heard: &Heard<'_>, reply: &mut [u8; 80]) -> usize
    ensures bytes { take result reply.new ≡ (refusal_outcome (Some (heading_in heard.now.header))).reply }
    ensures room { result ≤ 80 }
{
    if is_unsent(heard, code::INTERNAL_ERROR, false) {
        return 0;
    }
    let function = heard.request.reply_function();
    error_reply(&heard.header, function, code::INTERNAL_ERROR, reply)
}

// Writes the line of a message that found no memory.
fn put_refusal(told: &mut ShortLine, action: Action, asker: Addr)
    requires { told.old.items ≡ [] }
    ensures { told.new.items ≡ audit_text no_rules (record { code = INTERNAL_ERROR; because = by_step Memory None; action = action; asker = asker }) }
{
    let audit = AuditView {
        code: code::INTERNAL_ERROR,
        finding: &Finding::deny(Decider::Memory, None),
        action,
        asker,
    };
    match write_line(told, "", &audit) {
        Ok(()) => {}
        Err(_) => unreachable!(),
    }
}

/// A reply of at most 80 bytes. It takes no memory.
#[derive(Drop)]
pub struct ShortReply {
    bytes: [u8; 80],
    end: usize,
    ghost within: { end ≤ 80 },
}

impl ShortReply {
    /// The reply.
    pub fn as_slice(&self) -> &[u8]
        ensures { result.now ≡ take self.now.end self.now.bytes }
    {
        &self.bytes[..self.end]
    }
}

// The reply to a message that found no memory, with code 10. It is empty where a question was sent to many. Takes no memory.
fn refused_reply_to(heard: &Heard<'_>) -> ShortReply
    ensures { take result.end result.bytes ≡ (refusal_outcome (heading_of heard.now.call.now.bytes.now)).reply }
{
    let mut reply = [0; 80];
    let end = put_reply(heard, &mut reply);
    ShortReply { bytes: reply, end }
}

/// The audit line of a message that found no memory. Takes no memory.
pub fn refused_line_of(heard: &Heard<'_>) -> ShortLine
    ensures { result.items ≡ line_of no_rules heard.now.call.now.asker (heading_of heard.now.call.now.bytes.now) (refusal_outcome (heading_of heard.now.call.now.bytes.now)) }
{
    let mut told = ShortLine::new();
    put_refusal(&mut told, heard.action(), heard.call.asker);
    told
}

/// What is replied to bytes that found no memory. It is empty where the header is not readable, and where the function
/// is none that is answered. Takes no memory.
pub fn refused_reply(bytes: &[u8]) -> ShortReply
    ensures { take result.end result.bytes ≡ (refusal_outcome (heading_of bytes.now)).reply }
{
    match Heard::of(&Call::anywhere(0, Addr(0), bytes)) {
        Some(heard) => refused_reply_to(&heard),
        None => ShortReply {
            bytes: [0; 80],
            end: 0,
        },
    }
}

/// The audit line of bytes that found no memory. It is empty where the header is not readable, and where the function is
/// none that is answered. Takes no memory.
pub fn refused_line(bytes: &[u8], asker: Addr) -> ShortLine
    ensures { result.items ≡ line_of no_rules asker (heading_of bytes.now) (refusal_outcome (heading_of bytes.now)) }
{
    match Heard::of(&Call::anywhere(0, asker, bytes)) {
        Some(heard) => refused_line_of(&heard),
        None => ShortLine::new(),
    }
}

/// Both, for who sends and tells at one place: what is written, with the number of bytes of each.
pub fn refusal(
    bytes: &[u8],
    asker: Addr,
    reply: &mut [u8; 80],
    line: &mut [u8; 128],
) -> (usize, usize)
    ensures reply { take result.0 reply.new ≡ (refusal_outcome (heading_of bytes.now)).reply }
    ensures line { take result.1 line.new ≡ line_of no_rules asker (heading_of bytes.now) (refusal_outcome (heading_of bytes.now)) }
    ensures room { result.0 ≤ 80 }
    ensures line_room { result.1 ≤ 128 }
{
    let sent = refused_reply(bytes);
    let told = refused_line(bytes, asker);
    let replied = sent.bytes;
    *reply = replied;
    line[..told.len()].copy_from_slice(told.as_slice());
    (sent.end, told.len())
}
