//! One reply and the line that tells of it: a code alone, a message, or what is written already.
ghost use Rattle.std.specs.Prelude.{◌≡◌, ◌≢◌, ◌≤◌, ◌==◌, ◌&&◌, ◌||◌, [], false, not, length, IfOk, Some, if◌then◌else◌};
ghost use Rattle.std.specs.Option.{option_copied};
ghost use Rattle.slp_headers.specs.Headers.{heading_in, refusal_bytes};
ghost use Rattle.slp_wire.specs.Spelling.{plain_bytes};
ghost use Rattle.directory_judge.specs.Judgements.{because_of, by_step, finding_code, finding_of};
ghost use Rattle.directory_judge.specs.declared.reason.Decider.TheVariants as decider;
ghost use Rattle.directory_questions.specs.Answers.{advert_code};
ghost use Rattle.directory_questions.specs.Cuts as spec;
ghost use Rattle.directory_questions.specs.Outcomes.{is_to_many, outcome, sent_of, code_outcome, code_outcome_as, fault_outcome};
ghost use Rattle.slp_replies.specs.declared.answer.Sent.TheVariants as sent;

use crate::answer::{Answer, Sent};
use crate::audit::{AuditView, put_line};
use access_rules::Rules;
use directory_judge::{Decider, Finding};
use directory_questions::{Heard, QueryFault, decider_of};
use service_url::ServiceType;
use slp_text::NoMemory;
use slp_wire::{Flags, Header, Message, Tag, WireFault, code, encode, error_reply, flag, function};
use std::alloc::Global;

/// What is heard, with the rules whose names its line may tell. What is written of a reply and of its line goes
/// into an answer.
#[derive(Clone, Copy)]
pub struct Reply<'a> {
    pub rules: &'a Rules,
    pub heard: &'a Heard<'a>,
}

/// Whether a reply with a code, which may have nothing in it, is not sent: a question that was sent to
/// many gets no error and nothing empty (RFC 2608, section 7).
pub fn is_unsent(heard: &Heard<'_>, code: u16, is_empty: bool) -> bool
    ensures { result ≡ (is_to_many (heading_in heard.now.header) && (not (code == 0) || is_empty)) }
{
    let is_to_many = heard.header.flags & flag::MULTICAST != 0 && heard.request.is_question();
    is_to_many && (code != code::OK || is_empty)
}

// Writes a message that is short enough.
fn put_message(message: &Message, bytes: &mut Vec<u8>) -> Result<(), NoMemory>
    requires short { length (plain_bytes message.now) ≤ 65535 }
    requires empty { bytes.old.items ≡ [] }
    ensures { IfOk result (λ _. bytes.new.items ≡ plain_bytes message.now) }
{
    match encode(message, bytes) {
        Ok(()) => Ok(()),
        Err(WireFault::NoMemory) => Err(NoMemory),
        Err(_) => unreachable!(),
    }
}

impl Reply<'_> {
    ghost use Rattle.slp_replies.specs.Audits.{audit_text};
    ghost use Rattle.directory_questions.specs.declared.query.QueryFault.TheVariants as query_fault;
    ghost use Rattle.slp_replies.specs.Tellings.{audit_in, query_fault_outcome, TellsOf};

    /// The header of a reply.
    pub fn head(&self, alloc: Global, is_cut: bool) -> Result<Header, NoMemory>
        ensures { IfOk result (λ h. h ≡ spec.reply_header (heading_in self.now.heard.now.header) is_cut) }
    {
        let heard = self.heard;
        let language = Tag::new(alloc, heard.header.language)?;
        Ok(Header {
            flags: Flags {
                overflow: is_cut,
                fresh: false,
                multicast: false,
            },
            xid: heard.header.xid,
            language,
        })
    }

    /// Tells of what was found.
    pub fn tell(&self, finding: &Finding<'_>, line: &mut Vec<u8>) -> Result<(), NoMemory>
        requires { line.old.items ≡ [] }
        ensures { IfOk result (λ _. line.new.items ≡ audit_text self.now.rules.now (audit_in self.now.heard.now.call.now.asker (heading_in self.now.heard.now.header) (finding_of finding.now))) }
    {
        let audit = AuditView {
            code: finding.code(),
            finding,
            action: self.heard.action(),
            asker: self.heard.call.asker,
        };
        put_line(self.rules, &audit, line)
    }

    // Writes a reply of a function that is a code alone, where one is sent.
    fn put_code(&self, function: u8, code: u16, bytes: &mut Vec<u8>) -> Result<Sent, NoMemory>
        requires { bytes.old.items ≡ [] }
        ensures bytes { IfOk result (λ _. bytes.new.items ≡ sent_of (heading_in self.now.heard.now.header) code false (refusal_bytes function code self.now.heard.now.header.xid self.now.heard.now.header.language.now)) }
        ensures sent { IfOk result (λ what. what ≡ (if is_to_many (heading_in self.now.heard.now.header) && not (code == 0) then sent.Silence else sent.Bytes code)) }
    {
        if is_unsent(self.heard, code, false) {
            return Ok(Sent::Silence);
        }
        let mut reply = [0u8; 80];
        let length = error_reply(&self.heard.header, function, code, &mut reply);
        bytes.extend_from_slice(&reply[..length])?;
        Ok(Sent::Bytes(code))
    }

    // Answers with a code alone, in a reply of a function.
    fn code_as(
        &self,
        function: u8,
        finding: &Finding<'_>,
        answer: &mut Answer,
    ) -> Result<Sent, NoMemory>
        requires no_reply { answer.old.bytes.items ≡ [] }
        requires no_line { answer.old.audit.items ≡ [] }
        ensures { IfOk result (λ what. TellsOf self.now (code_outcome_as (heading_in self.now.heard.now.header) (finding_code finding.now) (because_of finding.now) function) what answer.new.bytes.items answer.new.audit.items) }
    {
        let sent = self.put_code(function, finding.code(), &mut answer.bytes)?;
        self.tell(finding, &mut answer.audit)?;
        Ok(sent)
    }

    /// Answers with a code alone, in a reply of the function that answers the message.
    pub fn code(&self, finding: &Finding<'_>, answer: &mut Answer) -> Result<Sent, NoMemory>
        requires no_reply { answer.old.bytes.items ≡ [] }
        requires no_line { answer.old.audit.items ≡ [] }
        ensures { IfOk result (λ what. TellsOf self.now (code_outcome (heading_in self.now.heard.now.header) (finding_code finding.now) (because_of finding.now)) what answer.new.bytes.items answer.new.audit.items) }
    {
        self.code_as(self.heard.request.reply_function(), finding, answer)
    }

    /// Answers who asks for directory agents with a code alone: an advert stands for it.
    pub fn advert_code(&self, finding: &Finding<'_>, answer: &mut Answer) -> Result<Sent, NoMemory>
        requires no_reply { answer.old.bytes.items ≡ [] }
        requires no_line { answer.old.audit.items ≡ [] }
        ensures { IfOk result (λ what. TellsOf self.now (advert_code (heading_in self.now.heard.now.header) (finding_code finding.now) (because_of finding.now)) what answer.new.bytes.items answer.new.audit.items) }
    {
        self.code_as(function::DIRECTORY_ADVERT, finding, answer)
    }

    /// Answers bytes that are not a message that is read: with the code of their fault, where it has one,
    /// and else with nothing.
    pub fn fault(&self, fault: WireFault, answer: &mut Answer) -> Result<Sent, NoMemory>
        requires no_reply { answer.old.bytes.items ≡ [] }
        requires no_line { answer.old.audit.items ≡ [] }
        ensures { IfOk result (λ what. TellsOf self.now (fault_outcome (heading_in self.now.heard.now.header) fault) what answer.new.bytes.items answer.new.audit.items) }
    {
        match decider_of(fault) {
            Some(decider) => self.code(&Finding::deny(decider, None), answer),
            None => Ok(Sent::Silence),
        }
    }

    /// Answers a question that is refused, about a type, if it is about one: no scope of it is supported, or nothing is in its language.
    pub fn query_fault(
        &self,
        fault: QueryFault,
        kind: Option<&ServiceType>,
        answer: &mut Answer,
    ) -> Result<Sent, NoMemory>
        requires no_reply { answer.old.bytes.items ≡ [] }
        requires no_line { answer.old.audit.items ≡ [] }
        ensures { IfOk result (λ what. (fault ≢ query_fault.NoMemory) × TellsOf self.now (query_fault_outcome (heading_in self.now.heard.now.header) (option_copied kind.entry) fault) what answer.new.bytes.items answer.new.audit.items) }
    {
        match fault {
            QueryFault::Scope => self.code(&Finding::deny(Decider::Scope, kind), answer),
            QueryFault::Language => self.code(&Finding::deny(Decider::Language, kind), answer),
            QueryFault::NoMemory => Err(NoMemory),
        }
    }

    // What is sent of a reply that is written: nothing, where it has nothing in it and was asked of many.
    fn keep(&self, is_empty: bool, bytes: &mut Vec<u8>) -> Sent
        ensures bytes { bytes.new.items ≡ sent_of (heading_in self.now.heard.now.header) 0 is_empty bytes.old.items }
        ensures sent { result ≡ (if is_to_many (heading_in self.now.heard.now.header) && (not (0 == 0) || is_empty) then sent.Silence else sent.Bytes 0) }
    {
        if is_unsent(self.heard, code::OK, is_empty) {
            bytes.clear();
            return Sent::Silence;
        }
        Sent::Bytes(code::OK)
    }

    /// Sends the reply that is written, which may have nothing in it, about a type, if it is about one.
    /// Nobody had to decide.
    pub fn written(
        &self,
        kind: Option<&ServiceType>,
        is_empty: bool,
        answer: &mut Answer,
    ) -> Result<Sent, NoMemory>
        requires written { answer.old.bytes.items ≢ [] }
        requires no_line { answer.old.audit.items ≡ [] }
        ensures { let head = heading_in self.now.heard.now.header in
            IfOk result (λ what. TellsOf self.now (outcome (sent_of head 0 is_empty answer.old.bytes.items) 0 (by_step decider.Nobody (option_copied kind.entry))) what answer.new.bytes.items answer.new.audit.items) }
    {
        let sent = self.keep(is_empty, &mut answer.bytes);
        self.tell(&Finding::by_nobody(kind), &mut answer.audit)?;
        Ok(sent)
    }

    /// Sends a message, about a type, if it is about one. Nobody had to decide.
    pub fn message(
        &self,
        kind: Option<&ServiceType>,
        message: &Message,
        answer: &mut Answer,
    ) -> Result<Sent, NoMemory>
        requires short { length (plain_bytes message.now) ≤ 65535 }
        requires no_reply { answer.old.bytes.items ≡ [] }
        requires no_line { answer.old.audit.items ≡ [] }
        ensures { let head = heading_in self.now.heard.now.header in
            IfOk result (λ what. TellsOf self.now (outcome (sent_of head 0 false (plain_bytes message.now)) 0 (by_step decider.Nobody (option_copied kind.entry))) what answer.new.bytes.items answer.new.audit.items) }
    {
        put_message(message, &mut answer.bytes)?;
        self.written(kind, false, answer)
    }
}
