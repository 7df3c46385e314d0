ghost use Rattle.std.specs.Prelude.{◌≡◌, ◌≤◌, ◌+◌, ℕ, List, [], ◌++◌, IfSome, OnOk, OnErr, chars, codes, length, encode_utf8, encode_utf8_all};
ghost use Rattle.std.specs.Fmt.{decimal};
ghost use Rattle.std.specs.Option.{option_copied};
ghost use Rattle.addresses.specs.Addresses.{address_text};
ghost use Rattle.directory_judge.specs.Judgements.{decider_text};
ghost use Rattle.slp_replies.specs.Audits.{action_text, audit_of, rule_named, text_or_dash, beginning_text, ending_text, head_text, tail_text, line_text, audit_text};
ghost use Rattle.slp_text.specs.Escapes.{written_character, escaped_text};
ghost use Rattle.slp_text.specs.declared.escapes.Place.TheVariants.{Scope};

use crate::octets::asker_bytes;
use crate::sink::Sink;
use access_rules::{Action, Rules};
use addresses::Addr;
use directory_judge::{Decider, Finding};
use itoa::Buffer;
use service_url::ServiceType;
use slp_scopes::is_plain;
use slp_text::{Key, NoMemory, Place, capital_digit, is_reserved};

/// What came of a message: its code, who decided and on what, what was asked for, and by whom.
#[derive(Clone, Copy)]
pub(crate) struct AuditView<'a> {
    pub code: u16,
    pub finding: &'a Finding<'a>,
    pub action: Action,
    pub asker: Addr,
}

// What stands between who decided and the asker.
fn action_part(action: Action) -> &'static str
    ensures { result.now ≡ codes " action=" ++ action_text action ++ codes " asker=" }
{
    match action {
        Action::Register => " action=register asker=",
        Action::Withdraw => " action=withdraw asker=",
        Action::See => " action=see asker=",
    }
}

// The type that was asked for, or a dash.
fn kind_text<'a>(kind: Option<&'a ServiceType>) -> &'a str
    ensures { result.now ≡ text_or_dash (option_copied kind.entry) }
{
    match kind {
        Some(kind) => kind.text(),
        None => "-",
    }
}

// The name of the rule that decided, or nothing.
fn rule_name(rules: &Rules, decider: Decider) -> &str
    ensures { result.now ≡ rule_named rules.now decider }
{
    match decider {
        Decider::Rule(place) => {
            if place < rules.len() {
                rules.name(place)
            } else {
                ""
            }
        }
        _ => "",
    }
}

// ---- each function below appends a part of a line

fn put_number<S: Sink>(sink: &mut S, number: u16) -> Result<(), NoMemory>
    ensures ok { OnOk result (S.written sink.new ≡ S.written sink.old ++ decimal number) }
    ensures room { OnOk result (S.room sink.old ≤ S.room sink.new + length (decimal number)) }
    ensures err { OnErr result (S.room sink.old ≤ length (decimal number)) }
{
    let mut digits = Buffer::new();
    sink.put(digits.format(number).as_bytes())
}

// Who asked, and what stands before the type, in one piece.
fn put_asker<S: Sink>(sink: &mut S, asker: Addr) -> Result<(), NoMemory>
    ensures ok { OnOk result (S.written sink.new ≡ S.written sink.old ++ (address_text asker ++ codes " type=")) }
    ensures room { OnOk result (S.room sink.old ≤ S.room sink.new + length (address_text asker ++ codes " type=")) }
    ensures err { OnErr result (S.room sink.old ≤ length (address_text asker ++ codes " type=")) }
{
    let (text, end) = asker_bytes(asker);
    sink.put(&text[..end])
}

// The code, and whether it allows.
fn put_beginning<S: Sink>(sink: &mut S, code: u16) -> Result<(), NoMemory>
    ensures ok { OnOk result (S.written sink.new ≡ S.written sink.old ++ beginning_text code) }
    ensures room { OnOk result (S.room sink.old ≤ S.room sink.new + length (beginning_text code)) }
    ensures err { OnErr result (S.room sink.old ≤ length (beginning_text code)) }
{
    if code == 0 {
        return sink.put(b"# allow code=0 by=");
    }
    sink.put(b"# deny code=")?;
    put_number(sink, code)?;
    sink.put(b" by=")
}

// Who decided: a word, and the name of the rule.
fn put_decider<S: Sink>(sink: &mut S, rule: &str, decider: Decider) -> Result<(), NoMemory>
    ensures ok { OnOk result (S.written sink.new ≡ S.written sink.old ++ decider_text rule.now decider) }
    ensures room { OnOk result (S.room sink.old ≤ S.room sink.new + length (decider_text rule.now decider)) }
    ensures err { OnErr result (S.room sink.old ≤ length (decider_text rule.now decider)) }
{
    let (word, name) = decider.words(rule);
    sink.put(word.as_bytes())?;
    sink.put(name.as_bytes())
}

fn put_character<S: Sink>(sink: &mut S, c: char) -> Result<(), NoMemory>
    ensures ok { OnOk result (S.written sink.new ≡ S.written sink.old ++ encode_utf8 c) }
    ensures room { OnOk result (S.room sink.old ≤ S.room sink.new + length (encode_utf8 c)) }
    ensures err { OnErr result (S.room sink.old ≤ length (encode_utf8 c)) }
{
    let mut buffer = [0; 4];
    sink.put(c.encode_utf8(&mut buffer).as_bytes())
}

// A character of a scope, as it is written in lists of scopes.
fn put_written<S: Sink>(sink: &mut S, c: char) -> Result<(), NoMemory>
    ensures ok { OnOk result (S.written sink.new ≡ S.written sink.old ++ encode_utf8_all (written_character Scope c)) }
    ensures room { OnOk result (S.room sink.old ≤ S.room sink.new + length (encode_utf8_all (written_character Scope c))) }
    ensures err { OnErr result (S.room sink.old ≤ length (encode_utf8_all (written_character Scope c))) }
{
    if !is_reserved(Place::Scope, c) {
        return put_character(sink, c);
    }
    let number = c as u32;
    put_character(sink, '\\')?;
    put_character(sink, capital_digit((number / 16) as u8))?;
    put_character(sink, capital_digit((number % 16) as u8))
}

// A scope with its escapes.
fn put_escaped<S: Sink>(sink: &mut S, scope: &str) -> Result<(), NoMemory>
    ensures ok { OnOk result (S.written sink.new ≡ S.written sink.old ++ encode_utf8_all (escaped_text Scope (chars scope.now))) }
    ensures room { OnOk result (S.room sink.old ≤ S.room sink.new + length (encode_utf8_all (escaped_text Scope (chars scope.now)))) }
    ensures err { OnErr result (S.room sink.old ≤ length (encode_utf8_all (escaped_text Scope (chars scope.now)))) }
{
    for c in scope.chars() {
        put_written(sink, c)?;
    }
    Ok(())
}

// The same, in one piece where it is plain.
fn put_scope<S: Sink>(sink: &mut S, scope: &str) -> Result<(), NoMemory>
    ensures ok { OnOk result (S.written sink.new ≡ S.written sink.old ++ encode_utf8_all (escaped_text Scope (chars scope.now))) }
    ensures room { OnOk result (S.room sink.old ≤ S.room sink.new + length (encode_utf8_all (escaped_text Scope (chars scope.now)))) }
    ensures err { OnErr result (S.room sink.old ≤ length (encode_utf8_all (escaped_text Scope (chars scope.now)))) }
{
    if is_plain(scope.as_bytes()) {
        return sink.put(scope.as_bytes());
    }
    put_escaped(sink, scope)
}

// A scope with its escapes, or a dash, and the end of the line.
fn put_ending<S: Sink>(sink: &mut S, scope: Option<&Key>) -> Result<(), NoMemory>
    ensures ok { OnOk result (S.written sink.new ≡ S.written sink.old ++ ending_text (option_copied scope.entry)) }
    ensures room { OnOk result (S.room sink.old ≤ S.room sink.new + length (ending_text (option_copied scope.entry))) }
    ensures err { OnErr result (S.room sink.old ≤ length (ending_text (option_copied scope.entry))) }
{
    let Some(scope) = scope else {
        return sink.put(b" scope=-\n");
    };
    sink.put(b" scope=")?;
    put_scope(sink, scope.as_str())?;
    sink.put(b"\n")
}

// The same of a question that is answered, where nobody had to decide: most lines begin so.
fn usual_head(audit: &AuditView<'_>) -> Option<&'static str>
    ensures { IfSome result (λ t. (name : List ℕ) → t.now ≡ head_text name (audit_of audit.now)) }
{
    match (audit.code, audit.finding.decider, audit.action) {
        (0, Decider::Nobody, Action::See) => Some("# allow code=0 by=none action=see asker="),
        _ => None,
    }
}

// The code, who decided and what was asked for.
fn put_head<S: Sink>(sink: &mut S, rule: &str, audit: &AuditView<'_>) -> Result<(), NoMemory>
    ensures ok { OnOk result (S.written sink.new ≡ S.written sink.old ++ head_text rule.now (audit_of audit.now)) }
    ensures room { OnOk result (S.room sink.old ≤ S.room sink.new + length (head_text rule.now (audit_of audit.now))) }
    ensures err { OnErr result (S.room sink.old ≤ length (head_text rule.now (audit_of audit.now))) }
{
    if let Some(head) = usual_head(audit) {
        return sink.put(head.as_bytes());
    }
    put_beginning(sink, audit.code)?;
    put_decider(sink, rule, audit.finding.decider)?;
    sink.put(action_part(audit.action).as_bytes())
}

// On what, and the end of the line: in one piece where it is on nothing.
fn put_subject<S: Sink>(
    sink: &mut S,
    kind: Option<&ServiceType>,
    scope: Option<&Key>,
) -> Result<(), NoMemory>
    ensures ok { OnOk result (S.written sink.new ≡ S.written sink.old ++ (text_or_dash (option_copied kind.entry) ++ ending_text (option_copied scope.entry))) }
    ensures err { OnErr result (S.room sink.old ≤ length (text_or_dash (option_copied kind.entry) ++ ending_text (option_copied scope.entry))) }
{
    if let (None, None) = (kind, scope) {
        return sink.put(b"- scope=-\n");
    }
    sink.put(kind_text(kind).as_bytes())?;
    put_ending(sink, scope)
}

// By whom, and on what.
fn put_tail<S: Sink>(sink: &mut S, audit: &AuditView<'_>) -> Result<(), NoMemory>
    ensures ok { OnOk result (S.written sink.new ≡ S.written sink.old ++ tail_text (audit_of audit.now)) }
    ensures err { OnErr result (S.room sink.old ≤ length (tail_text (audit_of audit.now))) }
{
    put_asker(sink, audit.asker)?;
    put_subject(sink, audit.finding.kind, audit.finding.scope)
}

/// Appends the line that tells what came of a message, with the name of the rule that decided.
pub(crate) fn write_line<S: Sink>(
    sink: &mut S,
    rule: &str,
    audit: &AuditView<'_>,
) -> Result<(), NoMemory>
    ensures ok { OnOk result (S.written sink.new ≡ S.written sink.old ++ line_text rule.now (audit_of audit.now)) }
    ensures err { OnErr result (S.room sink.old ≤ length (line_text rule.now (audit_of audit.now))) }
{
    put_head(sink, rule, audit)?;
    put_tail(sink, audit)
}

/// Writes the line that tells what came of a message. A refusal leaves nothing.
pub(crate) fn put_line(
    rules: &Rules,
    audit: &AuditView<'_>,
    line: &mut Vec<u8>,
) -> Result<(), NoMemory>
    requires { line.old.items ≡ [] }
    ensures ok { OnOk result (line.new.items ≡ audit_text rules.now (audit_of audit.now)) }
    ensures err { OnErr result (line.new.items ≡ []) }
{
    let rule = rule_name(rules, audit.finding.decider);
    match write_line(line, rule, audit) {
        Ok(()) => Ok(()),
        Err(fault) => {
            line.clear();
            Err(fault)
        }
    }
}
