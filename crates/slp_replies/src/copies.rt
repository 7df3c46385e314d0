//! What an audit line tells, for a caller that owns it. No program calls these.
ghost use Rattle.std.specs.Prelude.{◌≡◌, ◌++◌, OnOk, OnErr};
ghost use Rattle.slp_replies.specs.Audits.{audit_text};

use crate::audit::{AuditView, put_line};
use access_rules::{Action, Rules};
use addresses::Addr;
use directory_judge::Because;
use slp_text::NoMemory;

/// What came of a message: its code, who decided and on what, what was asked for, and by whom.
#[derive(Drop)]
pub struct Audit {
    pub code: u16,
    pub because: Because,
    pub action: Action,
    pub asker: Addr,
}

/// Appends the line that tells what came of a message. A refusal leaves the bytes as they were.
pub fn audit_line(rules: &Rules, audit: &Audit, line: &mut Vec<u8>) -> Result<(), NoMemory>
    ensures ok { OnOk result (line.new.items ≡ line.old.items ++ audit_text rules.now audit.now) }
    ensures err { OnErr result (line.new.items ≡ line.old.items) }
{
    let finding = audit.because.finding(false);
    let view = AuditView {
        code: audit.code,
        finding: &finding,
        action: audit.action,
        asker: audit.asker,
    };
    let mut whole = Vec::new(*line.allocator());
    put_line(rules, &view, &mut whole)?;
    line.extend_from_slice(&whole)?;
    Ok(())
}
