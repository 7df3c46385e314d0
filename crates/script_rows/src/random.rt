//! Changes in which no order is seen, through the writer and on a directory of its own.
use crate::numbers::Numbers;
use crate::opening::OPENING_RULES;
use crate::scene::{Scene, call_of};
use crate::words::message_of;
use addresses::Addr;
use history_log::Naming;
use slp_answer::Call;
use std::alloc::{AllocError, Global};
use std::io;
use std::sync::Wait;

/// A rule file that shows nothing to anyone and lets everyone register in one scope.
const CLOSED_RULES: &str = "\
version = 1
rule = [
    { name = \"register-a\", from = [\"0.0.0.0/0\"], action = \"register\", type = \"*\", scopes = [\"A\"], verdict = \"allow\" },
    { name = \"hide\", from = [\"0.0.0.0/0\"], action = \"see\", type = \"*\", scopes = [\"*\"], verdict = \"deny\" },
]
";

/// A rule file with a rule for each of two askers.
const OTHER_RULES: &str = "\
version = 1
rule = [
    { name = \"one-a\", from = [\"10.0.0.1/32\"], action = \"see\", type = \"*\", scopes = [\"A\"], verdict = \"allow\" },
    { name = \"two\", from = [\"10.0.0.2/32\"], action = \"see\", type = \"service:a\", scopes = [\"*\"], verdict = \"allow\" },
    { name = \"all-register\", from = [\"0.0.0.0/0\"], action = \"register\", type = \"*\", scopes = [\"*\"], verdict = \"allow\" },
    { name = \"all-withdraw\", from = [\"0.0.0.0/0\"], action = \"withdraw\", type = \"service:a\", scopes = [\"*\"], verdict = \"allow\" },
]
";

static RULES: [&str; 4] = [OPENING_RULES, CLOSED_RULES, OTHER_RULES, OPENING_RULES];

static KINDS: [&str; 4] = ["service:a", "service:a:x", "service:b", "http"];

static SCOPES: [&str; 4] = ["DEFAULT", "A", "A,B", "none"];

static ATTRIBUTES: [&str; 4] = ["", "(x=1)", "(x=2),(y=a,b)", "(x=1"];

static LIVES: [&str; 4] = ["1", "5", "100", "65535"];

static TAGS: [&str; 3] = ["x", "y,x", "z*"];

static PREDICATES: [&str; 4] = ["(x=1)", "(x>=2)", "(!(y=a))", "(x=1"];

static QUESTIONS: [&str; 4] = ["find", "find", "attributes", "types"];

static CHANGES: [&str; 8] = [
    "register", "register", "register", "update", "update", "withdraw", "withdraw", "remove",
];

/// The flag of a fresh registration, in the first byte of the flags.
const FRESH: u8 = 0x40;

// The words of some change.
fn change_words(alloc: Global, numbers: &mut Numbers) -> Result<(String, bool), AllocError> {
    let word = numbers.text(&CHANGES);
    let number = numbers.below(24);
    let scopes = numbers.text(&SCOPES);
    let line = match word {
        "withdraw" => format!(in alloc; "withdraw service:a://{number} {scopes}")?,
        "remove" => {
            let tags = numbers.text(&TAGS);
            format!(in alloc; "withdraw service:a://{number} {scopes} {tags}")?
        }
        _ => {
            let (kind, life) = (numbers.text(&KINDS), numbers.text(&LIVES));
            let attributes = numbers.text(&ATTRIBUTES);
            format!(in alloc; "register service:a://{number} {kind} {scopes} {life} {attributes}")?
        }
    };
    Ok((line, word == "update"))
}

// Some message that asks for a change.
fn some_change(alloc: Global, numbers: &mut Numbers) -> Result<Vec<u8>, AllocError> {
    let (words, is_update) = change_words(alloc, numbers)?;
    let mut bytes = message_of(alloc, words.as_str())?;
    if is_update {
        if let Some(flags) = bytes.get_mut(5) {
            *flags &= !FRESH;
        }
    }
    Ok(bytes)
}

// Some question.
fn some_question(alloc: Global, numbers: &mut Numbers) -> Result<Vec<u8>, AllocError> {
    let word = numbers.text(&QUESTIONS);
    let kind = numbers.text(&KINDS);
    let scopes = numbers.text(&SCOPES);
    let words = match word {
        "types" => format!(in alloc; "types {scopes}")?,
        "attributes" => {
            let number = numbers.below(24);
            format!(in alloc; "attributes service:a://{number} {scopes}")?
        }
        _ => {
            let predicate = numbers.text(&PREDICATES);
            if numbers.below(2) == 0 {
                format!(in alloc; "find {kind} {scopes}")?
            } else {
                format!(in alloc; "find {kind} {scopes} {predicate}")?
            }
        }
    };
    message_of(alloc, words.as_str())
}

impl<'r, J: Naming, R: Wait> Scene<'r, J, R> {
    // Whether what is published and the directory of its own answer the same.
    fn is_answered_alike(&mut self, call: &Call<'_>) -> bool {
        let told = self.send(call);
        let stepped = self.step(call);
        let is_same = self.answer.bytes.as_slice() == self.plain_answer.bytes.as_slice()
            && self.answer.audit.as_slice() == self.plain_answer.audit.as_slice();
        told == stepped && told.is_ok() && is_same
    }

    // A change of both: a message's, a sweep, or other rules.
    fn is_changed_alike(&mut self, numbers: &mut Numbers, moment: u32) -> io::Result<bool> {
        match numbers.below(512) {
            0..=15 => Ok(self.sweep(moment).is_ok()),
            16 => {
                let rules = numbers.text(&RULES);
                Ok(self.reload(moment, rules).is_ok())
            }
            _ => {
                let bytes = some_change(self.alloc, numbers)?;
                let call = some_call(numbers, moment, bytes.as_slice());
                Ok(self.is_answered_alike(&call))
            }
        }
    }

    /// So many changes, one after the other, after each of which a loop may learn of it, and one is asked. Tells after how many
    /// all was answered as the directory of its own did.
    pub(crate) fn take_random(&mut self, times: u32) -> io::Result<u32> {
        let mut numbers = Numbers::new();
        let mut moment = 0u32;
        for count in 0..times {
            moment = moment.saturating_add(numbers.below(3) as u32);
            let is_alike = self.is_changed_alike(&mut numbers, moment)?;
            if numbers.below(4) == 0 {
                let place = numbers.below(2);
                if self.note().is_err() || self.learn(place).is_err() {
                    return Ok(count);
                }
            }
            self.turn_to(numbers.below(2));
            let bytes = some_question(self.alloc, &mut numbers)?;
            let call = some_call(&mut numbers, moment, bytes.as_slice());
            if !is_alike || !self.is_answered_alike(&call) {
                return Ok(count);
            }
        }
        Ok(times)
    }
}

// One of two askers, about now.
fn some_call<'a>(numbers: &mut Numbers, moment: u32, bytes: &'a [u8]) -> Call<'a> {
    let asker = if numbers.below(2) == 0 {
        Addr(0x0a00_0001)
    } else {
        Addr(0x0a00_0002)
    };
    let moment = moment.saturating_sub(numbers.below(2) as u32);
    call_of(moment, asker, bytes)
}
