mod rows;

use crate::tables::{Asking, Question, assert_table, found, lines, part_of, whole};
use access_rules::{Action, Rules};
use addresses::Addr;
use rows::{FILES, LINES, TABLE};
use rule_files::{RuleFault, rules_of_text};
use service_url::ServiceType;
use slp_text::{Key, NoMemory, key};
use std::alloc::{AllocError, Global};

#[derive(Clone, Copy)]
struct RuleFiles;

// The names of the rules, and of the hide tables, which spare owners or hide from them, too.
fn print_names(rules: &Rules, out: &mut String) -> Result<(), NoMemory> {
    for place in 0..rules.len() {
        out.push(' ')?;
        out.push_str(rules.name(place))?;
    }
    for hide in rules.hide_tables() {
        out.push_str(if hide.spares_owner {
            " spares "
        } else {
            " hides "
        })?;
        out.push_str(hide.name.as_str())?;
    }
    Ok(())
}

fn print_file(alloc: Global, text: &str, out: &mut String) -> Result<(), RuleFault> {
    let rules = rules_of_text(alloc, text)?;
    let told = print_names(&rules, out);
    drop(rules);
    Ok(told?)
}

// A file of one rule, good but for the line of a key. Only of `owner` it is one of version 2, and of a key that hide tables alone have one of
// version 3 with one such table.
fn print_value(alloc: Global, key: &str, line: &str, out: &mut String) -> Result<(), RuleFault> {
    let parts = [
        (key, line),
        ("name", "name = 'a'"),
        ("from", "from = ['0.0.0.0/0']"),
        ("action", "action = 'register'"),
        ("type", "type = '*'"),
        ("scopes", "scopes = ['*']"),
        ("verdict", "verdict = 'allow'"),
        ("tags", "tags = 'location'"),
        ("spare-owner", ""),
    ];
    let text = match key {
        "owner" => "version = 2¶[[rule]]¶name¶from¶action¶type¶scopes¶verdict¶owner",
        "tags" | "spare-owner" => "version = 3¶[[hide]]¶name¶from¶type¶scopes¶tags¶spare-owner",
        _ => "version = 1¶[[rule]]¶name¶from¶action¶type¶scopes¶verdict",
    };
    let file = lines(alloc, text, &parts)?;
    print_file(alloc, file.as_str(), out)
}

// Who asks, the action, the text of the type, and who registered: the asker, where ` of ` names nobody.
fn asked(text: &str) -> Option<(Addr, Action, &str, Addr)> {
    let (asker, rest) = text.split_once(' ')?;
    let (action, rest) = rest.split_once(' ')?;
    let (kind, registrant) = rest.split_once(" of ").unwrap_or((rest, asker));
    let action = match action {
        "register" => Action::Register,
        "withdraw" => Action::Withdraw,
        _ => Action::See,
    };
    let asker = Addr::parse(asker.as_bytes())?;
    Some((asker, action, kind, Addr::parse(registrant.as_bytes())?))
}

fn print_verdict(
    rules: &Rules,
    question: (Addr, Action, &ServiceType, Addr),
    scope: &Key,
    out: &mut String,
) -> Result<(), AllocError> {
    let (asker, action, kind, registrant) = question;
    let verdict = rules.decide(asker, action, kind, scope, registrant);
    out.push_str(if verdict.allow {
        "allow by "
    } else {
        "deny by "
    })?;
    match verdict.rule {
        Some(place) => out.push_str(rules.name(place)),
        None => out.push_str("no rule"),
    }
}

// Which of some tags are hidden.
fn print_hidden(
    alloc: Global,
    rules: &Rules,
    question: (Addr, Action, &ServiceType, Addr),
    scope: &Key,
    out: &mut String,
) -> Result<(), NoMemory> {
    let (asker, _, kind, registrant) = question;
    for name in ["color", "location", "lock"] {
        let tag = found(key(alloc, name))?;
        if rules.hidden(asker, kind, scope, registrant, &tag) {
            out.push(' ')?;
            out.push_str(name)?;
        }
    }
    Ok(())
}

fn print_decided(
    alloc: Global,
    word: &str,
    rules: &Rules,
    text: &str,
    scope: &str,
    out: &mut String,
) -> Result<(), RuleFault> {
    let Some((asker, action, kind, registrant)) = asked(text) else {
        return Err(RuleFault::Toml);
    };
    let kind = found(ServiceType::parse(alloc, kind))?;
    let scope = found(key(alloc, scope))?;
    let question = (asker, action, &kind, registrant);
    if word == "hidden" {
        return Ok(print_hidden(alloc, rules, question, &scope, out)?);
    }
    Ok(print_verdict(rules, question, &scope, out)?)
}

fn print_decision(alloc: Global, row: Question<'_>, out: &mut String) -> Result<(), RuleFault> {
    let Some((name, text)) = row.text.split_once(' ') else {
        return Err(RuleFault::Toml);
    };
    let file = whole(alloc, part_of(name, &FILES))?;
    let rules = rules_of_text(alloc, file.as_str())?;
    let told = print_decided(alloc, row.word, &rules, text, row.beside, out);
    drop(rules);
    told
}

impl Asking for RuleFiles {
    type Fault = RuleFault;

    fn print(self, alloc: Global, row: Question<'_>, out: &mut String) -> Result<(), RuleFault> {
        match row.word {
            "decided" | "hidden" => print_decision(alloc, row, out),
            "file" => {
                let file = lines(alloc, row.text, &LINES)?;
                print_file(alloc, file.as_str(), out)
            }
            key => {
                let line = lines(alloc, row.text, &[])?;
                print_value(alloc, key, line.as_str(), out)
            }
        }
    }
}

#[test]
fn rule_files_are_read_and_decide(rt: HostRuntime) {
    assert_table(&rt, rt.alloc(), RuleFiles, TABLE);
}
