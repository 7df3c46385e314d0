ghost use Rattle.std.specs.Prelude.{◌≡◌, ◌≤◌, ◌<◌, length, IfOk};
ghost use Rattle.slp_scopes.specs.Scopes.{printed_scopes};

mod rows;

use crate::libraries::messages::bytes_of;
use crate::tables::{Asking, Question, assert_table, found, part_of};
use access_rules::Rules;
use addresses::Addr;
use directory_judge::{Change, Judged, Site, judge_on};
use directory_questions::{Authority, Target};
use directory_state::{AttrQuery, Directory, QueryFault, ServiceQuery, TypeQuery};
use registry_core::{ListRegistry, Registry};
use rows::{MESSAGES, TABLE};
use rule_files::rules_of_text;
use service_url::ServiceType;
use slp_answer::{Answer, Sent, acknowledge, is_change};
use slp_scopes::ScopeList;
use slp_tags::TagList;
use slp_text::{NoMemory, key};
use slp_wire::{Message, decode};
use srv_template::Templates;
use std::alloc::{AllocError, Global};
use std::sync::Arc;

#[derive(Clone, Copy)]
struct Directories;

const OPEN: &str = "\
version = 1
rule = [
    { name = 'all-register', from = ['0.0.0.0/0'], action = 'register', type = '*', scopes = ['*'], verdict = 'allow' },
    { name = 'all-withdraw', from = ['0.0.0.0/0'], action = 'withdraw', type = '*', scopes = ['*'], verdict = 'allow' },
    { name = 'all-see', from = ['0.0.0.0/0'], action = 'see', type = '*', scopes = ['*'], verdict = 'allow' },
]
";

// The rules of a text.
fn rules_of(alloc: Global, text: &str) -> Result<Arc<Rules>, NoMemory> {
    let rules = found(rules_of_text(alloc, text))?;
    Ok(Arc::new(alloc, rules)?)
}

// The one scope that a text names, of at most 1,024 bytes where it is written.
fn one_scope(alloc: Global, scope: &str) -> Result<ScopeList, NoMemory>
    ensures one { IfOk result (λ scopes. length scopes ≡ 1) }
    ensures short { IfOk result (λ scopes. length (printed_scopes scopes) ≤ 1024) }
{
    let scopes = found(ScopeList::parse(alloc, scope))?;
    let mut written = String::new(alloc);
    scopes.print_into(&mut written)?;
    if scopes.len() == 1 && written.len() <= 1024 {
        Ok(scopes)
    } else {
        Err(NoMemory)
    }
}

// A site of one scope, with room for so many entries.
fn site(alloc: Global, capacity: usize) -> Result<Site, NoMemory>
    requires some { 0 < capacity }
    requires few { capacity ≤ 65536 }
    ensures { IfOk result (λ site. site.capacity ≡ capacity) }
{
    let scopes = one_scope(alloc, "DEFAULT")?;
    let templates = Arc::new(alloc, Templates::new(alloc))?;
    Ok(Site::new(scopes, capacity, templates, 1))
}

// A directory of one scope and open rules. It is boxed, since the proof of a function that lets go of one is long.
fn opened(alloc: Global) -> Result<Box<Directory<ListRegistry>>, NoMemory> {
    let site = site(alloc, 4)?;
    let rules = rules_of(alloc, OPEN)?;
    let Ok(registry) = ListRegistry::new(alloc, 4) else {
        return Err(NoMemory);
    };
    Ok(Box::new(alloc, Directory::open(alloc, registry, &site, rules)?)?)
}

// Makes a share of a change.
fn make_share(directory: &mut Directory<ListRegistry>, change: Change) -> Result<(), NoMemory> {
    let share = change.share();
    drop(change);
    directory.apply(share?);
    Ok(())
}

// Takes the bytes of a message, and tells the code of the reply.
fn take_message(
    alloc: Global,
    directory: &mut Directory<ListRegistry>,
    moment: u32,
    bytes: &[u8],
    answer: &mut Answer,
) -> Result<u16, NoMemory> {
    if !is_change(bytes) {
        return Err(NoMemory);
    }
    let (sent, change) = acknowledge(alloc, directory, moment, Addr(1), bytes, answer)?;
    if let Some(change) = change {
        make_share(directory, change)?;
    }
    match sent {
        Sent::Bytes(code) => Ok(code),
        Sent::Silence => Ok(0),
    }
}

// Takes a message so often, and tells the greatest code.
fn take_messages(
    alloc: Global,
    directory: &mut Directory<ListRegistry>,
    moment: u32,
    name: &str,
    times: u32,
) -> Result<u16, NoMemory> {
    let bytes = bytes_of(alloc, part_of(name, &MESSAGES))?;
    let mut answer = Answer::new(alloc);
    let mut code = 0;
    for _ in 0..times {
        let told = take_message(alloc, directory, moment, bytes.as_slice(), &mut answer)?;
        code = told.max(code);
    }
    Ok(code)
}

// Takes what a name stands for, and tells the code of the reply to a message.
fn take_step(
    alloc: Global,
    directory: &mut Directory<ListRegistry>,
    moment: u32,
    name: &str,
) -> Result<u16, NoMemory> {
    let event = match name {
        "sweep" => Change::Sweep(moment),
        "closed" => Change::Reload(moment, rules_of(alloc, "version = 1")?),
        "open" => Change::Reload(moment, rules_of(alloc, OPEN)?),
        "a 100000 times" => return take_messages(alloc, directory, moment, "a", 100_000),
        name => return take_messages(alloc, directory, moment, name, 1),
    };
    make_share(directory, event)?;
    Ok(0)
}

fn take_steps(
    alloc: Global,
    directory: &mut Directory<ListRegistry>,
    steps: &str,
    out: &mut String,
) -> Result<(), NoMemory> {
    for step in steps.split(", ") {
        if let Some((moment, name)) = step.split_once(' ') {
            let moment = moment.parse::<u32>().unwrap_or(0);
            let code = take_step(alloc, directory, moment, name)?;
            if code > 0 {
                write!(out, "{name} {code} ")?;
            }
        }
    }
    Ok(())
}

fn service_query(alloc: Global, scope: &str) -> Result<ServiceQuery, NoMemory> {
    Ok(ServiceQuery {
        kind: found(ServiceType::parse(alloc, "service:printer"))?,
        scopes: found(ScopeList::parse(alloc, scope))?,
        language: found(key(alloc, "en"))?,
        filter: None,
    })
}

fn print_services(
    alloc: Global,
    directory: &Directory<ListRegistry>,
    scope: &str,
    out: &mut String,
) -> Result<(), QueryFault> {
    let query = service_query(alloc, scope)?;
    let told = directory.services(alloc, 0, Addr(1), &query);
    drop(query);
    for entry in told?.as_slice() {
        write!(out, " {} {}", entry.url.as_str(), entry.lifetime)?;
    }
    Ok(())
}

fn attribute_query(alloc: Global, scope: &str) -> Result<AttrQuery, NoMemory> {
    Ok(AttrQuery {
        target: Target::Kind(found(ServiceType::parse(alloc, "service:printer"))?),
        scopes: found(ScopeList::parse(alloc, scope))?,
        language: found(key(alloc, "en"))?,
        tags: found(TagList::parse(alloc, ""))?,
    })
}

fn print_attributes(
    alloc: Global,
    directory: &Directory<ListRegistry>,
    scope: &str,
    out: &mut String,
) -> Result<(), QueryFault> {
    let query = attribute_query(alloc, scope)?;
    let told = directory.attributes(alloc, 0, Addr(1), &query);
    drop(query);
    Ok(found(told?.print_into(out))?)
}

fn print_types(
    alloc: Global,
    directory: &Directory<ListRegistry>,
    scope: &str,
    out: &mut String,
) -> Result<(), QueryFault> {
    let query = TypeQuery {
        authority: Authority::All,
        scopes: found(ScopeList::parse(alloc, scope))?,
    };
    let told = directory.types(alloc, 0, Addr(1), &query);
    drop(query);
    for kind in told?.as_slice() {
        write!(out, " {}", kind.text())?;
    }
    Ok(())
}

fn put_judged(judged: &Judged, out: &mut String) -> Result<(), AllocError> {
    let (code, because, placed) = match judged {
        Judged::Accept(Change::Put(placed) | Change::Edit(placed), because) => {
            (0, because, Some(placed))
        }
        Judged::Accept(_, because) => (0, because, None),
        Judged::Deny(code, because) => (*code, because, None),
        Judged::Nothing => return out.push_str(" nothing;"),
    };
    let kind = match &because.kind {
        Some(kind) => kind.text(),
        None => "-",
    };
    let scope = match &because.scope {
        Some(scope) => scope.as_str(),
        None => "-",
    };
    let (moment, deadline) = match placed {
        Some(placed) => (placed.moment, placed.entry.deadline),
        None => (0, 0),
    };
    let decider = because.decider;
    write!(
        out,
        " {code} {decider:?} {kind} {scope} {moment} {deadline};"
    )
}

fn print_judged(judged: Result<Judged, NoMemory>, out: &mut String) -> Result<(), NoMemory> {
    let judged = judged?;
    let told = put_judged(&judged, out);
    drop(judged);
    Ok(told?)
}

// What comes of a message at moment 7, and what its parts make of it.
fn print_judgements(
    alloc: Global,
    directory: &Directory<ListRegistry>,
    message: &Message,
    out: &mut String,
) -> Result<(), NoMemory> {
    match message {
        Message::Registration(_, _) | Message::Withdrawal(_, _) => {
            print_judged(directory.judge(alloc, 7, Addr(1), message), out)?;
            let (registry, rules, site) = (
                directory.registry(),
                directory.rules(),
                directory.site(),
            );
            print_judged(
                judge_on(alloc, registry, rules, site, 7, Addr(1), message),
                out,
            )
        }
        _ => Err(NoMemory),
    }
}

fn print_judgement(
    alloc: Global,
    directory: &Directory<ListRegistry>,
    name: &str,
    out: &mut String,
) -> Result<(), NoMemory> {
    let bytes = bytes_of(alloc, part_of(name, &MESSAGES))?;
    let Ok(message) = decode(alloc, bytes.as_slice()) else {
        return Err(NoMemory);
    };
    let told = print_judgements(alloc, directory, &message, out);
    drop(message);
    told
}

impl Asking for Directories {
    type Fault = QueryFault;

    fn print(self, alloc: Global, row: Question<'_>, out: &mut String) -> Result<(), QueryFault> {
        let mut directory = opened(alloc)?;
        take_steps(alloc, &mut directory, row.text, out)?;
        match row.word {
            "services" => print_services(alloc, &directory, row.beside, out),
            "attributes" => print_attributes(alloc, &directory, row.beside, out),
            "types" => print_types(alloc, &directory, row.beside, out),
            "number" => Ok(write!(out, "{}", directory.registry().len())?),
            _ => Ok(print_judgement(alloc, &directory, row.beside, out)?),
        }
    }
}

#[test]
fn directories_answer_after_their_history(rt: HostRuntime) {
    assert_table(&rt, rt.alloc(), Directories, TABLE);
}
