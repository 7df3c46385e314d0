//! Calls that have no answer for want of memory: each is answered while all memory is refused.
use crate::assertion::assert_holds;
use crate::refusals::hoard::Hoard;
use crate::refusals::messages::{REQUEST, bytes_of};
use crate::refusals::site::{OPEN, found, rules_of};
use access_rules::Action;
use addresses::Addr;
use attr_list::Attrs;
use replay_program::Replay;
use search_filter::Filter;
use service_url::{ServiceType, Url};
use slp_answer::Answer;
use slp_scopes::ScopeList;
use slp_stream::Framer;
use slp_tags::TagList;
use slp_text::{Key, NoMemory};
use srv_template::Templates;
use std::alloc::Global;
use template_files::template_of_text;

// A type with a key too long to lie in the key itself.
const KIND: &str = "service:printer-of-the-office.example";

const CONCRETE: &str = "service:printer-of-the-office.example:lpr";

const TEMPLATE: &str = "\
template-type=printer-of-the-office.example
template-version=1.0
template-description=
A printer.

template-url-syntax=

color = BOOLEAN
# Whether it prints in color.

location = STRING M O
# Where it stands.
the hall, the stairs
";

fn scopes_answer(alloc: Global, hoard: &mut Hoard) -> Result<bool, NoMemory> {
    let scopes = found(ScopeList::parse(alloc, "B,the first scope of the site"))?;
    let key = Key::of(alloc, "The First Scope of the Site")?;
    let is_taken = hoard.fill(alloc);
    let is_first = match scopes.at(0) {
        Some(scope) => scope.as_str() == "b",
        None => false,
    };
    Ok(is_taken && scopes.len() == 2 && is_first && scopes.has(&key))
}

fn tags_answer(alloc: Global, hoard: &mut Hoard) -> Result<bool, NoMemory> {
    let tags = found(TagList::parse(alloc, "color,the-place-where-*-stands"))?;
    let key = Key::of(alloc, "The-Place-Where-It-Stands")?;
    let is_taken = hoard.fill(alloc);
    Ok(is_taken && !tags.is_empty() && tags.selects(&key))
}

const ATTRIBUTES: &str = "(the-place-where-it-stands=the Hall),color";

fn attributes_answer(alloc: Global, hoard: &mut Hoard) -> Result<bool, NoMemory> {
    let key = Key::of(alloc, "The-Place-Where-It-Stands")?;
    let attributes = Box::new(alloc, found(Attrs::parse(alloc, ATTRIBUTES))?)?;
    let is_taken = hoard.fill(alloc);
    let is_second = match attributes.at(1) {
        Some((tag, _)) => tag.as_str() == key.as_str(),
        None => false,
    };
    Ok(is_taken && attributes.len() == 2 && is_second && attributes.get(&key).is_some())
}

fn filter_answer(alloc: Global, hoard: &mut Hoard) -> Result<bool, NoMemory> {
    let attributes = Box::new(alloc, found(Attrs::parse(alloc, ATTRIBUTES))?)?;
    let predicate = "(&(the-place-where-it-stands=THE h*)(!(ppm>=3)))";
    let filter = Box::new(alloc, found(Filter::parse(alloc, predicate))?)?;
    let location = Key::of(alloc, "The-Place-Where-It-Stands")?;
    let is_taken = hoard.fill(alloc);
    let where_it_stands = filter.holds_where(&attributes, &|tag: &Key| *tag == location);
    let elsewhere = filter.holds_where(&attributes, &|tag: &Key| *tag != location);
    Ok(is_taken && filter.holds(&attributes) && where_it_stands && !elsewhere)
}

fn kinds_answer(alloc: Global, hoard: &mut Hoard) -> Result<bool, NoMemory> {
    let kind = found(ServiceType::parse(alloc, KIND))?;
    let concrete = found(ServiceType::parse(alloc, CONCRETE))?;
    let url = found(Url::parse(alloc, "service:printer:lpr://the-printer-of-the-hall"))?;
    let is_taken = hoard.fill(alloc);
    Ok(
        is_taken
            && kind.covers(&concrete)
            && !concrete.covers(&kind)
            && kind.authority() == Some("example")
            && kind.text() == KIND
            && url.text() == "service:printer:lpr://the-printer-of-the-hall",
    )
}

const HIDING: &str = "version = 3

[[hide]]
name = \"where-it-stands\"
from = [\"10.0.0.0/8\"]
type = \"*\"
scopes = [\"The First Scope of the Site\", \"b\"]
tags = \"color,the-place-*-stands\"
spare-owner = true
";

fn rules_answer(alloc: Global, hoard: &mut Hoard) -> Result<bool, NoMemory> {
    let rules = rules_of(alloc, OPEN)?;
    let hiding = rules_of(alloc, HIDING)?;
    let kind = found(ServiceType::parse(alloc, KIND))?;
    let scope = Key::of(alloc, "the first scope of the site")?;
    let tag = Key::of(alloc, "The-Place-Where-It-Stands")?;
    let is_taken = hoard.fill(alloc);
    let (asker, other) = (Addr(0x0a00_0001), Addr(0x0a00_0002));
    let verdict = rules.decide(asker, Action::See, &kind, &scope, other);
    let is_allowed = verdict.allow && rules.len() == 3 && rules.name(2) == "all-see";
    let is_hidden = hiding.hide_tables().len() == 1
        && hiding.hidden(asker, &kind, &scope, other, &tag)
        && !hiding.hidden(asker, &kind, &scope, asker, &tag);
    Ok(is_taken && is_allowed && is_hidden)
}

fn templates_answer(alloc: Global, hoard: &mut Hoard) -> Result<bool, NoMemory> {
    let mut templates = Templates::new(alloc);
    found(templates.add(found(template_of_text(alloc, TEMPLATE))?))?;
    let kind = found(ServiceType::parse(alloc, CONCRETE))?;
    let fits = found(Attrs::parse(alloc, "(color=true),(location=The Stairs)"))?;
    let lacks = found(Attrs::parse(alloc, "(color=true),(location=the roof)"))?;
    let is_taken = hoard.fill(alloc);
    Ok(
        is_taken
            && templates.check(&kind, &fits).is_none()
            && templates.check(&kind, &lacks).is_some(),
    )
}

fn streams_answer(alloc: Global, hoard: &mut Hoard) -> Result<bool, NoMemory> {
    let bytes = bytes_of(alloc, REQUEST)?;
    let mut stream = Framer::new(alloc, 65_535);
    found(stream.feed(bytes.as_slice()))?;
    let is_taken = hoard.fill(alloc);
    let is_whole = match stream.next() {
        Some(Ok(message)) => message == bytes.as_slice(),
        _ => false,
    };
    Ok(is_taken && is_whole)
}

fn beginnings_answer(alloc: Global, hoard: &mut Hoard) -> Result<bool, NoMemory> {
    let is_taken = hoard.fill(alloc);
    let templates = Templates::new(alloc);
    let mut stream = Framer::new(alloc, 65_535);
    let answer = Answer::new(alloc);
    drop(Replay::new(alloc));
    let is_waiting = stream.next().is_none();
    Ok(is_taken && templates.as_slice().is_empty() && is_waiting && answer.bytes.is_empty())
}

static NAMES: [&str; 9] = [
    "scopes",
    "tags",
    "attributes",
    "a filter",
    "types and a URL",
    "rules",
    "templates",
    "a stream",
    "what is new",
];

// Makes what calls are lent, takes all memory, and asks.
fn is_answered(alloc: Global, name: &str) -> Result<bool, NoMemory> {
    let mut hoard = Hoard::new(alloc)?;
    match name {
        "scopes" => scopes_answer(alloc, &mut hoard),
        "tags" => tags_answer(alloc, &mut hoard),
        "attributes" => attributes_answer(alloc, &mut hoard),
        "a filter" => filter_answer(alloc, &mut hoard),
        "types and a URL" => kinds_answer(alloc, &mut hoard),
        "rules" => rules_answer(alloc, &mut hoard),
        "templates" => templates_answer(alloc, &mut hoard),
        "a stream" => streams_answer(alloc, &mut hoard),
        _ => beginnings_answer(alloc, &mut hoard),
    }
}

#[test]
fn what_takes_no_memory_is_answered_without(rt: HostRuntime) {
    for name in &NAMES {
        let told = is_answered(rt.alloc(), *name);
        assert_holds(&rt, told == Ok(true), *name);
    }
}
