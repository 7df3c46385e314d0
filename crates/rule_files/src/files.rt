//! Rule files, which are TOML.
ghost use Rattle.std.specs.Prelude.{◌≡◌, ◌≤◌, ◌+◌, IfOk, IfSome, map, length};
ghost use Rattle.std.specs.List.{list_any};
ghost use Rattle.std.specs.Option.{option_map};
ghost use Rattle.toml.specs.View.{table_view, view};
ghost use Rattle.slp_text.specs.Reading.{read_map};
ghost use Rattle.slp_text.specs.Words.{bytes_eq};
ghost use Rattle.rule_files.specs.RuleFiles as spec;
ghost use Rattle.rule_files.specs.RuleFiles.{all_values_in, deed_in, file_values_in, hidden_in, hide_in, hide_with, hides_from, matter_in, rule_in, rule_with, rules_from, rules_in_table, rules_in_text, IsReading};

use crate::fault::RuleFault;
use crate::fields;
use crate::version::Version;
use access_rules::{Action, Hide, Rule, Rules};
use service_url::ServiceType;
use slp_scopes::ScopeList;
use slp_tags::TagList;
use slp_text::NoMemory;
use std::alloc::Global;
use toml::{Table, Value};
use toml_tables::{array_values, value_at};

/// The bytes of the longest rule file.
const LONGEST_RULES: usize = 1_048_576;

/// The most rules and hide tables together.
const MOST_RULES: usize = 1_024;

// What is done, and whether it is allowed.
fn deed(table: &Table) -> Option<(Action, bool)>
    ensures { result ≡ deed_in (table_view table.now) }
{
    let action = fields::action(table)?;
    let allow = fields::verdict(table)?;
    Some((action, allow))
}

// The types and the scopes that a rule or a hide table is about.
fn matter(
    alloc: Global,
    table: &Table,
) -> Result<Option<(Option<ServiceType>, Option<ScopeList>)>, NoMemory>
    ensures { IfOk result (λ o. o ≡ matter_in (table_view table.now)) }
{
    let Some(kind) = fields::kind(alloc, table)? else {
        return Ok(None);
    };
    match fields::scopes(alloc, table)? {
        Some(scopes) => Ok(Some((kind, scopes))),
        None => Ok(None),
    }
}

// The rule of what stands at the keys of a table.
fn rule_of(alloc: Global, table: &Table) -> Result<Option<Rule>, NoMemory>
    ensures { IfOk result (λ o. o ≡ rule_with (table_view table.now)) }
{
    let Some((action, allow)) = deed(table) else {
        return Ok(None);
    };
    let Some((kind, scopes)) = matter(alloc, table)? else {
        return Ok(None);
    };
    let Some(owner) = fields::owner(table) else {
        return Ok(None);
    };
    let Some(name) = fields::name(alloc, table)? else {
        return Ok(None);
    };
    match fields::from(alloc, table)? {
        Some(from) => Ok(Some(Rule {
            name,
            from,
            action,
            kind,
            scopes,
            allow,
            owner,
        })),
        None => Ok(None),
    }
}

// The rule that a value is.
fn rule(alloc: Global, version: Version, value: &Value) -> Result<Option<Rule>, NoMemory>
    ensures { IfOk result (λ o. o ≡ rule_in version (view value.now)) }
{
    match value.as_table() {
        Some(table) if fields::has_rule_keys(version, table) => rule_of(alloc, table),
        _ => Ok(None),
    }
}

// The rules that values are, of which the first is rule 1.
#[tactic(auto, using(crate::proofs::ReadRules::read_one))]
fn rules(alloc: Global, version: Version, values: &[Value]) -> Result<Vec<Rule>, RuleFault>
    requires { length values.now ≤ 1024 }
    ensures { IsReading (read_map (λ v. v.items) result) (rules_from version 1 (map view values.now)) }
{
    let mut rules = Vec::new(alloc);
    for (i, value) in values.iter().enumerate() {
        match rule(alloc, version, value)? {
            Some(rule) => rules.push(rule)?,
            None => return Err(RuleFault::Shape(i + 1)),
        }
    }
    Ok(rules)
}

// The tags that are hidden, and whether owners are spared.
fn hidden(alloc: Global, table: &Table) -> Result<Option<(TagList, bool)>, NoMemory>
    ensures { IfOk result (λ o. o ≡ hidden_in (table_view table.now)) }
{
    let Some(tags) = fields::tags(alloc, table)? else {
        return Ok(None);
    };
    match fields::spare_owner(table) {
        Some(spared) => Ok(Some((tags, spared))),
        None => Ok(None),
    }
}

// The hide table of what stands at the keys of a table.
fn hide_of(alloc: Global, table: &Table) -> Result<Option<Hide>, NoMemory>
    ensures { IfOk result (λ o. o ≡ hide_with (table_view table.now)) }
{
    let Some((tags, spares_owner)) = hidden(alloc, table)? else {
        return Ok(None);
    };
    let Some((kind, scopes)) = matter(alloc, table)? else {
        return Ok(None);
    };
    let Some(name) = fields::name(alloc, table)? else {
        return Ok(None);
    };
    match fields::from(alloc, table)? {
        Some(from) => Ok(Some(Hide {
            name,
            from,
            kind,
            scopes,
            tags,
            spares_owner,
        })),
        None => Ok(None),
    }
}

// The hide table that a value is.
fn hide(alloc: Global, value: &Value) -> Result<Option<Hide>, NoMemory>
    ensures { IfOk result (λ o. o ≡ hide_in (view value.now)) }
{
    match value.as_table() {
        Some(table) if fields::has_hide_keys(table) => hide_of(alloc, table),
        _ => Ok(None),
    }
}

// The hide tables that values are, of which the first comes after so many rules.
#[tactic(auto, using(crate::proofs::ReadRules::read_one))]
fn hides(alloc: Global, rules: usize, values: &[Value]) -> Result<Vec<Hide>, RuleFault>
    requires { rules + length values.now ≤ 1024 }
    ensures { IsReading (read_map (λ v. v.items) result) (hides_from (rules + 1) (map view values.now)) }
{
    let mut hides = Vec::new(alloc);
    for (i, value) in values.iter().enumerate() {
        match hide(alloc, value)? {
            Some(hide) => hides.push(hide)?,
            None => return Err(RuleFault::Shape(rules + i + 1)),
        }
    }
    Ok(hides)
}

// Whether a rule has a name.
fn has(rules: &[Rule], name: &str) -> bool
    ensures { result ≡ list_any (λ r. bytes_eq name.now r.name) rules.now }
{
    rules.iter().any(|r| name == r.name.as_str())
}

// Whether a hide table has a name.
fn has_hide(hides: &[Hide], name: &str) -> bool
    ensures { result ≡ list_any (λ h. bytes_eq name.now h.name) hides.now }
{
    hides.iter().any(|h| name == h.name.as_str())
}

fn are_hides_named_once(hides: &[Hide]) -> bool
    ensures { result ≡ spec.are_hides_named_once hides.now }
{
    for i in 0..hides.len() {
        if has_hide(&hides[i + 1..], hides[i].name.as_str()) {
            return false;
        }
    }
    true
}

// Whether no two rules or hide tables have one name.
fn are_named_once(rules: &[Rule], hides: &[Hide]) -> bool
    ensures { result ≡ spec.are_named_once hides.now rules.now }
{
    for i in 0..rules.len() {
        let name = rules[i].name.as_str();
        if has(&rules[i + 1..], name) || has_hide(hides, name) {
            return false;
        }
    }
    are_hides_named_once(hides)
}

// The version of a rule file, if a table has no key besides those of one.
fn file_version(table: &Table) -> Option<Version>
    ensures { result ≡ spec.file_version (table_view table.now) }
{
    match fields::version(table) {
        Some(version) if fields::has_file_keys(version, table) => Some(version),
        _ => None,
    }
}

// The values of the array at a key, none where there is no key.
fn all_values<'a>(table: &'a Table, key: &str) -> Option<&'a [Value]>
    ensures { option_map (λ vs. map view vs.now) result ≡ all_values_in key.now (table_view table.now) }
{
    match value_at(table, key) {
        Some(value) => array_values(value),
        None => Some(&[]),
    }
}

// The values of the rules and those of the hide tables: at most 1,024 together.
fn file_values(table: &Table) -> Option<(&[Value], &[Value])>
    ensures value { option_map (λ p. (map view p.0.now, map view p.1.now)) result ≡ file_values_in (table_view table.now) }
    ensures few { IfSome result (λ p. length p.0.now + length p.1.now ≤ 1024) }
{
    let rules = all_values(table, "rule")?;
    let hides = all_values(table, "hide")?;
    if rules.len() > MOST_RULES || hides.len() > MOST_RULES - rules.len() {
        return None;
    }
    Some((rules, hides))
}

// These rules and hide tables, if no two have one name.
fn named_once(rules: Vec<Rule>, hides: Vec<Hide>) -> Result<Rules, RuleFault>
    ensures { IsReading result (spec.named_once rules.items hides.items) }
{
    if !are_named_once(&rules, &hides) {
        return Err(RuleFault::TwiceName);
    }
    Ok(Rules::new(rules, hides))
}

/// The rules that a table is: `version = 1`, `2` or `3`, and an array `rule` of tables, each of which has
/// `name`, `from`, `action`, `type`, `scopes` and `verdict`, and from version 2 on `owner` if it is wanted.
/// In version 3 there may be an array `hide` of tables, each of which has `name`, `from`, `type`, `scopes` and
/// `tags`, and `spare-owner` if it is wanted. First the file is asked for, then rule after rule and table after table
/// (`Shape`), last that no two have one name (`TwiceName`).
#[tactic(auto, unfolding(crate::specs::RuleFiles::rules_in_table))]
pub fn rules_of_table(alloc: Global, table: &Table) -> Result<Rules, RuleFault>
    ensures { IsReading result (rules_in_table (table_view table.now)) }
{
    let Some(version) = file_version(table) else {
        return Err(RuleFault::Shape(0));
    };
    let Some((rule_values, hide_values)) = file_values(table) else {
        return Err(RuleFault::Shape(0));
    };
    let rules = rules(alloc, version, rule_values)?;
    let hides = hides(alloc, rule_values.len(), hide_values)?;
    named_once(rules, hides)
}

/// The rules that a text of TOML is. One of more than 1,048,576 bytes is refused first, then one that
/// is not TOML.
#[tactic(auto, unfolding(crate::specs::RuleFiles::rules_in_text))]
pub fn rules_of_text(alloc: Global, text: &str) -> Result<Rules, RuleFault>
    ensures { IsReading result (rules_in_text text.now) }
{
    if text.len() > LONGEST_RULES {
        return Err(RuleFault::Shape(0));
    }
    match toml::table_from_str(alloc, text) {
        Ok(table) => {
            let rules = rules_of_table(alloc, &table);
            drop(table);
            rules
        }
        Err(fault) if fault.is_memory() => Err(RuleFault::NoMemory),
        Err(_) => Err(RuleFault::Toml),
    }
}
