//! What is lawful in a site, and surely not meant.
ghost use Rattle.std.specs.Prelude.{◌≡◌, ◌+◌, ◌-◌, ◌^◌, ◌<◌, flat_map, length, OnOk};
ghost use Rattle.std.specs.Io.KnownBytes.{Appends};
ghost use Rattle.std.specs.List.{enumerate_from};
ghost use Rattle.std.specs.Option.{option_copied};
ghost use Rattle.site_check.specs.Lines.{place_in};
ghost use Rattle.site_check.specs.RuleWarnings as spec;
ghost use Rattle.site_check.specs.RuleWarnings.{absence_line, form_line, from_line, from_lines, hidden_lines, hide_lines, kind_line, kind_lines, rule_kind_line, rule_lines, scope_line, scope_lines, sight_line, stand_line, warnings_of_rules};

use crate::fault::CheckFault;
use crate::hiding::{hides, is_same};
use crate::problem::{Numbered, Place, Warning, warn};
use access_rules::{Action, Hide, Rule, Rules};
use addresses::Prefix;
use service_url::ServiceType;
use slp_scopes::ScopeList;
use slp_text::Key;
use std::io::{self, Write};

// Writes which of some earlier rules hides one, if there is one.
fn warn_of_hiding<W: Write>(
    place: Place<'_>,
    rule: &Rule,
    earlier: &[Rule],
    writer: &mut W,
) -> io::Result<()>
    ensures { OnOk result (Appends (W.contents writer.old) (W.contents writer.new) (hidden_lines (place_in place.entry) rule.now earlier.now)) }
{
    for (i, other) in earlier.iter().enumerate() {
        if hides(other, rule) {
            return warn(place, Warning::Hidden(i + 1, other.name.as_str()), writer);
        }
    }
    Ok(())
}

// Whether two types have one in common: a rule of the first type is about some type that one of the second is about.
fn meets(a: Option<&ServiceType>, b: Option<&ServiceType>) -> bool
    ensures { result ≡ spec.meets (option_copied a.entry) (option_copied b.entry) }
{
    match (a, b) {
        (Some(a), Some(b)) => a.covers(b) || b.covers(a),
        _ => true,
    }
}

// Whether a rule lets someone register some type that a rule of this one is about.
fn lets_stand(rule: &Rule, kind: Option<&ServiceType>) -> bool
    ensures { result ≡ spec.lets_stand (option_copied kind.entry) rule.now }
{
    rule.allow && is_same(rule.action, Action::Register) && meets(rule.kind.as_ref(), kind)
}

// The same where the rule names its type.
fn lets_named_stand(rule: &Rule, kind: Option<&ServiceType>) -> bool
    ensures { result ≡ spec.lets_named_stand (option_copied kind.entry) rule.now }
{
    rule.kind.is_some() && lets_stand(rule, kind)
}

// Whether some rule lets someone register some type that a rule of this one is about.
fn may_stand(rules: &[Rule], kind: Option<&ServiceType>) -> bool
    ensures { result ≡ spec.may_stand rules.now (option_copied kind.entry) }
{
    rules.iter().any(|rule| lets_stand(rule, kind))
}

// Whether some rule that names its type lets someone register some type that a rule of this one is about.
fn named_may_stand(rules: &[Rule], kind: Option<&ServiceType>) -> bool
    ensures { result ≡ spec.named_may_stand rules.now (option_copied kind.entry) }
{
    rules.iter().any(|rule| lets_named_stand(rule, kind))
}

// Whether not all bits of a prefix behind those that count are 0.
fn has_more(prefix: &Prefix) -> bool
    ensures { result ≡ spec.has_more prefix.now }
{
    let ignored = 32u32.saturating_sub(u32::from(prefix.bits));
    let addr = u64::from(prefix.addr.0);
    addr >> ignored << ignored != addr
}

// Writes that a prefix, which has this index, has such bits.
fn warn_of_prefix<W: Write>(
    place: Place<'_>,
    index: usize,
    prefix: &Prefix,
    from: &[Prefix],
    writer: &mut W,
) -> io::Result<()>
    requires { index < length from.now }
    ensures { OnOk result (Appends (W.contents writer.old) (W.contents writer.new) (from_line (place_in place.entry) (index, prefix.now))) }
{
    if has_more(prefix) {
        return warn(place, Warning::MoreBits(index + 1), writer);
    }
    Ok(())
}

// Writes each of some prefixes that has such bits.
fn warn_of_from<W: Write>(place: Place<'_>, from: &[Prefix], writer: &mut W) -> io::Result<()>
    ensures { OnOk result (Appends (W.contents writer.old) (W.contents writer.new) (from_lines (place_in place.entry) from.now)) }
{
    for (i, prefix) in from.iter().enumerate() {
        warn_of_prefix(place, i, prefix, from, writer)?;
    }
    Ok(())
}

// Writes a scope that a site does not have.
fn warn_of_scope<W: Write>(
    place: Place<'_>,
    scope: &Key,
    scopes: &ScopeList,
    writer: &mut W,
) -> io::Result<()>
    ensures { OnOk result (Appends (W.contents writer.old) (W.contents writer.new) (scope_line (place_in place.entry) scopes.now scope.now)) }
{
    if scopes.has(scope) {
        return Ok(());
    }
    warn(place, Warning::NoScope(scope.as_str()), writer)
}

// Writes each scope of some that a site does not have.
fn warn_of_named<W: Write>(
    place: Place<'_>,
    named: &ScopeList,
    scopes: &ScopeList,
    writer: &mut W,
) -> io::Result<()>
    ensures { OnOk result (Appends (W.contents writer.old) (W.contents writer.new) (flat_map (scope_line (place_in place.entry) scopes.now) named.now)) }
{
    for i in 0..named.len() {
        if let Some(scope) = named.at(i) {
            warn_of_scope(place, scope, scopes, writer)?;
        }
    }
    Ok(())
}

// Writes each scope of a rule or a hide table that a site does not have.
fn warn_of_scopes<W: Write>(
    place: Place<'_>,
    named: Option<&ScopeList>,
    scopes: &ScopeList,
    writer: &mut W,
) -> io::Result<()>
    ensures { OnOk result (Appends (W.contents writer.old) (W.contents writer.new) (scope_lines (place_in place.entry) scopes.now (option_copied named.entry))) }
{
    match named {
        Some(named) => warn_of_named(place, named, scopes, writer),
        None => Ok(()),
    }
}

// Writes that no rule lets anyone register a service of a type, where that is so.
fn warn_of_kind<W: Write>(
    place: Place<'_>,
    kind: Option<&ServiceType>,
    rules: &[Rule],
    writer: &mut W,
) -> io::Result<()>
    ensures { OnOk result (Appends (W.contents writer.old) (W.contents writer.new) (kind_line (place_in place.entry) rules.now (option_copied kind.entry))) }
{
    match kind {
        Some(named) if !may_stand(rules, kind) => {
            warn(place, Warning::NoType(named.text()), writer)
        }
        _ => Ok(()),
    }
}

/// Writes that no rule lets anyone register a service of a type, or none but rules about every type, where that is so.
pub(crate) fn warn_of_stand<W: Write>(
    place: Place<'_>,
    kind: Option<&ServiceType>,
    rules: &[Rule],
    writer: &mut W,
) -> io::Result<()>
    ensures { OnOk result (Appends (W.contents writer.old) (W.contents writer.new) (stand_line (place_in place.entry) rules.now (option_copied kind.entry))) }
{
    match kind {
        Some(named) if !named_may_stand(rules, kind) => {
            if may_stand(rules, kind) {
                warn(place, Warning::AnyType(named.text()), writer)
            } else {
                warn(place, Warning::NoType(named.text()), writer)
            }
        }
        _ => Ok(()),
    }
}

// Writes that no rule lets anyone register a service of the type of a rule, where that is so, unless the rule is itself about registering.
fn warn_of_rule_kind<W: Write>(
    place: Place<'_>,
    rule: &Rule,
    rules: &[Rule],
    writer: &mut W,
) -> io::Result<()>
    ensures { OnOk result (Appends (W.contents writer.old) (W.contents writer.new) (rule_kind_line (place_in place.entry) rules.now rule.now)) }
{
    if is_same(rule.action, Action::Register) {
        return Ok(());
    }
    warn_of_kind(place, rule.kind.as_ref(), rules, writer)
}

// Whether a type begins with `service:`.
fn is_of_service(kind: &ServiceType) -> bool
    ensures { result ≡ spec.is_of_service kind.now }
{
    match kind.service_name() {
        Some(_) => true,
        None => false,
    }
}

// Writes that a rule is about a type that does not, where that is so.
fn warn_of_form<W: Write>(
    place: Place<'_>,
    kind: Option<&ServiceType>,
    writer: &mut W,
) -> io::Result<()>
    ensures { OnOk result (Appends (W.contents writer.old) (W.contents writer.new) (form_line (place_in place.entry) (option_copied kind.entry))) }
{
    match kind {
        Some(kind) if !is_of_service(kind) => {
            warn(place, Warning::NoService(kind.text()), writer)
        }
        _ => Ok(()),
    }
}

// Writes what is surely not meant with the type of a rule.
fn warn_of_kinds<W: Write>(
    place: Place<'_>,
    rule: &Rule,
    rules: &[Rule],
    writer: &mut W,
) -> io::Result<()>
    ensures { OnOk result (Appends (W.contents writer.old) (W.contents writer.new) (kind_lines (place_in place.entry) rules.now rule.now)) }
{
    warn_of_rule_kind(place, rule, rules, writer)?;
    warn_of_form(place, rule.kind.as_ref(), writer)
}

/// The rules of a site and its scopes.
#[derive(Clone, Copy)]
struct Site<'a> {
    rules: &'a [Rule],
    scopes: &'a ScopeList,
}

// Writes what is surely not meant with a rule, which has this index among the rules.
fn warn_of_rule<W: Write>(
    file: &str,
    index: usize,
    rule: &Rule,
    site: Site<'_>,
    writer: &mut W,
) -> io::Result<()>
    requires { index < length site.rules.now }
    ensures { OnOk result (Appends (W.contents writer.old) (W.contents writer.new) (rule_lines file.now site.entry.rules.now site.entry.scopes.now (index, rule.now))) }
{
    let place = Place::Numbered(file, Numbered::Rule(index + 1), Some(rule.name.as_str()));
    warn_of_hiding(place, rule, &site.rules[..index], writer)?;
    warn_of_from(place, rule.from.as_slice(), writer)?;
    warn_of_scopes(place, rule.scopes.as_ref(), site.scopes, writer)?;
    warn_of_kinds(place, rule, site.rules, writer)
}

// Writes what is surely not meant with rules.
fn warn_of_each_rule<W: Write>(file: &str, site: Site<'_>, writer: &mut W) -> io::Result<()>
    ensures { OnOk result (Appends (W.contents writer.old) (W.contents writer.new) (flat_map (rule_lines file.now site.entry.rules.now site.entry.scopes.now) (enumerate_from 0 site.entry.rules.now))) }
{
    for (i, rule) in site.rules.iter().enumerate() {
        warn_of_rule(file, i, rule, site, writer)?;
    }
    Ok(())
}

// Writes what is surely not meant with a hide table, which has this index among the hide tables.
fn warn_of_hide<W: Write>(
    file: &str,
    index: usize,
    hide: &Hide,
    site: Site<'_>,
    writer: &mut W,
) -> io::Result<()>
    requires { length site.rules.now + index < 2 ^ 64 - 1 }
    ensures { OnOk result (Appends (W.contents writer.old) (W.contents writer.new) (hide_lines file.now site.entry.rules.now site.entry.scopes.now (index, hide.now))) }
{
    let number = site.rules.len() + index + 1;
    let place = Place::Numbered(file, Numbered::Hide(number), Some(hide.name.as_str()));
    warn_of_from(place, hide.from.as_slice(), writer)?;
    warn_of_scopes(place, hide.scopes.as_ref(), site.scopes, writer)?;
    warn_of_kind(place, hide.kind.as_ref(), site.rules, writer)
}

// Writes what is surely not meant with hide tables, which come after the rules.
fn warn_of_each_hide<W: Write>(
    file: &str,
    hides: &[Hide],
    site: Site<'_>,
    writer: &mut W,
) -> io::Result<()>
    ensures { OnOk result (Appends (W.contents writer.old) (W.contents writer.new) (flat_map (hide_lines file.now site.entry.rules.now site.entry.scopes.now) (enumerate_from 0 hides.now))) }
{
    for (i, hide) in hides.iter().enumerate() {
        warn_of_hide(file, i, hide, site, writer)?;
    }
    Ok(())
}

// Writes that there are no rules, where that is so.
fn warn_of_absence<W: Write>(file: &str, rules: &[Rule], writer: &mut W) -> io::Result<()>
    ensures { OnOk result (Appends (W.contents writer.old) (W.contents writer.new) (absence_line file.now rules.now)) }
{
    match rules {
        [] => warn(Place::File(file), Warning::NoRules, writer),
        _ => Ok(()),
    }
}

// Whether a rule lets someone see something.
fn lets_see(rule: &Rule) -> bool
    ensures { result ≡ spec.lets_see rule.now }
{
    rule.allow && is_same(rule.action, Action::See)
}

// Whether some rule lets someone see something.
fn lets_any_see(rules: &[Rule]) -> bool
    ensures { result ≡ spec.lets_any_see rules.now }
{
    rules.iter().any(|rule| lets_see(rule))
}

// The same, or there are none.
fn has_sight(rules: &[Rule]) -> bool
    ensures { result ≡ spec.has_sight rules.now }
{
    rules.len() == 0 || lets_any_see(rules)
}

// Writes that there are rules, and none lets anyone see anything, where that is so.
fn warn_of_sight<W: Write>(file: &str, rules: &[Rule], writer: &mut W) -> io::Result<()>
    ensures { OnOk result (Appends (W.contents writer.old) (W.contents writer.new) (sight_line file.now rules.now)) }
{
    if has_sight(rules) {
        return Ok(());
    }
    warn(Place::File(file), Warning::NoSight, writer)
}

/// Writes what is surely not meant with rules and hide tables, in a site of these scopes.
pub(crate) fn warn_of_rules<W: Write>(
    file: &str,
    rules: &Rules,
    scopes: &ScopeList,
    writer: &mut W,
) -> Result<(), CheckFault>
    ensures { OnOk result (Appends (W.contents writer.old) (W.contents writer.new) (warnings_of_rules file.now rules.now scopes.now)) }
{
    let site = Site {
        rules: rules.as_slice(),
        scopes,
    };
    warn_of_absence(file, site.rules, writer)?;
    warn_of_sight(file, site.rules, writer)?;
    warn_of_each_rule(file, site, writer)?;
    warn_of_each_hide(file, rules.hide_tables(), site, writer)?;
    Ok(())
}
