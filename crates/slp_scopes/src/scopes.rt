ghost use Rattle.std.specs.Prelude.{◌≡◌, ◌<◌, ◌↔◌, ◌++◌, [], ◌∷◌, true, filter, length, slice_get, string_bytes, chars, encode_utf8_all, IfOk, IfErr, MatchOption, OnErr, IsTrue};
ghost use Rattle.std.specs.List.{list_all, list_any, after_first, before_first, position_or_len};
ghost use Rattle.std.specs.Option.{option_copied};
ghost use Rattle.std.specs.Result.{result_ok};
ghost use Rattle.std.proofs.Common.{rules};
ghost use Rattle.std.specs.Cmp.Rules.{comparing};
ghost use Rattle.std.specs.declared.cmp.Ordering.TheVariants.{Less};
ghost use Rattle.slp_text.specs.Keys.{is_word_byte, key_of};
ghost use Rattle.slp_scopes.specs.ScopeNames.{scope_names_of, written_scope};
ghost use Rattle.slp_text.specs.Reading.{read_map, IsFault, IsReading};
ghost use Rattle.slp_scopes.specs.Scopes as spec;
ghost use Rattle.slp_scopes.specs.Scopes.{is_plain_text, scopes_of, printed_scopes, AreScopes};
ghost use Rattle.slp_text.specs.Sets.{common_keys, set_of};
ghost use Rattle.slp_text.specs.Lists.{is_some_text, is_comma};
ghost use Rattle.slp_text.specs.Escapes.{escaped_text};
ghost use Rattle.slp_text.specs.Steps.{BeginsWith, part_end};
ghost use Rattle.slp_text.specs.Words.{bytes_cmp, bytes_eq, texts_eq, IsAscending};
ghost use Rattle.slp_text.specs.declared.escapes.Place.TheVariants.{Scope};
ghost use Rattle.slp_text.specs.declared.escapes.Stage.TheVariants.{Plain};
ghost use Rattle.slp_text.specs.declared.faults.TextFault.TheVariants as fault;

use slp_text::{
    Key, NoMemory, Place, Stage, Step, TextFault, escape_into, is_refused, key, read_step, word_key,
};
use std::alloc::Global;
use std::cmp::Ordering;
use std::marker::Model;

/// A set of scopes, which contracts see as the list of their keys in key order.
pub struct ScopeList {
    keys: Vec<Key>,
}

impl Drop for ScopeList {
    #[inline(always)]
    fn drop(self) {
        let ScopeList { keys: _ } = self;
    }
}

impl Model for ScopeList {
    ghost use Rattle.std.specs.Prelude.{List, ℕ};
    ghost use Rattle.slp_scopes.specs.Scopes.{AreScopes};

    ghost Value = { List (List ℕ) };

    ghost view = { λ a. a.keys.items };

    ghost invariant = { λ a. AreScopes a.keys.items };
}

// Equal keys, in the same order.
fn copies(alloc: Global, keys: &[Key]) -> Result<Vec<Key>, NoMemory>
    ensures { IfOk result (λ copied. copied.items ≡ keys.now) }
{
    let mut copied = Vec::with_capacity(alloc, keys.len())?;
    for k in keys {
        copied.push(k.copy(alloc)?)?;
    }
    Ok(copied)
}

// Adds the key of a part at whose end reading stands at a stage, unless the key is empty.
fn take_part(alloc: Global, stage: Stage, part: &str, keys: &mut Vec<Key>) -> Result<(), TextFault>
    ensures ok { IfOk result (λ _. (stage ≡ Plain) × (keys.new.items ≡ keys.old.items ++ filter is_some_text (key_of part.now ∷ []))) }
    ensures err { IfErr result (λ e. IsFault e (part_end Scope stage)) }
{
    if !matches!(stage, Stage::Plain) {
        return Err(TextFault::BadEscape);
    }
    let made = key(alloc, part)?;
    if !made.as_str().is_empty() {
        keys.push(made)?;
    }
    Ok(())
}

// The keys of the parts of a text between its commas, in their order, without the empty ones.
fn named(alloc: Global, text: &str) -> Result<Vec<Key>, TextFault>
    ensures { IsReading (read_map (λ v. v.items) result) (scope_names_of text.now) }
{
    let mut keys = Vec::new(alloc);
    let mut part = String::new(alloc);
    let mut stage = Stage::Plain;
    for c in text.chars() {
        if c == ',' {
            take_part(alloc, stage, part.as_str(), &mut keys)?;
            part.clear();
            stage = Stage::Plain;
        } else {
            match read_step(stage, c, is_refused(Place::Scope, c))? {
                Step::Within(next) => stage = next,
                Step::Read(d) => {
                    part.push(d)?;
                    stage = Stage::Plain;
                }
            }
        }
    }
    take_part(alloc, stage, part.as_str(), &mut keys)?;
    Ok(keys)
}

// Small letters are asked for first, since most are.
fn is_plain_byte(b: u8) -> bool
    ensures { result ≡ spec.is_plain_byte b }
{
    (b >= b'a' && b <= b'z')
        || (b >= b'A' && b <= b'Z')
        || (b >= b'0' && b <= b'9')
        || b == b'-'
        || b == b'.'
        || b == b'_'
}

/// Whether a text has nothing but letters and digits of ASCII, `-`, `.` and `_`. In lists of scopes such
/// a text is written as it is.
pub fn is_plain(text: &[u8]) -> bool
    ensures value { result ≡ is_plain_text text.now }
    ensures written { IsTrue result → encode_utf8_all (escaped_text Scope (chars text.now)) ≡ text.now }
{
    text.iter().all(|b| is_plain_byte(*b))
}

// The one scope that a plain text names, or none where it is empty.
fn single(alloc: Global, text: &str) -> Result<Vec<Key>, TextFault>
    requires { is_plain_text text.now ≡ true }
    ensures value { IfOk result (λ v. scopes_of text.now ≡ Ok v.items) }
    ensures memory { OnErr result (result ≡ Err fault.NoMemory) }
{
    if text.is_empty() {
        return Ok(Vec::new(alloc));
    }
    let mut keys = Vec::with_capacity(alloc, 1)?;
    keys.push(word_key(alloc, text)?)?;
    Ok(keys)
}

// Whether a text is plain but for commas.
fn is_plain_list(text: &[u8]) -> bool
    ensures { result ≡ spec.is_plain_list text.now }
{
    text.iter().all(|b| *b == b',' || is_plain_byte(*b))
}

// Where the first comma of a text stands, or its length.
fn comma_at(text: &[u8]) -> usize
    ensures { result ≡ position_or_len is_comma text.now }
{
    text.iter().take_while(|b| **b != b',').count()
}

// What stands before the first comma of a text of words, and after it.
fn cut_word(text: &str) -> Option<(&str, &str)>
    requires { list_all is_word_byte text.now ≡ true }
    ensures { MatchOption result (position_or_len is_comma text.now ≡ length text.now)
        (λ p. (position_or_len is_comma text.now < length text.now) × (p.0.now ≡ before_first is_comma text.now) × (p.1.now ≡ after_first is_comma text.now)) }
{
    let end = comma_at(text.as_bytes());
    if end == text.len() {
        return None;
    }
    Some((&text[..end], &text[end + 1..]))
}

// Adds the key of a word, unless it is empty.
#[inline(always)]
fn take_word(alloc: Global, word: &str, keys: &mut Vec<Key>) -> Result<(), TextFault>
    requires { list_all is_word_byte word.now ≡ true }
    ensures ok { IfOk result (λ _. keys.new.items ≡ keys.old.items ++ filter is_some_text (key_of word.now ∷ [])) }
    ensures memory { OnErr result (result ≡ Err fault.NoMemory) }
{
    if !word.is_empty() {
        keys.push(word_key(alloc, word)?)?;
    }
    Ok(())
}

// The keys of the names of such a text, in their order, without the empty ones.
fn plain_names(alloc: Global, text: &str) -> Result<Vec<Key>, TextFault>
    requires { spec.is_plain_list text.now ≡ true }
    ensures value { IfOk result (λ v. scope_names_of text.now ≡ Ok v.items) }
    ensures memory { OnErr result (result ≡ Err fault.NoMemory) }
{
    let mut keys = Vec::with_capacity(alloc, 16)?;
    let mut rest = text;
    while let Some((word, more)) = cut_word(rest) {
        take_word(alloc, word, &mut keys)?;
        rest = more;
    }
    take_word(alloc, rest, &mut keys)?;
    Ok(keys)
}

// The keys of the names of any list, in their order, without the empty ones.
fn names(alloc: Global, text: &str) -> Result<Vec<Key>, TextFault>
    ensures { IsReading (read_map (λ v. v.items) result) (scope_names_of text.now) }
{
    if is_plain_list(text.as_bytes()) {
        return plain_names(alloc, text);
    }
    named(alloc, text)
}

fn is_before(key: &Key, other: &Key) -> bool
    ensures { IsTrue result → bytes_cmp key.now other.now ≡ Less }
{
    matches!(key.cmp(other), Ordering::Less)
}

// Whether keys stand in key order, each once.
fn are_ascending(keys: &[Key]) -> bool
    ensures { IsTrue result → IsAscending keys.now }
{
    let Some((first, after)) = keys.split_first() else {
        return true;
    };
    let mut last = first;
    let mut rest = after;
    while let Some((next, more)) = rest.split_first() {
        if !is_before(last, next) {
            return false;
        }
        last = next;
        rest = more;
    }
    true
}

// The keys in key order, each once. Most lists stand so.
fn settled(keys: Vec<Key>) -> Result<Vec<Key>, TextFault>
    ensures value { IfOk result (λ v. v.items ≡ set_of keys.items) }
    ensures memory { OnErr result (result ≡ Err fault.NoMemory) }
{
    if are_ascending(&keys) {
        return Ok(keys);
    }
    let mut set = keys;
    set.sort()?;
    set.dedup();
    Ok(set)
}

// The keys that another list has too.
fn shared(alloc: Global, keys: &[Key], other: &ScopeList) -> Result<Vec<Key>, NoMemory>
    ensures { IfOk result (λ v. v.items ≡ common_keys keys.now other.now) }
{
    let mut found = Vec::new(alloc);
    for k in keys {
        if other.has(k) {
            found.push(k.copy(alloc)?)?;
        }
    }
    Ok(found)
}

// Appends one key more, after a comma if others have begun.
fn append_scope(k: &Key, begun: bool, out: &mut String) -> Result<(), NoMemory>
    ensures ok { IfOk result (λ _. string_bytes out.new ≡ string_bytes out.old ++ written_scope begun k.now) }
    ensures start { BeginsWith (string_bytes out.old) (string_bytes out.new) }
{
    if begun {
        out.push(',')?;
    }
    escape_into(k.as_str(), Place::Scope, out)
}

// Appends the keys; where memory runs out some of them may stand after what was there.
fn append_printed(keys: &[Key], out: &mut String) -> Result<(), NoMemory>
    ensures ok { IfOk result (λ _. string_bytes out.new ≡ string_bytes out.old ++ printed_scopes keys.now) }
    ensures start { BeginsWith (string_bytes out.old) (string_bytes out.new) }
{
    let mut begun = false;
    for k in keys {
        append_scope(k, begun, out)?;
        begun = true;
    }
    Ok(())
}

impl ScopeList {
    /// The scopes that a text names: what stands between its commas, unescaped and made keys, without
    /// the empty ones (RFC 2608, section 6.4.1). What is reserved in scopes and stands raw is
    /// `Reserved`. It sorts what it reads once.
    pub fn parse(alloc: Global, text: &str) -> Result<ScopeList, TextFault>
        ensures { IsReading result (scopes_of text.now) }
    {
        if is_plain(text.as_bytes()) {
            let keys = single(alloc, text)?;
            return Ok(ScopeList { keys });
        }
        let keys = settled(names(alloc, text)?)?;
        Ok(ScopeList { keys })
    }

    /// The same, or `None` where a text is no list of scopes.
    pub fn read(alloc: Global, text: &str) -> Result<Option<ScopeList>, NoMemory>
        ensures { IfOk result (λ l. l ≡ result_ok (scopes_of text.now)) }
    {
        match ScopeList::parse(alloc, text) {
            Ok(scopes) => Ok(Some(scopes)),
            Err(TextFault::NoMemory) => Err(NoMemory),
            Err(_) => Ok(None),
        }
    }

    /// What stands in both. It takes time for the product of the lengths.
    pub fn common(&self, alloc: Global, other: &ScopeList) -> Result<ScopeList, NoMemory>
        ensures { IfOk result (λ l. l ≡ common_keys self.now other.now) }
    {
        let keys = shared(alloc, &self.keys, other)?;
        Ok(ScopeList { keys })
    }

    /// Those of the scopes that stand in another list too. It takes time for the product of the lengths,
    /// and no memory.
    pub fn within(self, other: &ScopeList) -> ScopeList
        ensures { result ≡ common_keys other.now self }
    {
        let others = &other.keys;
        let ScopeList { mut keys } = self;
        keys.retain(|k| others.contains(k));
        ScopeList { keys }
    }

    /// Appends the scopes in key order, with escapes and a comma between each two. Where memory runs
    /// out nothing is appended.
    pub fn print_into(&self, out: &mut String) -> Result<(), NoMemory>
        ensures ok { IfOk result (λ _. string_bytes out.new ≡ string_bytes out.old ++ printed_scopes self.now) }
        ensures err { OnErr result (string_bytes out.new ≡ string_bytes out.old) }
    {
        let before = out.len();
        let done = append_printed(&self.keys, out);
        if done.is_err() {
            out.truncate(before);
        }
        done
    }

    /// How many scopes there are. Takes no memory.
    pub fn len(&self) -> usize
        ensures value { result ≡ length self.now }
        ensures scopes { AreScopes self.now }
    {
        self.keys.len()
    }

    /// Whether there is none. Takes no memory.
    pub fn is_empty(&self) -> bool
        ensures { IsTrue result ↔ (self.now ≡ []) }
    {
        self.keys.is_empty()
    }

    /// The scope at a place, counted from 0 in key order. Takes no memory.
    pub fn at(&self, place: usize) -> Option<&Key>
        ensures { option_copied result ≡ slice_get self.now place }
    {
        self.keys.get(place)
    }

    /// Whether it has a scope. Takes no memory.
    #[inline(always)]
    pub fn has(&self, scope: &Key) -> bool
        ensures { result ≡ list_any (λ k. bytes_eq k scope.now) self.now }
    {
        for key in &self.keys {
            if *key == *scope {
                return true;
            }
        }
        false
    }

    /// An equal list.
    pub fn copy(&self, alloc: Global) -> Result<ScopeList, NoMemory>
        ensures { IfOk result (λ l. l ≡ self.now) }
    {
        let keys = copies(alloc, &self.keys)?;
        Ok(ScopeList { keys })
    }
}

impl PartialEq for ScopeList {
    ghost eq = { texts_eq };

    ghost laws = { Prim.search (comparing, rules) };

    fn eq(&self, other: &ScopeList) -> bool {
        self.keys == other.keys
    }
}

impl Eq for ScopeList {
    ghost laws = { Prim.search (comparing, rules) };
}
