use registry_core::{Entry, Registry};
use service_url::{ServiceType, Url};
use slp_text::Key;
use std::alloc::{AllocError, Global};

/// A walk of a registry, and what it is for.
#[derive(Clone, Copy)]
pub enum Walk<'a> {
    Kind(Option<&'a ServiceType>),
    Within(Option<&'a ServiceType>, &'a Url),
    Place(Option<&'a ServiceType>, &'a Key),
    Url(&'a Url),
    /// Past the others of a type, where one was met.
    EachKind,
}

fn next_past<R: Registry>(registry: &R, from: usize) -> Option<(&Entry, usize)> {
    match registry.by_kind(None, from) {
        Some((entry, next)) => Some((entry, registry.past_kind(&entry.kind, next))),
        None => None,
    }
}

// The next entry of a walk, with the number to go on from.
fn next_of<'r, R: Registry>(
    registry: &'r R,
    walk: Walk<'_>,
    from: usize,
) -> Option<(&'r Entry, usize)> {
    match walk {
        Walk::Kind(kind) => registry.by_kind(kind, from),
        Walk::Within(kind, bound) => registry.by_kind_within(kind, bound, from),
        Walk::Place(kind, scope) => registry.by_place(scope, kind, from),
        Walk::Url(url) => registry.by_url(url, from),
        Walk::EachKind => next_past(registry, from),
    }
}

// What a walk meets. One that meets more than can be held is broken off.
fn met<'r, R: Registry>(
    alloc: Global,
    registry: &'r R,
    walk: Walk<'_>,
) -> Result<Vec<&'r Entry>, AllocError> {
    let mut met = Vec::new(alloc);
    let mut from = 0;
    for _ in 0..=registry.capacity() {
        match next_of(registry, walk, from) {
            Some((entry, next)) => {
                met.push(entry)?;
                from = next;
            }
            None => break,
        }
    }
    Ok(met)
}

fn is_of_pair(entry: &Entry, other: &Entry) -> bool {
    entry.url == other.url && entry.language == other.language
}

fn is_of_kind(entry: &Entry, other: &Entry) -> bool {
    entry.kind.text() == other.kind.text()
}

fn is_same(entry: &Entry, other: &Entry) -> bool {
    is_of_pair(entry, other)
        && is_of_kind(entry, other)
        && entry.scopes == other.scopes
        && entry.deadline == other.deadline
        && entry.owner == other.owner
}

/// Whether one entry was found by both, or none.
pub fn are_same(entry: Option<&Entry>, other: Option<&Entry>) -> bool {
    match (entry, other) {
        (Some(entry), Some(other)) => is_same(entry, other),
        (None, None) => true,
        _ => false,
    }
}

fn have(entries: &[&Entry], entry: &Entry) -> bool {
    for other in entries {
        if is_same(entry, other) {
            return true;
        }
    }
    false
}

fn have_pair(entries: &[&Entry], entry: &Entry) -> bool {
    for other in entries {
        if is_of_pair(entry, other) {
            return true;
        }
    }
    false
}

fn have_kind(entries: &[&Entry], entry: &Entry) -> bool {
    for other in entries {
        if is_of_kind(entry, other) {
            return true;
        }
    }
    false
}

// Whether all are among others, and no pair comes twice.
fn are_among(entries: &[&Entry], others: &[&Entry]) -> bool {
    for place in 0..entries.len() {
        if !have(others, entries[place]) || have_pair(&entries[..place], entries[place]) {
            return false;
        }
    }
    true
}

fn are_in_order(entries: &[&Entry]) -> bool {
    for place in 1..entries.len() {
        if entries[place].url < entries[place - 1].url {
            return false;
        }
    }
    true
}

// Whether there is one entry of each type among some.
fn are_of_each_kind(entries: &[&Entry], all: &[&Entry]) -> bool {
    for entry in all {
        if !have_kind(entries, entry) {
            return false;
        }
    }
    for place in 0..entries.len() {
        if have_kind(&entries[..place], entries[place]) {
            return false;
        }
    }
    true
}

impl<'a> Walk<'a> {
    // Whether a table met what it must where a list met all that there is.
    fn is_met(self, all: &[&Entry], entries: &[&Entry]) -> bool {
        let is_whole = entries.len() == all.len();
        match self {
            Walk::EachKind => are_of_each_kind(entries, all),
            Walk::Url(_) => is_whole,
            Walk::Kind(kind) | Walk::Within(kind, _) | Walk::Place(kind, _) => {
                is_whole && (kind.is_none() || are_in_order(entries))
            }
        }
    }
}

fn is_met_alike<L: Registry, T: Registry>(
    alloc: Global,
    list: &L,
    table: &T,
    walk: Walk<'_>,
) -> Result<bool, AllocError> {
    let all = met(alloc, list, walk)?;
    let entries = met(alloc, table, walk)?;
    Ok(
        are_among(entries.as_slice(), all.as_slice())
            && walk.is_met(all.as_slice(), entries.as_slice()),
    )
}

/// Whether a table meets on each walk what a list meets, each entry once, and those of a type in the byte order of their
/// URLs. Where it goes past the others of a type, it meets one of each.
pub fn are_met_alike<L: Registry, T: Registry>(
    alloc: Global,
    list: &L,
    table: &T,
    walks: &[Walk<'_>],
) -> Result<bool, AllocError> {
    for walk in walks {
        if !is_met_alike(alloc, list, table, *walk)? {
            return Ok(false);
        }
    }
    Ok(true)
}
