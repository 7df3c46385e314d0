ghost use Rattle.std.specs.Prelude.{◌≤◌, ◌<◌, length, IfOk};
ghost use Rattle.std.specs.Arc.{arc_value};

use crate::tables::found;
use addresses::Addr;
use attr_list::Attrs;
use registry_core::Entry;
use service_url::{ServiceType, Url};
use slp_scopes::ScopeList;
use slp_text::{Key, NoMemory};
use std::alloc::Global;
use std::sync::Arc;

/// What an entry without attributes has beside its URL.
#[derive(Clone, Copy)]
pub struct Parts<'a> {
    pub language: &'a str,
    pub kind: &'a str,
    pub scopes: &'a str,
    pub deadline: u64,
    pub owner: Addr,
}

// One to sixteen scopes.
fn scopes_of(alloc: Global, text: &str) -> Result<ScopeList, NoMemory>
    ensures some { IfOk result (λ scopes. 0 < length scopes) }
    ensures few { IfOk result (λ scopes. length scopes ≤ 16) }
{
    let scopes = found(ScopeList::parse(alloc, text))?;
    if scopes.is_empty() || scopes.len() > 16 {
        return Err(NoMemory);
    }
    Ok(scopes)
}

/// An entry of a URL.
pub fn entry_of(alloc: Global, url: &str, parts: Parts<'_>) -> Result<Arc<Entry>, NoMemory>
    ensures some { IfOk result (λ e. 0 < length (arc_value e).scopes) }
    ensures few { IfOk result (λ e. length (arc_value e).scopes ≤ 16) }
{
    let entry = Entry {
        url: found(Url::parse(alloc, url))?,
        language: Key::of(alloc, parts.language)?,
        kind: found(ServiceType::parse(alloc, parts.kind))?,
        scopes: scopes_of(alloc, parts.scopes)?,
        attrs: found(Attrs::parse(alloc, ""))?,
        deadline: parts.deadline,
        owner: parts.owner,
    };
    Ok(Arc::new(alloc, entry)?)
}
