ghost use Rattle.std.specs.Prelude.{◌≡◌, ◌<◌, ◌≤◌, length, IfOk};
ghost use Rattle.slp_scopes.specs.Scopes.{printed_scopes};

use slp_scopes::ScopeList;
use slp_text::NoMemory;
use srv_template::Templates;
use std::alloc::Global;
use std::marker::Model;
use std::sync::Arc;

/// What stays the same while a directory runs: the scopes that it supports, how many entries it
/// takes, the templates to which they conform, and its boot stamp.
pub struct Site {
    scopes: ScopeList,
    capacity: usize,
    templates: Arc<Templates>,
    boot: u32,
}

impl Drop for Site {
    fn drop(self) {
        let Site {
            scopes: _,
            capacity: _,
            templates: _,
            boot: _,
        } = self;
    }
}

impl Model for Site {
    ghost use Rattle.std.specs.Arc.{arc_value};
    ghost use Rattle.directory_judge.specs.Sites as spec;

    ghost Value = { spec.Site };

    ghost coded = { spec.site_code };

    ghost view = { λ s. record { scopes = s.scopes; capacity = s.capacity; templates = arc_value s.templates; boot = s.boot } };

    ghost invariant = { λ s. spec.IsSite s.scopes s.capacity };
}

impl Site {
    ghost use Rattle.std.specs.Arc.{arc_value};
    ghost use Rattle.directory_judge.specs.Sites.{IsSite};

    /// A site of 1 to 16 scopes, which have at most 1,024 bytes as a list, and 1 to 65,536 entries. The
    /// boot stamp is in seconds since 1970.
    pub fn new(scopes: ScopeList, capacity: usize, templates: Arc<Templates>, boot: u32) -> Site
        requires some_scope { 0 < length scopes }
        requires few_scopes { length scopes ≤ 16 }
        requires short_scopes { length (printed_scopes scopes) ≤ 1024 }
        requires some_entry { 0 < capacity }
        requires few_entries { capacity ≤ 65536 }
        ensures { result ≡ record { scopes = scopes; capacity = capacity; templates = arc_value templates; boot = boot } }
    {
        Site {
            scopes,
            capacity,
            templates,
            boot,
        }
    }

    /// An equal site, which shares the templates.
    pub fn copy(&self, alloc: Global) -> Result<Site, NoMemory>
        ensures { IfOk result (λ s. s ≡ self.now) }
    {
        let scopes = self.scopes.copy(alloc)?;
        let templates = Arc::try_clone(&self.templates)?;
        Ok(Site {
            scopes,
            capacity: self.capacity,
            templates,
            boot: self.boot,
        })
    }

    /// The scopes that are supported.
    pub fn scopes(&self) -> &ScopeList
        ensures value { result.now ≡ self.now.scopes }
        ensures limits { IsSite self.now.scopes self.now.capacity }
    {
        &self.scopes
    }

    /// The greatest number of entries.
    pub fn capacity(&self) -> usize
        ensures value { result ≡ self.now.capacity }
        ensures limits { IsSite self.now.scopes self.now.capacity }
    {
        self.capacity
    }

    /// The templates.
    pub fn templates(&self) -> &Templates
        ensures { result.now ≡ self.now.templates }
    {
        &self.templates
    }

    /// The boot stamp, in seconds since 1970.
    pub fn boot(&self) -> u32
        ensures { result ≡ self.now.boot }
    {
        self.boot
    }
}
