ghost use Rattle.std.specs.Prelude.{◌<◌, ◌≤◌, length};
ghost use Rattle.std.specs.Arc.{arc_value};

use access_rules::Rules;
use registry_core::Entry;
use service_url::Url;
use slp_scopes::ScopeList;
use slp_tags::TagList;
use slp_text::NoMemory;
use std::sync::Arc;

/// An entry of 1 to 16 scopes, as a change leaves it, and the moment of that in seconds.
#[derive(Drop)]
pub struct Placed {
    pub moment: u32,
    pub entry: Arc<Entry>,
    ghost scoped: { 0 < length (arc_value entry).scopes },
    ghost few_scopes: { length (arc_value entry).scopes ≤ 16 },
}

/// What a withdrawal ends: the entries of a URL, in every language, of exactly these scopes.
pub struct Withdrawn {
    pub url: Url,
    pub scopes: ScopeList,
}

impl Drop for Withdrawn {
    fn drop(self) {
        let Withdrawn { url: _, scopes: _ } = self;
    }
}

/// What is read of a withdrawal: its tags, and what it is of. The scopes of that are 16 at most.
#[derive(Drop)]
pub struct Withdrawing {
    pub tags: TagList,
    pub withdrawn: Arc<Withdrawn>,
    ghost few_scopes: { length (arc_value withdrawn).scopes ≤ 16 },
}

/// A change of a directory, at its moment in seconds.
#[derive(Drop)]
pub enum Change {
    /// A registration founds an entry.
    Put(Placed),
    /// An entry that is held gets other attributes, or another deadline.
    Edit(Placed),
    Withdraw(u32, Arc<Withdrawn>),
    Sweep(u32),
    /// From now on these rules decide.
    Reload(u32, Arc<Rules>),
}

impl Placed {
    ghost use Rattle.std.specs.Prelude.{◌≡◌, IfOk};

    fn share(&self) -> Result<Placed, NoMemory>
        ensures moment { IfOk result (λ p. p.moment ≡ self.now.moment) }
        ensures entry { IfOk result (λ p. arc_value p.entry ≡ arc_value self.now.entry) }
    {
        let entry = Arc::try_clone(&self.entry)?;
        Ok(Placed {
            moment: self.moment,
            entry,
        })
    }
}

impl Change {
    ghost use Rattle.std.specs.Prelude.{◌≡◌, IfOk};
    ghost use Rattle.directory_judge.specs.Contents.{content, moment_in};

    /// Its moment, in seconds.
    pub fn moment(&self) -> u32
        ensures { result ≡ moment_in (content self.now) }
    {
        match self {
            Change::Put(placed) | Change::Edit(placed) => placed.moment,
            Change::Withdraw(moment, _) | Change::Sweep(moment) | Change::Reload(moment, _) => {
                *moment
            }
        }
    }

    /// The same change once more: what it holds is shared, and not copied.
    pub fn share(&self) -> Result<Change, NoMemory>
        ensures { IfOk result (λ c. content c ≡ content self.now) }
    {
        match self {
            Change::Put(placed) => Ok(Change::Put(placed.share()?)),
            Change::Edit(placed) => Ok(Change::Edit(placed.share()?)),
            Change::Withdraw(moment, withdrawn) => {
                let withdrawn = Arc::try_clone(withdrawn)?;
                Ok(Change::Withdraw(*moment, withdrawn))
            }
            Change::Sweep(moment) => Ok(Change::Sweep(*moment)),
            Change::Reload(moment, rules) => {
                let rules = Arc::try_clone(rules)?;
                Ok(Change::Reload(*moment, rules))
            }
        }
    }
}
