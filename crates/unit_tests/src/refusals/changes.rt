//! Changes that are made while all memory is refused.
ghost use Rattle.std.specs.Prelude.{◌≡◌, ◌≤◌, ◌<◌, length, IfOk};
ghost use Rattle.std.specs.Arc.{arc_value};

use crate::refusals::hoard::{Hoard, are_refused};
use crate::refusals::site::{CLOSED, directory, found, rules_of};
use access_rules::Rules;
use addresses::Addr;
use attr_list::Attrs;
use directory_judge::{Change, Placed, Withdrawn};
use directory_state::Directory;
use registry_core::{Entry, Registry};
use service_url::{ServiceType, Url};
use slp_scopes::ScopeList;
use slp_text::{Key, NoMemory};
use std::alloc::Global;
use std::sync::Arc;
use table_registry::SiteRegistry;

#[derive(Clone, Copy)]
enum Word {
    Put,
    Edit,
    Withdraw,
    Sweep,
    Reload,
}

// What is done, with the URL and the type of an entry, and its deadline or the moment. Then the deadlines that the entries
// of both URLs have, or 0.
type Row = (Word, &'static str, &'static str, u32, u64, u64);

const FIRST: &str = "service:a:x://first";

const SECOND: &str = "service:a:x://second";

const X: &str = "service:a:x";

const Y: &str = "service:a:y";

// Two entries at first.
static FOUNDED: [Row; 2] = [
    (Word::Put, FIRST, X, 100, 100, 0),
    (Word::Put, SECOND, X, 300, 100, 300),
];

// Refreshes. They leave what was there before.
static REFRESHES: [Row; 4] = [
    (Word::Put, FIRST, X, 200, 200, 300),
    (Word::Put, SECOND, Y, 400, 200, 400),
    (Word::Put, FIRST, X, 100, 100, 400),
    (Word::Put, SECOND, X, 300, 100, 300),
];

// Changes of all kinds. They leave what was there before.
static CHANGES: [Row; 11] = [
    (Word::Edit, FIRST, Y, 150, 150, 300),
    (Word::Withdraw, FIRST, X, 0, 0, 300),
    (Word::Put, FIRST, X, 100, 100, 300),
    (Word::Reload, FIRST, X, 0, 100, 300),
    (Word::Sweep, FIRST, X, 100, 0, 300),
    (Word::Edit, FIRST, X, 200, 0, 300),
    (Word::Put, FIRST, X, 200, 200, 300),
    (Word::Sweep, FIRST, X, 299, 0, 300),
    (Word::Sweep, FIRST, X, 300, 0, 0),
    (Word::Put, SECOND, X, 300, 0, 300),
    (Word::Put, FIRST, X, 100, 100, 300),
];

// A change, and the deadlines after it.
#[derive(Drop)]
struct Step {
    change: Change,
    first: u64,
    second: u64,
}

// One scope.
fn one_scope(alloc: Global) -> Result<ScopeList, NoMemory>
    ensures { IfOk result (λ scopes. length scopes ≡ 1) }
{
    let scopes = found(ScopeList::parse(alloc, "default"))?;
    if scopes.len() == 1 {
        Ok(scopes)
    } else {
        Err(NoMemory)
    }
}

fn entry(alloc: Global, url: &str, kind: &str, deadline: u32) -> Result<Arc<Entry>, NoMemory>
    ensures some { IfOk result (λ e. 0 < length (arc_value e).scopes) }
    ensures few { IfOk result (λ e. length (arc_value e).scopes ≤ 16) }
{
    let entry = Entry {
        url: found(Url::parse(alloc, url))?,
        language: Key::of(alloc, "en")?,
        kind: found(ServiceType::parse(alloc, kind))?,
        scopes: one_scope(alloc)?,
        attrs: found(Attrs::parse(alloc, ""))?,
        deadline: u64::from(deadline),
        owner: Addr(0x0a00_0001),
    };
    Ok(Arc::new(alloc, entry)?)
}

fn placed(alloc: Global, url: &str, kind: &str, deadline: u32) -> Result<Placed, NoMemory> {
    let entry = entry(alloc, url, kind, deadline)?;
    Ok(Placed { moment: 0, entry })
}

fn withdrawn(alloc: Global, url: &str) -> Result<Arc<Withdrawn>, NoMemory> {
    let url = found(Url::parse(alloc, url))?;
    let scopes = one_scope(alloc)?;
    Ok(Arc::new(alloc, Withdrawn { url, scopes })?)
}

fn change_of(alloc: Global, row: &Row) -> Result<Change, NoMemory> {
    let (word, url, kind, seconds, _, _) = *row;
    match word {
        Word::Put => Ok(Change::Put(placed(alloc, url, kind, seconds)?)),
        Word::Edit => Ok(Change::Edit(placed(alloc, url, kind, seconds)?)),
        Word::Withdraw => Ok(Change::Withdraw(0, withdrawn(alloc, url)?)),
        Word::Sweep => Ok(Change::Sweep(seconds)),
        Word::Reload => {
            let rules = Arc::new(alloc, rules_of(alloc, CLOSED)?)?;
            Ok(Change::Reload(seconds, rules))
        }
    }
}

fn add_steps(alloc: Global, rows: &[Row], steps: &mut Vec<Step>) -> Result<(), NoMemory> {
    for row in rows {
        let (_, _, _, _, first, second) = *row;
        let change = change_of(alloc, row)?;
        steps.push(Step {
            change,
            first,
            second,
        })?;
    }
    Ok(())
}

// Entries of other URLs, until this many are held.
fn add_others(alloc: Global, capacity: usize, steps: &mut Vec<Step>) -> Result<(), NoMemory> {
    for number in 2..capacity {
        let url = format!(in alloc; "service:a:x://{number}")?;
        let placed = placed(alloc, url.as_str(), X, 1_000)?;
        steps.push(Step {
            change: Change::Put(placed),
            first: 100,
            second: 300,
        })?;
    }
    Ok(())
}

// The changes that fill a directory, as many as its capacity, and those that follow. Beside them the rules with which it begins, and the
// entries whose deadlines are looked up.
#[derive(Drop)]
struct Plan {
    steps: Vec<Step>,
    capacity: usize,
    rules: Arc<Rules>,
    first: Arc<Entry>,
    second: Arc<Entry>,
}

fn all_steps(alloc: Global, rows: &[Row], capacity: usize) -> Result<Vec<Step>, NoMemory> {
    let mut steps = Vec::new(alloc);
    add_steps(alloc, &FOUNDED, &mut steps)?;
    add_others(alloc, capacity, &mut steps)?;
    add_steps(alloc, rows, &mut steps)?;
    Ok(steps)
}

impl Plan {
    fn new(alloc: Global, rows: &[Row], capacity: usize) -> Result<Plan, NoMemory> {
        Ok(Plan {
            steps: all_steps(alloc, rows, capacity)?,
            capacity,
            rules: Arc::new(alloc, rules_of(alloc, CLOSED)?)?,
            first: entry(alloc, FIRST, X, 0)?,
            second: entry(alloc, SECOND, X, 0)?,
        })
    }

    // Makes changes, up to the first after which the entries are others. Tells whether there was none.
    fn make(
        &self,
        directory: &mut Directory<SiteRegistry>,
        steps: &[Step],
    ) -> Result<bool, NoMemory> {
        for step in steps {
            directory.apply(step.change.share()?);
            if deadline(directory, &self.first) != step.first
                || deadline(directory, &self.second) != step.second
            {
                return Ok(false);
            }
        }
        Ok(true)
    }

    // Whether all entries are there, and are found by their URL, by their type and in their scope.
    fn are_there(&self, directory: &Directory<SiteRegistry>) -> bool {
        let registry = directory.registry();
        let Some(scope) = self.first.scopes.at(0) else {
            return false;
        };
        registry.len() == self.capacity
            && registry.live(0) == self.capacity
            && registry.by_url(&self.first.url, 0).is_some()
            && registry.by_kind(Some(&self.first.kind), 0).is_some()
            && registry.by_place(scope, None, 0).is_some()
    }

    // Fills a directory, and makes the changes this many times. Tells how many times all was well. Takes no memory.
    fn make_times(
        &self,
        directory: &mut Directory<SiteRegistry>,
        times: usize,
    ) -> Result<usize, NoMemory> {
        let Some((founded, steps)) = self.steps.split_at_checked(self.capacity) else {
            return Err(NoMemory);
        };
        if !self.make(directory, founded)? || !self.are_there(directory) {
            return Err(NoMemory);
        }
        for time in 0..times {
            if !self.make(directory, steps)? || !self.are_there(directory) {
                return Ok(time);
            }
        }
        Ok(times)
    }

    // The same, while all memory is taken. The rules with which it begins are kept, so that a reload gives no memory back.
    fn make_without_memory(
        &self,
        alloc: Global,
        directory: &mut Directory<SiteRegistry>,
        times: usize,
    ) -> Result<usize, NoMemory> {
        let mut hoard = Hoard::new(alloc)?;
        directory.apply(Change::Reload(0, Arc::try_clone(&self.rules)?));
        let is_taken = hoard.fill(alloc);
        let made = self.make_times(directory, times);
        let is_taken_still = are_refused(alloc);
        drop(hoard);
        if is_taken && is_taken_still {
            made
        } else {
            Err(NoMemory)
        }
    }
}

// The deadline of the entry of a pair, or 0.
fn deadline(directory: &Directory<SiteRegistry>, asked: &Entry) -> u64 {
    match directory.registry().find(&asked.url, &asked.language) {
        Some(entry) => entry.deadline,
        None => 0,
    }
}

// How many times the changes of rows are well without memory, of this many. The directory is full after them each time.
fn times_made(alloc: Global, rows: &[Row], capacity: usize, times: usize) -> Result<usize, NoMemory>
    requires some { 0 < capacity }
    requires few { capacity ≤ 65536 }
{
    let plan = Plan::new(alloc, rows, capacity)?;
    let mut directory = directory(alloc, capacity, CLOSED)?;
    plan.make_without_memory(alloc, &mut directory, times)
}

#[test]
fn a_refresh_takes_no_memory(rt: HostRuntime) {
    let alloc = rt.alloc();
    assert!(rt;
        times_made(alloc, &REFRESHES, 2, 25_000) == Ok(25_000),
        "2 slots"
    );
    assert!(rt;
        times_made(alloc, &REFRESHES, 64, 25_000) == Ok(25_000),
        "64 slots"
    );
}

#[test]
fn a_change_takes_no_memory(rt: HostRuntime) {
    let alloc = rt.alloc();
    assert!(rt;
        times_made(alloc, &CHANGES, 2, 10_000) == Ok(10_000),
        "2 slots"
    );
    assert!(rt;
        times_made(alloc, &CHANGES, 64, 10_000) == Ok(10_000),
        "64 slots"
    );
}
