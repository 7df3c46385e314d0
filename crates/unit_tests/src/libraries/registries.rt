ghost use Rattle.std.specs.Prelude.{◌≤◌, ◌<◌, length, IfOk};
ghost use Rattle.std.specs.Arc.{arc_value};

mod numbers;
mod walks;

use crate::libraries::entries::{Parts, entry_of};
use crate::tables::found;
use addresses::Addr;
use numbers::Numbers;
use registry_core::{Entry, ListRegistry, Registry, RegistryFault};
use service_url::ServiceType;
use slp_text::NoMemory;
use std::alloc::Global;
use std::sync::Arc;
use table_registry::TableRegistry;
use walks::{Walk, are_met_alike, are_same};

// What is done to a registry with an entry.
#[derive(Clone, Copy)]
enum Step {
    Put,
    // Where the pair is held.
    Edit,
    // Of the URL and the scopes.
    Remove,
    // At the moment that it is.
    Sweep,
}

// The steps, each as often as it is to come.
static STEPS: [Step; 16] = [
    Step::Put,
    Step::Put,
    Step::Put,
    Step::Put,
    Step::Put,
    Step::Put,
    Step::Put,
    Step::Put,
    Step::Put,
    Step::Edit,
    Step::Edit,
    Step::Edit,
    Step::Remove,
    Step::Remove,
    Step::Sweep,
    Step::Sweep,
];

static LANGUAGES: [&str; 2] = ["en", "de"];

// The types that walks are for. No entry is of the last one.
static KINDS: [&str; 7] = [
    "service:a",
    "service:a:x",
    "service:a:y",
    "service:ab",
    "service:b:x",
    "http",
    "service:b",
];

static SCOPES: [&str; 4] = ["a", "b", "a,b", "b,c"];

// How many register.
const OWNERS: usize = 3;

// How many seconds an entry lives at most.
static LIVES: [usize; 4] = [50, 500, 5_000, 65_536];

// So few that the registries are full now and then, and more than a table takes out one by one.
const SMALL: usize = 80;

// More than the numbers of a block, of which an order has several then.
const LARGE: usize = 700;

const BLOCK: usize = 256;

const TIMES: usize = 100_000;

// With as many the list is slow.
const LARGE_TIMES: usize = 10_000;

// Two registries to which the same happens.
#[derive(Drop)]
struct Twins {
    list: ListRegistry,
    table: TableRegistry,
    numbers: Numbers,
    capacity: usize,
    // How many entries were held at most.
    most: usize,
    now: u64,
}

// Takes a step, and tells what came of it.
fn take_step<R: Registry>(
    registry: &mut R,
    step: Step,
    entry: Arc<Entry>,
    now: u64,
) -> Result<(), RegistryFault>
    requires scoped { 0 < length (arc_value entry).scopes }
    requires few_scopes { length (arc_value entry).scopes ≤ 16 }
{
    match step {
        Step::Put => return registry.put(entry),
        Step::Edit => {
            if registry.find(&entry.url, &entry.language).is_some() {
                registry.edit(entry);
            }
        }
        Step::Remove => registry.remove_url(&entry.url, &entry.scopes),
        Step::Sweep => registry.sweep(now),
    }
    Ok(())
}

impl Twins {
    fn new(alloc: Global, capacity: usize) -> Result<Twins, NoMemory>
        requires some { 0 < capacity }
        requires few { capacity ≤ 65536 }
    {
        Ok(Twins {
            list: found(ListRegistry::new(alloc, capacity))?,
            table: found(TableRegistry::with_capacity(alloc, capacity))?,
            numbers: Numbers::new(),
            capacity,
            most: 0,
            now: 0,
        })
    }

    fn some_parts(&mut self) -> Parts<'static> {
        let life = LIVES[self.numbers.below(LIVES.len())];
        Parts {
            language: self.numbers.text(&LANGUAGES),
            kind: self.numbers.text(&KINDS[..6]),
            scopes: self.numbers.text(&SCOPES),
            deadline: self.now.saturating_add(self.numbers.below(life) as u64),
            owner: Addr(self.numbers.below(OWNERS) as u32),
        }
    }

    // Some entry of twice as many pairs as may be held.
    fn some_entry(&mut self, alloc: Global) -> Result<Arc<Entry>, NoMemory>
        ensures some { IfOk result (λ e. 0 < length (arc_value e).scopes) }
        ensures few { IfOk result (λ e. length (arc_value e).scopes ≤ 16) }
    {
        let parts = self.some_parts();
        let number = self.numbers.below(self.capacity.max(1));
        let url = format!(in alloc; "service:a://{number}")?;
        entry_of(alloc, url.as_str(), parts)
    }

    // Lets some seconds go by, now and then more than an entry can live.
    fn wait(&mut self) {
        let seconds = if self.numbers.below(2_000) == 0 {
            70_000
        } else {
            self.numbers.below(3)
        };
        self.now = self.now.saturating_add(seconds as u64);
    }

    // Takes some step. Tells whether the same came of it in both.
    fn take_some_step(&mut self, alloc: Global) -> Result<bool, NoMemory> {
        let step = STEPS[self.numbers.below(STEPS.len())];
        let entry = self.some_entry(alloc)?;
        let share = Arc::try_clone(&entry)?;
        let told = take_step(&mut self.list, step, share, self.now);
        let is_told_alike = take_step(&mut self.table, step, entry, self.now) == told;
        self.most = self.most.max(self.table.len());
        Ok(is_told_alike)
    }

    // Whether both count and find alike.
    fn are_alike(&self, asked: &Entry) -> bool {
        let (list, table) = (&self.list, &self.table);
        list.len() == table.len()
            && list.live(self.now) == table.live(self.now)
            && are_same(
                list.find(&asked.url, &asked.language),
                table.find(&asked.url, &asked.language),
            )
    }

    // Whether the walks for a type meet the same.
    fn is_kind_alike(
        &self,
        alloc: Global,
        kind: Option<&ServiceType>,
        asked: &Entry,
    ) -> Result<bool, NoMemory> {
        let Some(scope) = asked.scopes.at(0) else {
            return Err(NoMemory);
        };
        let walks = [
            Walk::Kind(kind),
            Walk::Within(kind, &asked.url),
            Walk::Place(kind, scope),
        ];
        Ok(are_met_alike(alloc, &self.list, &self.table, &walks)?)
    }

    // Whether all walks meet the same.
    fn are_walks_alike(
        &self,
        alloc: Global,
        kinds: &[Option<ServiceType>],
        asked: &Entry,
    ) -> Result<bool, NoMemory> {
        for kind in kinds {
            if !self.is_kind_alike(alloc, kind.as_ref(), asked)? {
                return Ok(false);
            }
        }
        let walks = [Walk::Url(&asked.url), Walk::EachKind];
        Ok(are_met_alike(alloc, &self.list, &self.table, &walks)?)
    }

    // Takes some step. Tells whether the two are alike then, and if told so, whether the walks are.
    fn are_alike_then(
        &mut self,
        alloc: Global,
        kinds: &[Option<ServiceType>],
        is_walked: bool,
    ) -> Result<bool, NoMemory> {
        self.wait();
        let is_alike = self.take_some_step(alloc)?;
        let asked = self.some_entry(alloc)?;
        if is_walked && !self.are_walks_alike(alloc, kinds, &asked)? {
            return Ok(false);
        }
        Ok(is_alike && self.are_alike(&asked))
    }

    // Takes the steps, or those up to the first after which the two differ. Tells how many they were.
    fn take_steps(
        &mut self,
        alloc: Global,
        kinds: &[Option<ServiceType>],
        times: usize,
    ) -> Result<usize, NoMemory> {
        for step in 0..times {
            if !self.are_alike_then(alloc, kinds, step % 16 == 0)? {
                return Ok(step);
            }
        }
        Ok(times)
    }
}

// What walks are for: no type, or one.
fn walked_kinds(alloc: Global) -> Result<Vec<Option<ServiceType>>, NoMemory> {
    let mut kinds = Vec::new(alloc);
    kinds.push(None)?;
    for text in &KINDS {
        kinds.push(Some(found(ServiceType::parse(alloc, text))?))?;
    }
    Ok(kinds)
}

// How many steps the two are alike after, of so many, and how many entries were held at most.
fn steps_alike(alloc: Global, capacity: usize, times: usize) -> Result<(usize, usize), NoMemory>
    requires some { 0 < capacity }
    requires few { capacity ≤ 65536 }
{
    let kinds = walked_kinds(alloc)?;
    let mut twins = Box::new(alloc, Twins::new(alloc, capacity)?)?;
    let steps = twins.take_steps(alloc, kinds.as_slice(), times)?;
    Ok((steps, twins.most))
}

#[test]
fn a_table_is_as_a_list(rt: HostRuntime) {
    assert_eq!(rt; steps_alike(rt.alloc(), SMALL, TIMES), Ok((TIMES, SMALL)));
}

#[test]
fn a_table_of_several_blocks_is_as_a_list(rt: HostRuntime) {
    assert!(rt;
        matches!(steps_alike(rt.alloc(), LARGE, LARGE_TIMES), Ok((LARGE_TIMES, most)) if most > BLOCK),
        "as a list, and in more than one block"
    );
}
