//! How a published directory begins: with a directory of the writer's own, the two copies that are published in turn, and a
//! view for each loop.
ghost use Rattle.std.specs.Prelude.{◌≡◌, ◌⊎◌, ◌<◌, ◌≤◌, [], drop, All, vec_len, IfSome, IsOk, IfOk, IfErr};
ghost use Rattle.std.specs.Arc.{arc_value};
ghost use Rattle.left_right.specs.Sides.{view};
ghost use Rattle.directory_state.specs.State.{opening_state};
ghost use Rattle.published_view.specs.Changes.{at_opening};
ghost use Rattle.published_view.specs.Rules.{IsAfter, history_of};

use crate::copies::{AgentDirectory, Operation, PublishedCopy};
use crate::fault::ViewFault;
use crate::rule::{RuledWriter, publish_nothing};
use crate::view::{LoopView, loops_of};
use crate::writer::DirectoryWriter;
use access_rules::Rules;
use directory_judge::Site;
use directory_state::Directory;
use history_log::{Front, Naming, Opened, Trail};
use slp_text::NoMemory;
use std::alloc::Global;
use std::sync::{Arc, Wait};
use table_registry::SiteRegistry;

/// The most loops that there may be.
pub const MOST_LOOPS: usize = 8;

// A directory of a site with these rules, to which nothing happened.
fn directory_of(alloc: Global, site: &Site, rules: &Arc<Rules>) -> Result<AgentDirectory, NoMemory>
    ensures { IfOk result (λ d. d ≡ opening_state (record { rules = arc_value rules.now; site = site.now })) }
{
    let rules = Arc::try_clone(rules)?;
    let Ok(registry) = SiteRegistry::with_capacity(alloc, site.capacity()) else {
        return Err(NoMemory);
    };
    Directory::open(alloc, registry, site, rules)
}

// The same, with a history.
fn copy_of(
    alloc: Global,
    trail: &Trail,
    site: &Site,
    rules: &Arc<Rules>,
) -> Result<PublishedCopy, NoMemory>
    ensures { IfOk result (λ k. k ≡ record { directory = opening_state (record { rules = arc_value rules.now; site = site.now }); trail = trail.now }) }
{
    let directory = directory_of(alloc, site, rules)?;
    Ok(PublishedCopy {
        directory,
        trail: trail.again(),
    })
}

// The line keeps the room that its first operation made, and no later one needs more: so none is refused when it is put in line.
fn with_room<J: Naming, R: Wait>(mut writer: RuledWriter<J>, rt: &R) -> Option<RuledWriter<J>>
    requires { drop writer.behind writer.log.items ≡ [] }
    ensures { IfSome result (λ w. (w.desk.shown.value ≡ writer.desk.shown.value) × (drop w.behind w.log.items ≡ []) × (view w.desk.place ≡ view writer.desk.place)) }
{
    if writer.append(Operation::Nothing).is_err() {
        drop(writer.take(rt));
        return None;
    }
    let (writer, published) = publish_nothing(writer, rt);
    if published.is_err() {
        drop(writer.take(rt));
        return None;
    }
    Some(writer)
}

// A writer over two copies, with nothing in line.
fn writer_of<J: Naming, R: Wait>(
    alloc: Global,
    rt: &R,
    first: PublishedCopy,
    second: PublishedCopy,
    loops: usize,
) -> Result<RuledWriter<J>, NoMemory>
    requires some { 0 < loops }
    requires few { loops ≤ 8 }
    requires alike { first ≡ second }
    requires opening { IsAfter J.book J.opening first }
    requires empty { history_of first ≡ [] }
    ensures { IfOk result (λ w. (w.desk.shown.value ≡ first) × (drop w.behind w.log.items ≡ []) × (view w.desk.place ≡ [])) }
{
    let writer = RuledWriter::<J>::new(alloc, first, second, loops)?;
    let Some(writer) = with_room(writer, rt) else {
        return Err(NoMemory);
    };
    Ok(writer)
}

// Two copies, of which none is let go before the other is made.
fn two_copies(
    alloc: Global,
    trail: &Trail,
    site: &Site,
    rules: &Arc<Rules>,
) -> Result<(PublishedCopy, PublishedCopy), NoMemory>
    ensures { IfOk result (λ p. (p.0 ≡ record { directory = opening_state (record { rules = arc_value rules.now; site = site.now }); trail = trail.now }) × (p.1 ≡ p.0)) }
{
    let first = copy_of(alloc, trail, site, rules)?;
    let Ok(second) = copy_of(alloc, trail, site, rules) else {
        drop(first);
        return Err(NoMemory);
    };
    Ok((first, second))
}

// The writer's own directory, to which nothing happened, and a writer that publishes the same.
fn begun<J: Naming, R: Wait>(
    alloc: Global,
    rt: &R,
    front: &Front<J>,
    site: &Site,
    rules: &Arc<Rules>,
    loops: usize,
) -> Result<(PublishedCopy, RuledWriter<J>), NoMemory>
    requires some { 0 < loops }
    requires few { loops ≤ 8 }
    requires empty { front.now ≡ [] }
    requires opening { J.opening ≡ record { rules = arc_value rules.now; site = site.now } }
    ensures shown { IfOk result (λ r. r.0 ≡ r.1.desk.shown.value) }
    ensures idle { IfOk result (λ r. drop r.1.behind r.1.log.items ≡ []) }
    ensures unwritten { IfOk result (λ r. view r.1.desk.place ≡ []) }
    ensures after { IfOk result (λ r. IsAfter J.book J.opening r.0) }
    ensures no_history { IfOk result (λ r. history_of r.0 ≡ []) }
{
    let trail = front.trail();
    let own = copy_of(alloc, &trail, site, rules)?;
    let Ok((first, second)) = two_copies(alloc, &trail, site, rules) else {
        drop(own);
        return Err(NoMemory);
    };
    match writer_of::<J, R>(alloc, rt, first, second, loops) {
        Ok(writer) => Ok((own, writer)),
        Err(fault) => {
            drop(own);
            Err(fault)
        }
    }
}

/// The second phase of an opening, the first of which is one call of `Opened::new`, whose name it goes by: makes the
/// writer of an empty history, and so many views, 1 to 8. Other numbers are `NoPlace`. A writer waits at a publish for readers
/// that entered before the last one, by `rt`.
pub fn open<J: Naming, R: Wait + Drop>(
    alloc: Global,
    rt: R,
    opened: Opened,
    site: &Site,
    rules: Arc<Rules>,
    loops: usize,
) -> Result<(DirectoryWriter<J, R>, Vec<LoopView<J>>), ViewFault>
    requires book { opened.seen.book ≡ J.book }
    requires opening { J.opening ≡ record { rules = arc_value rules; site = site.now } }
    ensures writer { IfOk result (λ r. r.0 ≡ at_opening) }
    ensures count { IfOk result (λ r. vec_len r.1 ≡ loops) }
    ensures loops { IfOk result (λ r. All (λ l. l ≡ []) r.1.items) }
    ensures range { IsOk result → (0 < loops) × (loops ≤ 8) }
    ensures faults { IfErr result (λ e. (e ≡ ViewFault.NoMemory) ⊎ (e ≡ ViewFault.NoPlace)) }
{
    if loops == 0 || loops > MOST_LOOPS {
        return Err(ViewFault::NoPlace);
    }
    let shared = Arc::new(alloc, site.copy(alloc)?)?;
    let (book, front) = opened.named::<J>();
    let begun = begun::<J, R>(alloc, &rt, &front, site, &rules, loops);
    drop(rules);
    let (own, writer) = begun?;
    match loops_of(alloc, writer.factory(), loops, &shared) {
        Ok(all) => Ok((
            DirectoryWriter {
                writer: Some(writer),
                book,
                own,
                shut: false,
                rt,
            },
            all,
        )),
        Err(fault) => {
            drop(own);
            drop(writer.take(&rt));
            Err(fault)
        }
    }
}
