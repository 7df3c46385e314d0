//! How a server starts: what its configuration names is opened, each of its addresses has a loop, and each loop a thread.
ghost use Rattle.std.specs.Prelude.{◌≡◌, ◌<◌, ◌≤◌, ◌++◌, ◌∷◌, [], false, is_some, length, min, vec_len, slice_get, slice_index_or, Some, IfOk, IfSome, MatchOption, OnOk};
ghost use Rattle.std.specs.Arc.{arc_value};
ghost use Rattle.std.specs.Option.{option_map};
ghost use Rattle.agent_parts.specs.Jobs.{AreJobs, IsLoop};

use agent_parts::{
    Beginning, Console, Job, Operator, Sweeping, begun, loop_fault, opened, serve_logged,
};
use agent_watch::SharedInput;
use published_view::{Gate, LoopView, MOST_LOOPS, Naming, Opened, open};
use site_config::Config;
use site_opening::{StartFault, descriptor_limit, shared_streams};
use slp_loops::{
    AgentLoop, Desk, LineWriter, LoopFault, Moments, Queue, QueuedOutput, Shared, WallClock,
};
use std::alloc::{AllocError, Global};
use std::io::{Read, Write};
use std::marker::Brand;
use std::net::Net;
use std::rt::Files;
use std::sync::{Mutex, Wait};
use std::thread::Threads;
use std::time::Clock;

/// What a server is given from outside: the words of its operator, the output for its lines, and what is called inside each entry.
#[derive(Drop)]
pub struct Ends<'s, G: Gate, I: Read, W: Write> {
    pub input: &'s Mutex<I>,
    pub output: &'s Mutex<W>,
    pub gate: &'s G,
}

type AgentDesk<'r, 's, J, R, G, W> = Desk<
    'r,
    's,
    J,
    R,
    WallClock<'r, R>,
    G,
    QueuedOutput<'r, 's, R, W>,
>;

type AgentJob<'r, 's, J, R, G, W> = Job<AgentDesk<'r, 's, J, R, G, W>, Sweeping<'r, 's, J, R, G>>;

type Agents<'r, 's, J, R, G, W> = (
    AgentLoop<AgentDesk<'r, 's, J, R, G, W>>,
    Option<AgentLoop<AgentDesk<'r, 's, J, R, G, W>>>,
);

type Loops<'r, 's, J, R, G, W> = (
    AgentJob<'r, 's, J, R, G, W>,
    Option<AgentJob<'r, 's, J, R, G, W>>,
);

// The desk for messages that come to one of the addresses of a configuration, whose lines have a place in the queue.
fn desk_at<'r, 's, J, R, G, W>(
    config: &Config,
    place: usize,
    view: LoopView<J>,
    shared: &Shared<'r, 's, J, R, G, W>,
    queued: usize,
) -> AgentDesk<'r, 's, J, R, G, W>
where
    J: Naming,
    R: Wait + Clock,
    G: Gate,
    W: Write,
    requires { place < length config.now.listen }
    ensures own { option_map (λ place. place.0) (slice_get config.now.listen place) ≡ Some result.own }
    ensures alone { result.has_other ≡ false }
{
    let (own, _) = config.listen.as_slice()[place];
    Desk::new(view, shared, own, WallClock::new(shared.rt), queued)
}

// What serves at one of the addresses of a configuration, and what serves there beside it, where there is a view for that: their desks have the address at which it listens.
fn agents_at<'r, 's, J, R, G, W>(
    config: &Config,
    place: usize,
    view: LoopView<J>,
    other: Option<LoopView<J>>,
    shared: &Shared<'r, 's, J, R, G, W>,
) -> Result<Agents<'r, 's, J, R, G, W>, LoopFault>
where
    J: Naming,
    R: Wait + Clock + Net,
    G: Gate,
    W: Write,
    requires { place < length config.now.listen }
    ensures one { IfOk result (λ a. (option_map (λ place. place.0) (slice_get config.now.listen place) ≡ Some a.0.server.own) × (a.0.server.has_other ≡ is_some a.1)) }
    ensures other { IfOk result (λ a. (is_some a.1 ≡ is_some other) × IfSome a.1 (λ l. (option_map (λ place. place.0) (slice_get config.now.listen place) ≡ Some l.server.own) × (l.server.has_other ≡ false))) }
{
    let mut desk = desk_at(config, place, view, shared, place);
    desk.has_other = other.is_some();
    let mut agent = AgentLoop::new(shared.rt, shared.alloc, config, place, desk)?;
    match other {
        Some(view) => {
            let queued = place.saturating_add(config.listen.as_slice().len());
            let desk = desk_at(config, place, view, shared, queued);
            let beside = agent.beside(shared.rt, shared.alloc, desk)?;
            Ok((agent, Some(beside)))
        }
        None => Ok((agent, None)),
    }
}

// The loop at one of the addresses of a configuration, and the one beside it.
fn loops_at<'r, 's, J, R, G, W>(
    config: &Config,
    place: usize,
    view: LoopView<J>,
    other: Option<LoopView<J>>,
    shared: &Shared<'r, 's, J, R, G, W>,
) -> Result<Loops<'r, 's, J, R, G, W>, StartFault>
where
    J: Naming,
    R: Wait + Clock + Net,
    G: Gate,
    W: Write,
    requires { place < length config.now.listen }
    ensures one { IfOk result (λ jobs. IsLoop (λ d. d.own) jobs.0 (slice_index_or config.now.listen place (0, 0))) }
    ensures other { IfOk result (λ jobs. (is_some jobs.1 ≡ is_some other) × IfSome jobs.1 (λ job. IsLoop (λ d. d.own) job (slice_index_or config.now.listen place (0, 0)))) }
{
    match agents_at(config, place, view, other, shared) {
        Ok(agents) => {
            let (agent, other) = agents;
            match other {
                Some(beside) => Ok((Job::Serve(agent), Some(Job::Serve(beside)))),
                None => Ok((Job::Serve(agent), None)),
            }
        }
        Err(fault) => Err(loop_fault(fault)),
    }
}

// Adds what is there.
fn add<T: Drop>(all: &mut Vec<T>, one: Option<T>) -> Result<(), AllocError>
    ensures { OnOk result (MatchOption one (all.new.items ≡ all.old.items) (λ x. all.new.items ≡ all.old.items ++ x ∷ [])) }
{
    match one {
        Some(one) => {
            all.push(one)?;
            Ok(())
        }
        None => Ok(()),
    }
}

// A loop for each address of a configuration, one beside each of the first of them, as many as there are other views, and the sweeper.
fn jobs_at<'r, 's, J, R, G, W>(
    config: &Config,
    views: Vec<LoopView<J>>,
    mut others: Vec<LoopView<J>>,
    shared: &Shared<'r, 's, J, R, G, W>,
) -> Result<Vec<AgentJob<'r, 's, J, R, G, W>>, StartFault>
where
    J: Naming,
    R: Wait + Clock + Net,
    G: Gate,
    W: Write,
    requires { vec_len views ≡ length config.now.listen }
    ensures { IfOk result (λ jobs. AreJobs (λ d. d.own) (λ s. s.sweeper.interval) jobs.items config.now.listen (min (vec_len others) (length config.now.listen)) config.now.sweep) }
{
    let mut jobs = Vec::new(shared.alloc);
    let mut beside = Vec::new(shared.alloc);
    for view in views {
        let (job, other) = loops_at(config, jobs.len(), view, others.pop(), shared)?;
        jobs.push(job)?;
        add(&mut beside, other)?;
    }
    jobs.append(&mut beside)?;
    let sweeping = Sweeping::new(shared.rt, shared.writer, shared.gate, config.sweep);
    jobs.push(Job::Other(sweeping))?;
    Ok(jobs)
}

// How many loops serve at so many addresses: two at each, as long as there are views.
fn loops_for(addresses: usize) -> usize
    ensures { addresses ≤ result }
{
    addresses.saturating_add(addresses.min(MOST_LOOPS.saturating_sub(addresses)))
}

// Serves at the addresses of a configuration, from what is published.
fn serve_at<J, R, G, I, W>(
    config: &Config,
    mut views: Vec<LoopView<J>>,
    shared: &Shared<'_, '_, J, R, G, W>,
    input: &Mutex<I>,
) -> Result<u8, StartFault>
where
    J: Naming + Send + Sync,
    R: Threads + Wait + Net + Clock + Files + Sync,
    G: Gate + Sync,
    I: Read + Send,
    W: Write + Send,
    requires { length config.now.listen ≤ vec_len views }
{
    let loops = views.len();
    let others = views.split_off(config.listen.as_slice().len())?;
    let jobs = jobs_at(config, views, others, shared)?;
    let console = Console {
        rt: shared.rt,
        alloc: shared.alloc,
        writer: shared.writer,
        gate: shared.gate,
        output: shared.log(loops),
        rules: config.rules.as_ref(),
        spare: opened(shared.rt, config.rules.as_ref()),
        clock: WallClock::new(shared.rt),
    };
    let input = SharedInput {
        rt: shared.rt,
        input,
    };
    let log = LineWriter::new(shared.rt, shared.alloc, shared.queue, shared.output)?;
    serve_logged(
        shared.rt,
        (shared.queue, log),
        (shared.alloc, jobs),
        Operator { console, input },
    )
}

// Serves from a directory that is opened by a name.
fn serve_opened<J, R, G, I, W>(
    rt: &R,
    alloc: Global,
    opened: Opened,
    begun: Beginning,
    ends: &Ends<'_, G, I, W>,
) -> Result<u8, StartFault>
where
    J: Naming + Send + Sync,
    R: Threads + Wait + Net + Clock + Files + Sync,
    G: Gate + Sync,
    I: Read + Send,
    W: Write + Send,
    requires book { opened.seen.book ≡ J.book }
    requires opening { J.opening ≡ record { rules = arc_value begun.rules; site = begun.site } }
{
    let Beginning {
        config,
        site,
        rules,
    } = begun;
    let loops = loops_for(config.listen.as_slice().len());
    let told = open::<J, &R>(alloc, rt, opened, &site, rules, loops);
    drop(site);
    let Ok((writer, views)) = told else {
        drop(config);
        return Err(StartFault::NoMemory);
    };
    let writer = Mutex::new(writer);
    let Ok(queue) = Queue::new(alloc, loops.saturating_add(1)) else {
        drop(views);
        drop(config);
        return Err(StartFault::NoMemory);
    };
    let shared = Shared {
        rt,
        alloc,
        writer: &writer,
        gate: ends.gate,
        queue: &queue,
        output: ends.output,
    };
    let told = serve_at(&config, views, &shared, ends.input);
    drop(config);
    told
}

// Opens what the configuration names, and serves. Loops share the descriptors that this process may have, so that the streams of one leave some for another.
fn run<R, G, I, W>(
    rt: &R,
    alloc: Global,
    path: &str,
    ends: &Ends<'_, G, I, W>,
) -> Result<u8, StartFault>
where
    R: Threads + Wait + Net + Clock + Files + Sync,
    G: Gate + Sync,
    I: Read + Send,
    W: Write + Send,
{
    let boot = WallClock::new(rt).now();
    let mut begun = begun(rt, alloc, path, boot)?;
    let most = descriptor_limit(rt, alloc)?;
    begun.config.connections = shared_streams(&begun.config, most);
    let opened = Opened::new();
    serve_opened::<Brand, _, _, _, _>(rt, alloc, opened, begun, ends)
}

/// Serves what the configuration in a file names, with a loop for each of its addresses, each on a thread of its own, until the
/// input ends or says `stop`, and answers the status: 0; 1 where a file or a socket failed; 2 where the configuration, the rules or
/// a template was refused, which is printed; 3 where memory or a thread was wanting. `ready` is printed once all threads are there.
pub fn start_loops<R, G, I, W>(rt: &R, alloc: Global, path: &str, ends: &Ends<'_, G, I, W>) -> u8
where
    R: Threads + Wait + Net + Clock + Files + Sync,
    G: Gate + Sync,
    I: Read + Send,
    W: Write + Send,
{
    match run(rt, alloc, path, ends) {
        Ok(status) => status,
        Err(fault) => {
            let mut output = ends.output.lock(rt);
            let _ = fault.print(&mut *output);
            let _ = output.flush();
            fault.status()
        }
    }
}
