//! The threads of a server: one for each loop, one for what is done beside them, and the one that started these, which reads the
//! words.
ghost use Rattle.std.specs.Prelude.{◌≡◌};
ghost use Rattle.agent_parts.specs.Statuses as spec;

use site_opening::StartFault;
use slp_sockets::{AgentLoop, LoopFault, Serve};
use std::alloc::Global;
use std::sync::atomic::{AtomicBool, Ordering};
use std::sync::{Mutex, Wait};
use std::thread;
use std::thread::{JoinHandle, Scope, Threads};
use std::time::Clock;

/// Work that ends soon after a flag is set, well or with a fault.
pub trait Task {
    fn run(&mut self, stop: &AtomicBool) -> Result<(), LoopFault>;
}

/// What one thread does.
#[derive(Drop)]
pub enum Job<S: Serve + Drop, T: Task + Drop> {
    Serve(AgentLoop<S>),
    Other(T),
}

/// What the threads wait for: that all of them are there, and that they are to end.
#[derive(Drop)]
struct Signals {
    // It is held while threads are started.
    door: Mutex<()>,
    stop: AtomicBool,
}

type Started = Vec<JoinHandle<Result<(), LoopFault>>>;

impl Signals {
    fn new() -> Signals {
        Signals {
            door: Mutex::new(()),
            stop: AtomicBool::new(false),
        }
    }

    // Does a job, once all threads are there. Where one could not be made, the flag is set before: so nothing is served.
    fn work<R, S, T>(&self, rt: &R, job: Job<S, T>) -> Result<(), LoopFault>
    where
        R: Wait + Clock,
        S: Serve + Drop,
        T: Task + Drop,
    {
        drop(self.door.lock(rt));
        match job {
            Job::Serve(mut agent) => agent.run(rt, &self.stop),
            Job::Other(mut task) => task.run(&self.stop),
        }
    }
}

// Starts a thread for each job. It may be refused, and then those stand that were started before.
fn start<'s, E, R, S, T>(
    rt: &'s R,
    scope: &Scope<'s, E>,
    signals: &'s Signals,
    jobs: Vec<Job<S, T>>,
    started: &mut Started,
) -> Result<(), StartFault>
where
    R: Threads + Wait + Clock + Sync,
    S: Serve + Drop + Send + 's,
    T: Task + Drop + Send + 's,
{
    for job in jobs {
        let run = move || signals.work(rt, job);
        let Ok(thread) = scope.spawn(run) else {
            return Err(StartFault::NoMemory);
        };
        started.push(thread)?;
    }
    Ok(())
}

// The status of an agent one of whose threads ended, beside those that ended before it.
fn end_status(before: u8, told: Result<(), LoopFault>) -> u8
    ensures { result ≡ spec.end_status before told }
{
    match told {
        Ok(()) => before,
        Err(LoopFault::Io) => 1,
        Err(LoopFault::NoMemory) => 3,
    }
}

// Waits for the threads, and answers the status of the agent.
fn join_all<R: Threads>(rt: &R, started: Started) -> u8 {
    let mut status = 0;
    for thread in started {
        status = end_status(status, thread.join(rt));
    }
    status
}

// Runs the jobs on threads of a scope, while the console lasts on this one. Where one can't be started, those that were end before
// they did anything.
fn serve_in<'s, E, R, S, T, C>(
    rt: &'s R,
    scope: &Scope<'s, E>,
    signals: &'s Signals,
    (alloc, jobs): (Global, Vec<Job<S, T>>),
    console: C,
) -> Result<u8, StartFault>
where
    R: Threads + Wait + Clock + Sync,
    S: Serve + Drop + Send + 's,
    T: Task + Drop + Send + 's,
    C: Task + Drop,
{
    let mut console = console;
    let mut started = Vec::with_capacity(alloc, jobs.len())?;
    let door = signals.door.lock(rt);
    let told = start(rt, scope, signals, jobs, &mut started);
    if told.is_err() {
        signals.stop.store(true, Ordering::SeqCst);
    }
    drop(door);
    let heard = match told {
        Ok(()) => console.run(&signals.stop),
        Err(_) => Ok(()),
    };
    let status = end_status(join_all(rt, started), heard);
    told?;
    Ok(status)
}

/// Runs each job on a thread of its own, once all threads are there, and the console on this one, whose end is the end of the others.
/// Answers the status once all have ended. Where a thread can't be made, nothing is done, and that is want of memory.
pub(crate) fn serve<R, S, T, C>(
    rt: &R,
    alloc: Global,
    jobs: Vec<Job<S, T>>,
    console: C,
) -> Result<u8, StartFault>
where
    R: Threads + Wait + Clock + Sync,
    S: Serve + Drop + Send,
    T: Task + Drop + Send,
    C: Task + Drop,
{
    let signals = Signals::new();
    let signals = &signals;
    thread::scope(thread::scope_env(), rt, move |scope| {
        serve_in(rt, scope, signals, (alloc, jobs), console)
    })
}
