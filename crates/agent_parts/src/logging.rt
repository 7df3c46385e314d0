//! The thread that writes the lines of the others.

use crate::threads::{Job, Task, serve};
use loop_log::{LineWriter, Queue};
use site_opening::StartFault;
use slp_sockets::Serve;
use std::alloc::Global;
use std::io::Write;
use std::sync::Wait;
use std::thread;
use std::thread::{Scope, Threads};
use std::time::Clock;

// Starts what writes, has the others serve, and then has all out that they left.
fn serve_in<'s, E, R, S, T, C, W>(
    rt: &'s R,
    scope: &Scope<'s, E>,
    (queue, log): (&'s Queue, LineWriter<'s, 's, R, W>),
    (alloc, jobs): (Global, Vec<Job<S, T>>),
    console: C,
) -> Result<u8, StartFault>
where
    R: Threads + Wait + Clock + Sync,
    S: Serve + Drop + Send,
    T: Task + Drop + Send,
    C: Task + Drop,
    W: Write + Send,
{
    let mut log = log;
    let Ok(thread) = scope.spawn(move || log.run()) else {
        drop(jobs);
        drop(console);
        return Err(StartFault::NoMemory);
    };
    let told = serve(rt, alloc, jobs, console);
    queue.end(rt);
    thread.join(rt);
    told
}

/// Runs each job and the console as `serve` does, while one more thread writes the lines of a queue. All lines are out when it answers.
pub fn serve_logged<'s, R, S, T, C, W>(
    rt: &'s R,
    log: (&'s Queue, LineWriter<'s, 's, R, W>),
    jobs: (Global, Vec<Job<S, T>>),
    console: C,
) -> Result<u8, StartFault>
where
    R: Threads + Wait + Clock + Sync,
    S: Serve + Drop + Send,
    T: Task + Drop + Send,
    C: Task + Drop,
    W: Write + Send,
{
    thread::scope(thread::scope_env(), rt, move |scope| {
        serve_in(rt, scope, log, jobs, console)
    })
}
