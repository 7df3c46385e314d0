//! How many descriptors a server can need, how many a process may have, and how many streams each of its loops takes by that.
ghost use Rattle.std.specs.Prelude.{◌≡◌, ◌≤◌, ℕ, List, Result, length, IfOk};
ghost use Rattle.std.specs.List.{before_first};
ghost use Rattle.std.specs.Option.{option_copied};
ghost use Rattle.site_config.specs.Configurations.{IsWithin};
ghost use Rattle.site_opening.specs.Descriptors as spec;
ghost use Rattle.site_opening.specs.Descriptors.{files_limit, first_limit, is_space, limit_read, own_descriptors, second_loops, texts_of};
ghost use Rattle.site_opening.specs.declared.files.FileFault.{FileFault as Fault};

use crate::files::{FileFault, read};
use addresses::number;
use site_config::Config;
use slp_text::NoMemory;
use std::alloc::Global;
use std::rt::Files;

/// Where the system tells the limits of the process that asks (proc(5)).
const LIMITS: &str = "/proc/self/limits";

/// There are so many loops at most.
const MOST_LOOPS: usize = 8;

// How many of so many addresses have a second loop.
fn seconds(addresses: usize) -> usize
    requires { addresses ≤ 8 }
    ensures value { result ≡ second_loops addresses }
    ensures few { result ≤ 4 }
{
    addresses.min(MOST_LOOPS - addresses)
}

// The descriptors that a server of so many addresses needs without streams.
fn own(addresses: usize) -> usize
    requires { addresses ≤ 8 }
    ensures value { result ≡ own_descriptors addresses }
    ensures few { result ≤ 52 }
{
    5 * addresses + 2 * seconds(addresses) + 4
}

/// The descriptors that a server of a configuration can need.
pub fn needed_descriptors(config: &Config) -> usize
    requires { IsWithin config.now }
    ensures { result ≡ spec.needed_descriptors (length config.now.listen) config.now.connections }
{
    let addresses = config.listen.as_slice().len();
    (addresses + seconds(addresses)) * config.connections + own(addresses)
}

fn before_space(text: &str) -> &str
    ensures { result.now ≡ before_first is_space text.now }
{
    match text.split_once(' ') {
        Some((word, _)) => word,
        None => text,
    }
}

// What follows the words at the front of the line about open files.
fn after_files(line: &str) -> Option<&str>
    ensures { option_copied result ≡ spec.after_files line.now }
{
    match line.strip_prefix("Max open files") {
        Some(rest) => Some(rest),
        None => None,
    }
}

// How many files may be open, by one line of the limits.
fn limit_in(line: &str) -> Option<u32>
    ensures { result ≡ spec.limit_in line.now }
{
    match after_files(line) {
        Some(rest) => number(before_space(rest.trim_start()).as_bytes()),
        None => None,
    }
}

// The same by the first line that says it.
fn limit_among(lines: &[&str]) -> Option<u32>
    ensures { result ≡ first_limit (texts_of lines.now) }
{
    for place in 0..lines.len() {
        let limit = limit_in(lines[place]);
        if limit.is_some() {
            return limit;
        }
    }
    None
}

// The same by all of them.
fn limit(alloc: Global, text: &str) -> Result<Option<u32>, NoMemory>
    ensures { IfOk result (λ n. n ≡ files_limit text.now) }
{
    let lines: Vec<&str> = text.lines().collect(alloc)?;
    Ok(limit_among(&lines))
}

/// How many descriptors this process may have, where the system says so.
pub fn descriptor_limit<R: Files>(rt: &R, alloc: Global) -> Result<Option<u32>, NoMemory>
    ensures { IfOk result (λ most. (limits : Result (List ℕ) Fault) × (most ≡ limit_read limits)) }
{
    match read(rt, alloc, LIMITS) {
        Ok(text) => Ok(limit(alloc, text.as_str())?),
        Err(FileFault::NoMemory) => Err(NoMemory),
        Err(_) => Ok(None),
    }
}

/// How many streams each loop of a server takes where its process may have so many descriptors: those of the configuration, or fewer, so that all loops find
/// descriptors for theirs, but one at least.
pub fn shared_streams(config: &Config, most: Option<u32>) -> usize
    requires { IsWithin config.now }
    ensures { result ≡ spec.shared_streams (length config.now.listen) config.now.connections most }
{
    let Some(most) = most else {
        return config.connections;
    };
    let addresses = config.listen.as_slice().len();
    let left = (most as usize).saturating_sub(own(addresses));
    config
        .connections
        .min((left / (addresses + seconds(addresses))).max(1))
}
