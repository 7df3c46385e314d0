//! Runs what stands on its standard input, one after the other, and prints the name of each and what comes of it: scripts, which it
//! replays, with what the replay prints and its status; and scenes of a directory that is published: a writer, loops, notes, and a directory
//! of its own beside them; or a desk and a sweeper.
//!
//! A line `=== NAME` begins one and says what it shows. The lines up to the next such line are what is run; what stands before the first is
//! a comment. A name that begins with `published:` is that of a scene, whose first line is `open` or `desk`: `CONTRIBUTING.md` has its rows.
//! All others are scripts. A backslash at the end of a script takes its last LF away. `{N*TEXT}` in it stands for N times TEXT, which may have
//! line ends and has no brace; together they are at most 4,000,000 bytes. `{xHH}` stands for the byte of this hexadecimal number.
//! `{7 find service:printer DEFAULT}` stands for the hexadecimal digits of the message that this command of `slptool` sends, with this
//! number. Every other brace stands for itself.
#![tactic(auto)]

ghost use Rattle.std.specs.Prelude.{◌≡◌, ◌<◌, ◌≤◌};
ghost use Rattle.std.specs.Arc.{arc_value};

mod desk;
mod entries;
mod expansion;
mod numbers;
mod opening;
mod random;
mod replays;
mod scene;
mod words;

use crate::desk::run_desk;
use crate::opening::{Beginning, read_head};
use crate::replays::replay_row;
use crate::scene::Scene;
use access_rules::Rules;
use directory_judge::Site;
use history_log::{Naming, Opened};
use published_view::{ViewFault, open};
use std::alloc::{AllocError, Global};
use std::io::{self, Read, Write};
use std::marker::Brand;
use std::sync::{Arc, Wait};
use std::thread::Threads;
use std::time::Clock;

/// What stands between the last line of one and the name of the next.
const MARK: &str = "\n=== ";

/// What the names of scenes begin with.
const PUBLISHED: &str = "published:";

// All on standard input. The first line may begin a script or a scene, too.
fn read_rows(rt: &HostRuntime) -> io::Result<String> {
    let mut text = String::from_str(rt.alloc(), "\n")?;
    rt.reader().read_to_string(&mut text)?;
    Ok(text)
}

// A writer and so many loops, and what rows do with them.
fn open_scene<J, R>(
    rt: &R,
    alloc: Global,
    opened: Opened,
    begun: Beginning,
) -> Result<Box<Scene<'_, J, R>>, ViewFault>
where
    J: Naming + Send + Sync,
    R: Threads + Wait + Clock + Sync,
    requires book { opened.seen.book ≡ J.book }
    requires opening { J.opening ≡ record { rules = arc_value begun.rules; site = begun.site } }
{
    let Beginning {
        is_desk: _,
        site,
        rules,
        loops,
        plain,
    } = begun;
    let told = open::<J, &R>(alloc, rt, opened, &site, rules, loops);
    drop(site);
    match told {
        Ok((writer, views)) => Ok(Box::new(alloc, Scene::new(rt, alloc, writer, views, plain))?),
        Err(fault) => {
            drop(plain);
            Err(fault)
        }
    }
}

// Runs the rows of a scene at a desk, and gives what they bring.
fn run_at_desk<J, R>(
    rt: &R,
    alloc: Global,
    opened: Opened,
    begun: Beginning,
    rows: &String,
) -> io::Result<Vec<u8>>
where
    J: Naming,
    R: Wait,
    requires book { opened.seen.book ≡ J.book }
    requires opening { J.opening ≡ record { rules = arc_value begun.rules; site = begun.site } }
{
    let mut out = Vec::new(alloc);
    let Beginning {
        is_desk: _,
        site,
        rules,
        loops,
        plain,
    } = begun;
    drop(plain);
    let told = open::<J, &R>(alloc, rt, opened, &site, rules, loops);
    drop(site);
    let told = match told {
        Ok(parts) => run_desk(rt, alloc, parts, rows.as_str(), &mut out),
        Err(fault) => writeln!(out, "! {}", fault as u8),
    };
    told?;
    Ok(out)
}

// Runs the rows of a scene, and gives what they bring.
fn run<J, R>(
    rt: &R,
    alloc: Global,
    opened: Opened,
    begun: Beginning,
    rows: &String,
) -> io::Result<Vec<u8>>
where
    J: Naming + Send + Sync,
    R: Threads + Wait + Clock + Sync,
    requires book { opened.seen.book ≡ J.book }
    requires opening { J.opening ≡ record { rules = arc_value begun.rules; site = begun.site } }
{
    if begun.is_desk {
        return run_at_desk::<J, R>(rt, alloc, opened, begun, rows);
    }
    let mut out = Vec::new(alloc);
    let told = match open_scene::<J, R>(rt, alloc, opened, begun) {
        Ok(mut scene) => {
            let told = scene.run(rows.as_str(), &mut out);
            drop(scene);
            told
        }
        Err(fault) => writeln!(out, "! {}", fault as u8),
    };
    told?;
    Ok(out)
}

// Runs a scene, and gives what its rows bring.
fn run_scene<R>(rt: &R, alloc: Global, scene: &str) -> io::Result<Vec<u8>>
where
    R: Threads + Wait + Clock + Sync,
{
    let (head, rows) = scene.split_once('\n').unwrap_or((scene, ""));
    let rows = String::from_str(alloc, rows)?;
    let Ok(begun) = read_head(alloc, head) else {
        return Err(AllocError.into());
    };
    let opened = Opened::new();
    run::<Brand, _>(rt, alloc, opened, begun, &rows)
}

// Runs what has a name, and gives what comes of it.
fn run_row<R>(rt: &R, alloc: Global, (name, lines): (&str, &str)) -> io::Result<Vec<u8>>
where
    R: Threads + Wait + Clock + Sync,
{
    if name.starts_with(PUBLISHED) {
        run_scene(rt, alloc, lines)
    } else {
        replay_row(alloc, lines)
    }
}

fn main(rt: HostRuntime) -> io::Result<()> {
    let text = read_rows(&rt)?;
    let rows = text.as_str();
    for row in rows.strip_suffix('\n').unwrap_or(rows).split(MARK).skip(1) {
        let (name, lines) = row.split_once('\n').unwrap_or((row, ""));
        let out = run_row(&rt, rt.alloc(), (name, lines))?;
        let mut writer = io::writer(&rt);
        writeln!(writer, "=== {name}")?;
        writer.write_all(out.as_slice())?;
    }
    Ok(())
}
