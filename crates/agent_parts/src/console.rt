//! The words on standard input.
ghost use Rattle.std.specs.Prelude.{◌≡◌, ◌⊎◌, ◌∷◌, ⊤, Result, IfOk, IfErr, OnOk, OnErr};
ghost use Rattle.std.specs.Io.KnownBytes.{Appends};
ghost use Rattle.access_rules.specs.Deciding.{number};
ghost use Rattle.agent_parts.specs.Statuses.{IsRefused, input_told, reload_text, sweep_text};
ghost use Rattle.directory_judge.specs.History.{now};
ghost use Rattle.directory_runs.specs.Changes.{reload_at, sweep_at};
ghost use Rattle.published_view.specs.Changes.{written_at};
ghost use Rattle.published_view.specs.declared.fault.ViewFault.{ViewFault};

use crate::fault::{ReloadFault, refused_rules, unread_rules};
use crate::sweeping::wait_for_loops;
use crate::threads::Task;
use access_rules::Rules;
use agent_watch::{Act, End, Input, Word, hear};
use arrayvec::ArrayVec;
use loop_log::Log;
use published_view::{DirectoryWriter, Gate, Naming, ViewFault};
use rule_files::RuleFault;
use site_opening::rules_at;
use site_reports::print_rules;
use slp_sockets::{LoopFault, Moments, WallClock};
use slp_text::Text;
use std::alloc::Global;
use std::fs;
use std::io::{self, Write};
use std::rt::Files;
use std::sync::atomic::{AtomicBool, Ordering};
use std::sync::{Mutex, Wait};
use std::time::Clock;

/// No text of a reload is longer.
const LONGEST_TEXT: usize = 64;

/// What acts on words: the writer and the gate, which it shares with the loops, the output, the rule file and the clock. Contracts see the output.
#[derive(Drop)]
pub struct Console<'r, 's, J: Naming, R: Files + Wait + Clock, G: Gate, L: Log + Drop> {
    pub rt: &'r R,
    pub alloc: Global,
    pub writer: &'s Mutex<DirectoryWriter<J, &'r R>>,
    pub gate: &'s G,
    pub output: L,
    pub rules: Option<&'s Text>,
    /// The rule file, which is closed for a reload: so there is a descriptor for it where streams have taken the others.
    pub spare: Option<R::File>,
    pub clock: WallClock<'r, R>,
}

// Prints what came of a reload: how many rules decide from now on, or why the old ones stay.
fn print_reload<W: Write>(told: Result<usize, ReloadFault>, writer: &mut W) -> io::Result<()>
    ensures { OnOk result (Appends (W.contents writer.old) (W.contents writer.new) (reload_text told)) }
{
    match told {
        Ok(number) => print_rules(Ok(number), writer),
        Err(ReloadFault::Rules(fault)) => print_rules(Err(fault), writer),
        Err(ReloadFault::Shut) => print_rules(Err(RuleFault::NoMemory), writer),
        Err(ReloadFault::File) => writer.write_all(b"! file\n"),
    }
}

// What is printed of a sweep.
fn sweep_line(told: Result<(), ViewFault>) -> &'static str
    ensures { result.now ≡ sweep_text told }
{
    match told {
        Ok(()) => "# sweep\n",
        Err(_) => "! memory\n",
    }
}

// What the agent is told of the end of words: an input that fails is its fault.
fn heard(end: End) -> Result<(), LoopFault>
    ensures { result ≡ input_told end }
{
    match end {
        End::Well => Ok(()),
        End::Badly => Err(LoopFault::Io),
    }
}

// Whether what stands at a path is to be opened: a regular file, or what can't be looked at, so that opening it tells why. Of a pipe that nobody writes to the opening would not end.
fn may_open<R: Files>(rt: &R, path: &Text) -> bool {
    match fs::metadata(rt, path.as_str()) {
        Ok(metadata) => metadata.is_file(),
        Err(_) => true,
    }
}

/// A rule file, opened and unread, where there is one.
pub fn opened<R: Files>(rt: &R, path: Option<&Text>) -> Option<R::File> {
    let path = path?;
    if !may_open(rt, path) {
        return None;
    }
    fs::open(rt, path.as_str()).ok()
}

// The rules of a file, where one is named.
fn rules_of<R: Files>(rt: &R, alloc: Global, path: Option<&Text>) -> Result<Rules, ReloadFault> {
    if let Some(path) = path
        && !may_open(rt, path)
    {
        return Err(ReloadFault::File);
    }
    match rules_at(rt, alloc, path) {
        Ok(rules) => Ok(rules),
        Err(fault) => Err(unread_rules(fault)),
    }
}

// Lets these rules decide from now on, and answers how many there are.
fn put_rules<J: Naming, Q: Wait + Drop>(
    writer: &mut DirectoryWriter<J, Q>,
    alloc: Global,
    moment: u32,
    rules: Rules,
) -> Result<usize, ReloadFault>
    ensures put { IfOk result (λ count. (count ≡ number rules) × (writer.new ≡ written_at writer.old (reload_at (now writer.old.history moment) rules ∷ writer.old.history) None)) }
    ensures kept { OnErr result (writer.new.history ≡ writer.old.history) }
    ensures refused { IfErr result IsRefused }
{
    let number = rules.len();
    match writer.reload(alloc, moment, rules) {
        Ok(()) => Ok(number),
        Err(fault) => Err(refused_rules(fault)),
    }
}

// Drops what has expired, and answers what is printed of it.
fn sweep_and_tell<J: Naming, Q: Wait + Drop>(
    writer: &mut DirectoryWriter<J, Q>,
    moment: u32,
) -> &'static str
    ensures { (told : Result (Unit {0}) ViewFault) × (result.now ≡ sweep_text told)
        × OnOk told (writer.new ≡ written_at writer.old (sweep_at (now writer.old.history moment) ∷ writer.old.history) None) × OnErr told (writer.new.history ≡ writer.old.history) }
{
    sweep_line(writer.sweep(moment))
}

impl<'r, 's, J, R, G, L> Console<'r, 's, J, R, G, L>
where
    J: Naming,
    R: Files + Wait + Clock,
    G: Gate,
    L: Log + Drop,
{
    // Lets these rules decide from now on, and answers how many there are.
    fn put(&mut self, rules: Rules) -> Result<usize, ReloadFault>
        ensures output { self.new.output ≡ self.old.output }
        ensures refused { IfErr result IsRefused }
    {
        wait_for_loops(self.rt, self.gate);
        let moment = self.clock.now();
        let mut writer = self.writer.lock(self.rt);
        self.gate.changing();
        let told = put_rules(&mut *writer, self.alloc, moment, rules);
        self.gate.changed();
        told
    }

    // Reads the rule file again. Its rules decide from then on, unless they are refused.
    fn read_rules(&mut self) -> Result<usize, ReloadFault>
        ensures { self.new.output ≡ self.old.output }
    {
        self.spare = None;
        let told = rules_of(self.rt, self.alloc, self.rules);
        self.spare = opened(self.rt, self.rules);
        self.put(told?)
    }

    // Prints what came of a reload.
    fn tell(&mut self, told: Result<usize, ReloadFault>)
        ensures { (self.new.output ≡ self.old.output) ⊎ L.writes self.old.output (reload_text told) self.new.output }
    {
        let mut text = ArrayVec::<u8, LONGEST_TEXT>::new();
        if print_reload(told, &mut text).is_ok() {
            self.output.write(text.as_slice());
        }
    }

    // Drops what has expired, and answers what is printed of it.
    fn sweep(&mut self) -> &'static str
        ensures { (self.new.output ≡ self.old.output) × ((told : Result (Unit {0}) ViewFault) × (result.now ≡ sweep_text told)) }
    {
        wait_for_loops(self.rt, self.gate);
        let moment = self.clock.now();
        let mut writer = self.writer.lock(self.rt);
        self.gate.changing();
        let line = sweep_and_tell(&mut *writer, moment);
        self.gate.changed();
        line
    }
}

impl<'r, 's, J, R, G, L> Act for Console<'r, 's, J, R, G, L>
where
    J: Naming,
    R: Files + Wait + Clock,
    G: Gate,
    L: Log + Drop,
{
    ghost use Rattle.std.specs.Prelude.{◌≡◌};
    ghost use Rattle.agent_parts.specs.Consoles.{Prints, goes_on};

    ghost acts = { λ before word told after. (told ≡ goes_on word) × Prints L.writes word before.output after.output };

    fn act(&mut self, word: Word) -> bool {
        match word {
            Word::Reload => {
                let told = self.read_rules();
                self.tell(told);
                true
            }
            Word::Sweep => {
                let line = self.sweep();
                self.output.write(line.as_bytes());
                true
            }
            Word::Unknown => {
                self.output.write(b"! command\n");
                true
            }
            Word::Stop => false,
        }
    }
}

/// A console and the input of its words.
#[derive(Drop)]
pub struct Operator<
    'r,
    's,
    J: Naming,
    R: Files + Wait + Clock,
    G: Gate,
    L: Log + Drop,
    I: Input + Drop,
> {
    pub console: Console<'r, 's, J, R, G, L>,
    pub input: I,
}

impl<'r, 's, J, R, G, L, I> Task for Operator<'r, 's, J, R, G, L, I>
where
    J: Naming,
    R: Files + Wait + Clock,
    G: Gate,
    L: Log + Drop,
    I: Input + Drop,
{
    // Says that the agent is ready, acts on each line until one is `stop` or the input ends or fails, and sets the flag.
    fn run(&mut self, stop: &AtomicBool) -> Result<(), LoopFault> {
        self.console.output.write(b"ready\n");
        let end = hear(self.console.rt, &mut self.input, &mut self.console);
        stop.store(true, Ordering::SeqCst);
        heard(end)
    }
}
