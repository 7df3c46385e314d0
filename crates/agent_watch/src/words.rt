//! The words of an operator: what a line asks for, and how lines are taken from an input.
ghost use Rattle.std.specs.Prelude.{◌≡◌, ◌≤◌, ◌++◌, ◌∷◌, [], List, length, IfOk};
ghost use Rattle.agent_watch.specs.Words.{Gives, Hears, Reading, Takes, TakesByte, TakesLast, kept, piece_in, piece_of, reading, word_in};

use std::io::{self, ErrorKind, Read};
use std::marker::Model;
use std::sync::{Mutex, Wait};
use std::thread;
use std::time::{Clock, Duration};

/// The bytes of a line that are kept: more than any word has.
const LONGEST_WORD: usize = 16;

/// The bytes that one read asks for.
const CHUNK: usize = 256;

/// How many milliseconds pass before an input is read again that has nothing now.
const PAUSE: u64 = 200;

/// What a line asks for.
#[derive(Clone, Copy, Debug, PartialEq, Eq)]
pub enum Word {
    Reload,
    Sweep,
    Stop,
    Unknown,
}

/// How words ended.
#[derive(Clone, Copy, Debug, PartialEq, Eq)]
pub enum End {
    /// One was the last, or no more come.
    Well,
    /// The input failed.
    Badly,
}

/// What acts on words. Each implementation says by `acts` what may come of one.
pub trait Act {
    ghost use Rattle.agent_watch.specs.Words.{Acts};

    // Holds of the actor before, the word, whether words are taken still, and the actor after.
    ghost acts: { Acts Self };

    /// Does what a word asks for, and answers whether it is not the last.
    fn act(&mut self, word: Word) -> bool
        ensures { acts self.old word result self.new };
}

/// What brings the bytes of lines. Each implementation says by `gives` what one reading may bring.
pub trait Input {
    ghost use Rattle.agent_watch.specs.Words.{Inputs};

    // Holds of the input before, what it brings, and the input after.
    ghost gives: { Inputs Self };

    /// Waits for bytes, and answers how many came: none at the end.
    fn read(&mut self, chunk: &mut [u8]) -> io::Result<usize>
        ensures within { IfOk result (λ count. count ≤ length chunk.new) }
        ensures given { gives self.old (reading result chunk.new) self.new };

    /// Waits a little, where it did not wait for bytes since somebody made it one that does not.
    fn pause(&mut self)
        ensures { self.new ≡ self.old };
}

/// An input that is locked for each reading.
#[derive(Drop)]
pub struct SharedInput<'r, 's, R: Wait + Clock, I: Read> {
    pub rt: &'r R,
    pub input: &'s Mutex<I>,
}

impl<'r, 's, R: Wait + Clock, I: Read> Input for SharedInput<'r, 's, R, I> {
    ghost use Rattle.std.specs.Prelude.{⊤};

    // No clause follows what lies under a lock.
    ghost gives = { λ before reading after. ⊤ };

    fn read(&mut self, chunk: &mut [u8]) -> io::Result<usize> {
        self.input.lock(self.rt).read(chunk)
    }

    fn pause(&mut self) {
        thread::sleep(self.rt, Duration::from_millis(PAUSE));
    }
}

/// A line that is begun. Of a long one only the front is kept. Contracts see the bytes that are kept.
#[derive(Drop)]
struct Line {
    bytes: [u8; LONGEST_WORD],
    length: usize,
}

impl Model for Line {
    ghost use Rattle.std.specs.Prelude.{◌≤◌, ℕ, List, take};

    ghost Value = { List ℕ };

    ghost view = { λ l. take l.length l.bytes };

    ghost invariant = { λ l. l.length ≤ 16 };
}

impl Line {
    fn new() -> Line
        ensures { result ≡ [] }
    {
        Line {
            bytes: [0; LONGEST_WORD],
            length: 0,
        }
    }

    fn push(&mut self, byte: u8)
        ensures { self.new ≡ kept (self.old ++ byte ∷ []) }
    {
        if self.length < LONGEST_WORD {
            self.bytes[self.length] = byte;
            self.length += 1;
        }
    }

    fn clear(&mut self)
        ensures { self.new ≡ [] }
    {
        self.length = 0;
    }

    fn as_slice(&self) -> &[u8]
        ensures { result.now ≡ self.now }
    {
        &self.bytes[..self.length]
    }
}

// What a line asks for.
fn word_of(line: &[u8]) -> Word
    ensures { result ≡ word_in line.now }
{
    if line == b"reload".as_slice() {
        Word::Reload
    } else if line == b"sweep".as_slice() {
        Word::Sweep
    } else if line == b"stop".as_slice() {
        Word::Stop
    } else {
        Word::Unknown
    }
}

// Acts on a line that has ended.
fn end_line<A: Act>(actor: &mut A, line: &mut Line) -> bool
    ensures acted { A.acts actor.old (word_in line.old) result actor.new }
    ensures cleared { line.new ≡ [] }
{
    let word = word_of(line.as_slice());
    line.clear();
    actor.act(word)
}

// Takes one byte, and answers whether words are taken still.
fn take_byte<A: Act>(actor: &mut A, line: &mut Line, byte: u8) -> bool
    ensures { TakesByte A.acts actor.old line.old byte result line.new actor.new }
{
    if byte == b'\n' {
        end_line(actor, line)
    } else {
        line.push(byte);
        true
    }
}

// Takes bytes that were read, and answers whether words are taken still.
fn take_bytes<A: Act>(actor: &mut A, line: &mut Line, piece: &[u8]) -> bool
    ensures { Takes A.acts actor.old line.old piece.now result line.new actor.new }
{
    for byte in piece {
        if !take_byte(actor, line, *byte) {
            return false;
        }
    }
    true
}

// Acts on the last line, where one is begun.
fn take_last<A: Act>(actor: &mut A, line: &[u8])
    ensures { TakesLast A.acts actor.old line.now actor.new }
{
    if !line.is_empty() {
        actor.act(word_of(line));
    }
}

// Takes the next bytes of an input, and answers how many came: none where it was interrupted or had nothing, and how it ended where it is over.
fn next_piece<I: Input>(input: &mut I, chunk: &mut [u8]) -> Result<usize, End>
    ensures within { IfOk result (λ count. count ≤ length chunk.new) }
    ensures given { (r : Reading) × I.gives input.old r input.new × (piece_of r ≡ piece_in chunk.new result) }
{
    match input.read(chunk) {
        Ok(0) => Err(End::Well),
        Ok(count) => Ok(count),
        Err(e) => match e.kind() {
            ErrorKind::Interrupted => Ok(0),
            ErrorKind::WouldBlock => {
                input.pause();
                Ok(0)
            }
            _ => Err(End::Badly),
        },
    }
}

/// Acts on each line until one is the last, or the input ends or fails, and answers how it ended; a line without its end is one, too.
pub fn hear<R: Wait, I: Input, A: Act>(rt: &R, input: &mut I, actor: &mut A) -> End
    ensures { (rs : List Reading) × Gives I.gives input.old rs input.new × Hears A.acts actor.old [] rs result actor.new }
{
    let mut line = Line::new();
    let mut chunk = [0; CHUNK];
    for _ in rt.forever() {
        match next_piece(input, &mut chunk) {
            Ok(count) => {
                if !take_bytes(actor, &mut line, &chunk[..count]) {
                    return End::Well;
                }
            }
            Err(end) => {
                take_last(actor, line.as_slice());
                return end;
            }
        }
    }
    unreachable!()
}
