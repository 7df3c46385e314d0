ghost use Rattle.std.specs.Prelude.{◌≡◌, ◌≤◌, ◌<◌, ◌+◌, ◌^◌, ◌++◌, ◌⊎◌, ℕ, List, length, vec_len, MatchOption, OnOk, IfErr};
ghost use Rattle.slp_script.specs.Commands.{longest_line};
ghost use Rattle.replay_program.specs.Reads.{StandsAfter, Feeds, Ends};
ghost use Rattle.replay_program.specs.declared.fault.RunFault.TheVariants as fault;

use crate::fault::RunFault;
use crate::progress::Progress;
use slp_answer::Answer;
use slp_script::LONGEST_LINE;
use slp_text::cut;
use std::alloc::Global;
use std::io::Write;

// More of the line that is begun.
fn lengthen(line: &mut Vec<u8>, more: &[u8], number: u64) -> Result<(), RunFault>
    requires short { vec_len line.old ≤ longest_line }
    requires room { number + 1 < 2 ^ 64 }
    ensures items { OnOk result (line.new.items ≡ line.old.items ++ more.now) }
    ensures short { OnOk result (length (line.old.items ++ more.now) ≤ longest_line) }
    ensures err { IfErr result (λ e. (e ≡ fault.NoMemory) ⊎ ((e ≡ fault.Line (number + 1)) × (longest_line < length (line.old.items ++ more.now)))) }
{
    if more.len() > LONGEST_LINE - line.len() {
        return Err(RunFault::Line(number + 1));
    }
    line.extend_from_slice(more).map_err(|_| RunFault::NoMemory)
}

/// Takes the next bytes of a script: each line that they end is carried out, and the rest kept.
pub fn feed<W: Write>(
    progress: &mut Progress,
    line: &mut Vec<u8>,
    alloc: Global,
    piece: &[u8],
    answer: &mut Answer,
    writer: &mut W,
) -> Result<(), RunFault>
    requires short { vec_len line.old ≤ longest_line }
    requires room { progress.old.number + length piece.now + 1 < 2 ^ 64 }
    ensures fed { (read out : List ℕ) → StandsAfter read out line.old.items progress.old
        → Feeds (W.contents writer.old) (W.contents writer.new) (read ++ piece.now) out result line.new.items progress.new }
    ensures number { OnOk result (progress.new.number ≤ progress.old.number + length piece.now) }
    ensures short { OnOk result (vec_len line.new ≤ longest_line) }
{
    let mut rest = piece;
    while let Some((front, back)) = cut(rest, b'\n') {
        lengthen(line, front, progress.number)?;
        progress.turn(alloc, line.as_slice(), answer, writer)?;
        line.clear();
        rest = back;
    }
    lengthen(line, rest, progress.number)?;
    Ok(())
}

// A script may not end within a block.
fn ending(progress: &Progress) -> Result<(), RunFault>
    ensures { MatchOption progress.now.block (result ≡ Ok tt) (λ block. result ≡ Err (fault.Line block.begun)) }
{
    match &progress.block {
        Some(block) => Err(RunFault::Line(block.begun)),
        None => Ok(()),
    }
}

/// Takes the end of a script, which ends its last line too. Within a block it is a fault of the line
/// that began it.
pub fn finish<W: Write>(
    progress: &mut Progress,
    line: &[u8],
    alloc: Global,
    answer: &mut Answer,
    writer: &mut W,
) -> Result<(), RunFault>
    requires short { length line.now ≤ longest_line }
    requires room { progress.old.number + 1 < 2 ^ 64 }
    ensures { (read out : List ℕ) → StandsAfter read out line.now progress.old → Ends (W.contents writer.old) (W.contents writer.new) read out result }
{
    if line.is_empty() {
        return ending(progress);
    }
    progress.turn(alloc, line, answer, writer)?;
    ending(progress)
}
