ghost use Rattle.std.specs.Prelude.{◌≡◌, ◌↔◌, ◌++◌, List, [], ◌∷◌, filter, map, IfOk, IfErr, IsTrue};
ghost use Rattle.std.specs.Option.{option_map_or};
ghost use Rattle.std.specs.Result.{result_ok};
ghost use Rattle.ucd_case.specs.CaseFolding as case_folding;
ghost use Rattle.slp_tags.specs.Parts.{sign_step, folded_sign, part_with};
ghost use Rattle.slp_text.specs.Reading.{read_map, IsFault, IsReading};
ghost use Rattle.slp_text.specs.Lists.{is_some_text};
ghost use Rattle.slp_text.specs.Steps.{part_end};
ghost use Rattle.slp_tags.specs.Tags as spec;
ghost use Rattle.slp_tags.specs.Tags.{Sign, sign_bytes, tags_of};
ghost use Rattle.slp_text.specs.declared.escapes.Place.TheVariants.{Tag};
ghost use Rattle.slp_text.specs.declared.escapes.Stage.TheVariants.{Plain};

use crate::tag_index::TagIndex;
use slp_text::{
    Key, NoMemory, Place, Stage, Step, TextFault, is_refused, is_white_space, read_step,
};
use std::alloc::Global;
use std::marker::Model;
use ucd_case::full_folding;

/// A list of tags with `*` for any run of characters (RFC 2608, section 10.3), which contracts see as
/// the list of its parts: the bytes of each, and `None` for each `*`.
pub struct TagList {
    parts: Vec<Vec<Option<u8>>>,
    index: TagIndex,
}

impl Drop for TagList {
    fn drop(self) {
        let TagList { parts: _, index: _ } = self;
    }
}

impl Model for TagList {
    ghost use Rattle.std.specs.Prelude.{List, map};
    ghost use Rattle.slp_tags.specs.TagIndexes.{IsIndex};
    ghost use Rattle.slp_tags.specs.Tags.{Part};

    ghost Value = { List Part };

    ghost view = { λ t. map (λ p. p.items) t.parts.items };

    ghost invariant = { λ t. IsIndex t.index (map (λ p. p.items) t.parts.items) };
}

// Reads one character more of a list of tags, where a raw `*` is `None`.
fn read_sign(stage: Stage, c: char) -> Result<Step<Option<char>>, TextFault>
    ensures { result ≡ sign_step stage c }
{
    if c == '*' {
        return match stage {
            Stage::Plain => Ok(Step::Read(None)),
            _ => Err(TextFault::BadEscape),
        };
    }
    match read_step(stage, c, is_refused(Place::Tag, c))? {
        Step::Within(next) => Ok(Step::Within(next)),
        Step::Read(d) => Ok(Step::Read(Some(d))),
    }
}

fn is_white_sign(sign: Option<char>) -> bool
    ensures { result ≡ spec.is_white_sign sign }
{
    match sign {
        Some(c) => is_white_space(c),
        None => false,
    }
}

// What a sign folds to, which is empty where that is itself.
fn folding_of(sign: Option<char>) -> &'static [char]
    ensures { result.now ≡ option_map_or case_folding.full_folding sign [] }
{
    match sign {
        Some(c) => full_folding(c),
        None => &[],
    }
}

// Appends the bytes of a character.
fn push_character(c: char, part: &mut Vec<Option<u8>>) -> Result<(), NoMemory>
    ensures { IfOk result (λ _. part.new.items ≡ part.old.items ++ sign_bytes (Some c)) }
{
    let mut buffer = [0; 4];
    for b in c.encode_utf8(&mut buffer).as_bytes() {
        part.push(Some(*b))?;
    }
    Ok(())
}

// Appends what a sign stands for.
fn push_sign(sign: Option<char>, part: &mut Vec<Option<u8>>) -> Result<(), NoMemory>
    ensures { IfOk result (λ _. part.new.items ≡ part.old.items ++ sign_bytes sign) }
{
    match sign {
        Some(c) => push_character(c, part)?,
        None => part.push(None)?,
    }
    Ok(())
}

// Appends a folded sign, after a space if white space came since the last one. White space itself is
// put off; whether it was is answered.
fn add_sign(sign: Option<char>, gap: bool, part: &mut Vec<Option<u8>>) -> Result<bool, NoMemory>
    ensures { IfOk result (λ now. (rest : List Sign) → part_with now part.new.items rest ≡ part_with gap part.old.items (sign ∷ rest)) }
{
    if is_white_sign(sign) {
        return Ok(true);
    }
    if gap && !part.is_empty() {
        part.push(Some(b' '))?;
    }
    push_sign(sign, part)?;
    Ok(false)
}

// The same of what a sign folds to.
fn add_folded(sign: Option<char>, gap: bool, part: &mut Vec<Option<u8>>) -> Result<bool, NoMemory>
    ensures { IfOk result (λ now. (rest : List Sign) → part_with now part.new.items rest ≡ part_with gap part.old.items (folded_sign sign ++ rest)) }
{
    let folding = folding_of(sign);
    if folding.is_empty() {
        return add_sign(sign, gap, part);
    }
    let mut gap = gap;
    for c in folding {
        gap = add_sign(Some(*c), gap, part)?;
    }
    Ok(gap)
}

// Adds a part at whose end reading stands at a stage, unless it is empty.
fn end_part(
    stage: Stage,
    part: Vec<Option<u8>>,
    parts: &mut Vec<Vec<Option<u8>>>,
) -> Result<(), TextFault>
    ensures ok { IfOk result (λ _. (stage ≡ Plain) × (map (λ p. p.items) parts.new.items ≡ map (λ p. p.items) parts.old.items ++ filter is_some_text (part.items ∷ []))) }
    ensures err { IfErr result (λ e. IsFault e (part_end Tag stage)) }
{
    if !matches!(stage, Stage::Plain) {
        return Err(TextFault::BadEscape);
    }
    if !part.is_empty() {
        parts.push(part)?;
    }
    Ok(())
}

// The parts of a text between its commas, without the empty ones.
fn parts_of(alloc: Global, text: &str) -> Result<Vec<Vec<Option<u8>>>, TextFault>
    ensures { IsReading (read_map (λ v. map (λ p. p.items) v.items) result) (tags_of text.now) }
{
    let mut parts = Vec::new(alloc);
    let mut part = Vec::new(alloc);
    let mut gap = false;
    let mut stage = Stage::Plain;
    for c in text.chars() {
        if c == ',' {
            end_part(stage, part, &mut parts)?;
            part = Vec::new(alloc);
            gap = false;
            stage = Stage::Plain;
        } else {
            match read_sign(stage, c)? {
                Step::Within(next) => stage = next,
                Step::Read(sign) => {
                    gap = add_folded(sign, gap, &mut part)?;
                    stage = Stage::Plain;
                }
            }
        }
    }
    end_part(stage, part, &mut parts)?;
    Ok(parts)
}

// Equal parts, in the same order.
fn copied(alloc: Global, parts: &[Vec<Option<u8>>]) -> Result<Vec<Vec<Option<u8>>>, NoMemory>
    ensures { IfOk result (λ v. map (λ p. p.items) v.items ≡ map (λ p. p.items) parts.now) }
{
    let mut made = Vec::with_capacity(alloc, parts.len())?;
    for part in parts {
        made.push(part.as_slice().to_vec(alloc)?)?;
    }
    Ok(made)
}

impl TagList {
    /// The parts that a text names: what stands between its commas, unescaped, folded and with its
    /// white space squeezed, without the empty ones. A raw `*` stands for any run of characters; what
    /// else is reserved in tags and stands raw is `Reserved`. It goes through the text once.
    pub fn parse(alloc: Global, text: &str) -> Result<TagList, TextFault>
        ensures { IsReading result (tags_of text.now) }
    {
        let parts = parts_of(alloc, text)?;
        let index = TagIndex::of(alloc, &parts)?;
        Ok(TagList { parts, index })
    }

    /// The same, or `None` where a text is no list of tags.
    pub fn read(alloc: Global, text: &str) -> Result<Option<TagList>, NoMemory>
        ensures { IfOk result (λ t. t ≡ result_ok (tags_of text.now)) }
    {
        match TagList::parse(alloc, text) {
            Ok(tags) => Ok(Some(tags)),
            Err(TextFault::NoMemory) => Err(NoMemory),
            Err(_) => Ok(None),
        }
    }

    /// Whether a part matches the tag, or there is no part. It takes no memory: the tag is looked up
    /// among the parts without a `*`, and each of the others takes time for its length and the tag's.
    pub fn selects(&self, tag: &Key) -> bool
        ensures { result ≡ spec.selects self.now tag.now }
    {
        self.is_empty() || self.index.has(tag.as_str().as_bytes())
    }

    /// Whether there is no part. Takes no memory.
    pub fn is_empty(&self) -> bool
        ensures { IsTrue result ↔ (self.now ≡ []) }
    {
        self.parts.is_empty()
    }

    /// An equal list.
    pub fn copy(&self, alloc: Global) -> Result<TagList, NoMemory>
        ensures { IfOk result (λ l. l ≡ self.now) }
    {
        let parts = copied(alloc, &self.parts)?;
        let index = TagIndex::of(alloc, &parts)?;
        Ok(TagList { parts, index })
    }
}
