ghost use Rattle.std.specs.Prelude.{◌≡◌, ◌≢◌, ◌<◌, true, false, ◌++◌, IfOk, IfErr, OnErr, chars, string_bytes, encode_utf8_all};
ghost use Rattle.slp_text.specs.Escapes as spec;
ghost use Rattle.slp_text.specs.Escapes.{digit_of, written_character, unescaped_text, unescaped_text_at, unescaped_text_from, unescaped_bytes, escaped_text};
ghost use Rattle.slp_text.specs.Reading.{read_map, IsReading, IsByteReading};
ghost use Rattle.slp_text.specs.declared.escapes.Stage.TheVariants.{Plain};
ghost use Rattle.slp_text.specs.declared.faults.TextFault.TheVariants.{NotUtf8};
ghost use Rattle.slp_text.specs.Steps as raw;
ghost use Rattle.slp_text.specs.Steps.{IsStage, IsWithinStage, BeginsWith, escape_with, step_of};

use crate::faults::{NoMemory, TextFault};
use crate::folding::is_white_space;
use std::alloc::Global;

/// Where a text is written, which says what is reserved in it (RFC 2608, sections 5 and 6.4.1).
#[derive(Clone, Copy, Debug, PartialEq, Eq)]
pub enum Place {
    /// `(` `)` `,` `\` `!` `<` `=` `>` `~` and control characters.
    Value,
    /// Those, `*` and `_`.
    Tag,
    /// Those of values, `;`, `*` and `+`.
    Scope,
}

/// Where reading stands: at something of its own, after a backslash, or after that and a digit.
#[derive(Clone, Copy, Debug, PartialEq, Eq)]
pub enum Stage {
    Plain,
    Slash,
    Digit(u8),
}

/// What a character or a byte gives: itself or what its escape stands for, or a stage of an escape.
#[derive(Clone, Copy, Debug)]
pub enum Step<T> {
    Within(Stage),
    Read(T),
}

/// Whether a character is written as an escape at a place.
pub fn is_reserved(place: Place, c: char) -> bool
    ensures { result ≡ spec.is_reserved place c }
{
    let everywhere = c < ' '
        || c == '\u{7f}'
        || c == '('
        || c == ')'
        || c == ','
        || c == '\\'
        || c == '!'
        || c == '<'
        || c == '='
        || c == '>'
        || c == '~';
    match place {
        Place::Value => everywhere,
        Place::Tag => everywhere || c == '*' || c == '_',
        Place::Scope => everywhere || c == ';' || c == '*' || c == '+',
    }
}

/// Whether a character may not stand raw at a place.
pub fn is_refused(place: Place, c: char) -> bool
    ensures { result ≡ spec.is_refused place c }
{
    is_reserved(place, c) && !is_white_space(c)
}

fn is_escapable(c: char) -> bool
    ensures { result ≡ spec.is_escapable c }
{
    is_reserved(Place::Value, c) || c == ';' || c == '*' || c == '+' || c == '_'
}

fn digit(c: char) -> Option<u8>
    ensures { result ≡ digit_of c }
{
    match c {
        '0'..='9' => Some((c as u32 - 48) as u8),
        'A'..='F' => Some((c as u32 - 55) as u8),
        'a'..='f' => Some((c as u32 - 87) as u8),
        _ => None,
    }
}

// What an escape of two digits stands for in lists.
fn escape_of(d: u8, e: u8) -> Result<Step<char>, TextFault>
    ensures { result ≡ escape_with spec.is_escapable d e }
{
    match char::from_u32(16 * u32::from(d) + u32::from(e)) {
        Some(c) if is_escapable(c) => Ok(Step::Read(c)),
        _ => Err(TextFault::BadEscape),
    }
}

/// Reads one character more of a text with the escapes of lists, where a raw one may be refused.
pub fn read_step(stage: Stage, c: char, refused: bool) -> Result<Step<char>, TextFault>
    ensures { result ≡ step_of spec.is_escapable refused stage c }
{
    match stage {
        Stage::Plain => {
            if c == '\\' {
                Ok(Step::Within(Stage::Slash))
            } else if refused {
                Err(TextFault::Reserved)
            } else {
                Ok(Step::Read(c))
            }
        }
        Stage::Slash => match digit(c) {
            Some(d) => Ok(Step::Within(Stage::Digit(d))),
            None => Err(TextFault::BadEscape),
        },
        Stage::Digit(d) => match digit(c) {
            Some(e) => escape_of(d, e),
            None => Err(TextFault::BadEscape),
        },
    }
}

// Whether a character may not stand raw, at a place if there is one.
fn is_refused_raw(place: Option<Place>, c: char) -> bool
    ensures { result ≡ raw.is_refused_raw place c }
{
    match place {
        Some(place) => is_refused(place, c),
        None => false,
    }
}

// A text with its list escapes read, where nothing stands raw that may not at a place, if there is one.
fn unescaped(alloc: Global, text: &str, place: Option<Place>) -> Result<String, TextFault>
    ensures { IsReading (read_map string_bytes result) (read_map encode_utf8_all (unescaped_text_from spec.is_escapable (raw.is_refused_raw place) Plain (chars text.now))) }
{
    let mut read = String::new(alloc);
    let mut stage = Stage::Plain;
    for c in text.chars() {
        match read_step(stage, c, is_refused_raw(place, c))? {
            Step::Within(next) => stage = next,
            Step::Read(d) => {
                read.push(d)?;
                stage = Stage::Plain;
            }
        }
    }
    match stage {
        Stage::Plain => Ok(read),
        _ => Err(TextFault::BadEscape),
    }
}

/// A text with its list escapes read: those of reserved characters, in any place. Another escape is
/// `BadEscape`.
pub fn unescape(alloc: Global, text: &str) -> Result<String, TextFault>
    ensures { IsReading (read_map string_bytes result) (read_map encode_utf8_all (unescaped_text (chars text.now))) }
{
    unescaped(alloc, text, None)
}

/// The same, where nothing that is reserved at a place stands raw: the first of that is `Reserved`. The first
/// fault from the left is answered.
pub fn unescape_at(alloc: Global, text: &str, place: Place) -> Result<String, TextFault>
    ensures { IsReading (read_map string_bytes result) (read_map encode_utf8_all (unescaped_text_at place (chars text.now))) }
{
    unescaped(alloc, text, Some(place))
}

// Reads one character more of escapes of any byte; what stands raw is `Reserved`.
fn read_escape(stage: Stage, c: char) -> Result<Step<u8>, TextFault>
    requires { IsStage stage }
    ensures value { result ≡ step_of (λ x. true) true stage c }
    ensures stage { IfOk result (λ s. IsWithinStage s) }
    ensures fault { IfErr result (λ e. e ≢ NotUtf8) }
{
    match stage {
        Stage::Plain => {
            if c == '\\' {
                Ok(Step::Within(Stage::Slash))
            } else {
                Err(TextFault::Reserved)
            }
        }
        Stage::Slash => match digit(c) {
            Some(d) => Ok(Step::Within(Stage::Digit(d))),
            None => Err(TextFault::BadEscape),
        },
        Stage::Digit(d) => match digit(c) {
            Some(e) => Ok(Step::Read(16 * d + e)),
            None => Err(TextFault::BadEscape),
        },
    }
}

// Reads one byte more of a text with escapes of any byte.
fn read_byte(stage: Stage, b: u8) -> Result<Step<u8>, TextFault>
    requires { IsStage stage }
    ensures value { result ≡ step_of (λ x. true) false stage b }
    ensures stage { IfOk result (λ s. IsWithinStage s) }
    ensures fault { IfErr result (λ e. e ≢ NotUtf8) }
{
    match stage {
        Stage::Plain if b != b'\\' => Ok(Step::Read(b)),
        _ => read_escape(stage, char::from(b)),
    }
}

/// The bytes of a text that is nothing but escapes, each of any byte. What stands raw is `Reserved`.
pub fn unescape_all(alloc: Global, text: &str) -> Result<Vec<u8>, TextFault>
    ensures { IsReading (read_map (λ v. v.items) result) (unescaped_text_from (λ b. true) (λ c. true) Plain (chars text.now)) }
{
    let mut read = Vec::new(alloc);
    let mut stage = Stage::Plain;
    for c in text.chars() {
        match read_escape(stage, c)? {
            Step::Within(next) => stage = next,
            Step::Read(b) => {
                read.push(b)?;
                stage = Stage::Plain;
            }
        }
    }
    match stage {
        Stage::Plain => Ok(read),
        _ => Err(TextFault::BadEscape),
    }
}

// The bytes of a text with its escapes of any byte read.
fn unescaped_bytes(alloc: Global, text: &str) -> Result<Vec<u8>, TextFault>
    ensures value { IsReading (read_map (λ v. v.items) result) (unescaped_bytes text.now) }
    ensures fault { IfErr result (λ e. e ≢ NotUtf8) }
{
    let mut read = Vec::new(alloc);
    let mut stage = Stage::Plain;
    for b in text.as_bytes() {
        match read_byte(stage, *b)? {
            Step::Within(next) => stage = next,
            Step::Read(d) => {
                read.push(d)?;
                stage = Stage::Plain;
            }
        }
    }
    match stage {
        Stage::Plain => Ok(read),
        _ => Err(TextFault::BadEscape),
    }
}

/// A text with its escapes of any byte read. What then is not UTF-8 is `NotUtf8`; a bad escape is
/// answered first.
pub fn unescape_any(alloc: Global, text: &str) -> Result<String, TextFault>
    ensures { IsByteReading (read_map string_bytes result) (unescaped_bytes text.now) }
{
    match String::from_utf8(unescaped_bytes(alloc, text)?) {
        Ok(read) => Ok(read),
        Err(_) => Err(TextFault::NotUtf8),
    }
}

/// A digit of an escape, in capitals.
pub fn capital_digit(d: u8) -> char
    requires { d < 16 }
    ensures { result ≡ spec.capital_digit d }
{
    if d < 10 {
        char::from(d + 48)
    } else {
        char::from(d + 55)
    }
}

// Appends a character as it is written at a place.
fn push_written(c: char, place: Place, out: &mut String) -> Result<(), NoMemory>
    ensures ok { IfOk result (λ _. string_bytes out.new ≡ string_bytes out.old ++ encode_utf8_all (written_character place c)) }
    ensures err { BeginsWith (string_bytes out.old) (string_bytes out.new) }
{
    if is_reserved(place, c) {
        let n = c as u32;
        out.push('\\')?;
        out.push(capital_digit((n / 16) as u8))?;
        out.push(capital_digit((n % 16) as u8))?;
    } else {
        out.push(c)?;
    }
    Ok(())
}

// The same of all characters; where memory runs out some of it may stand after what was there.
fn append_escaped(text: &str, place: Place, out: &mut String) -> Result<(), NoMemory>
    ensures ok { IfOk result (λ _. string_bytes out.new ≡ string_bytes out.old ++ encode_utf8_all (escaped_text place (chars text.now))) }
    ensures err { BeginsWith (string_bytes out.old) (string_bytes out.new) }
{
    for c in text.chars() {
        push_written(c, place, out)?;
    }
    Ok(())
}

/// Appends a text as it is written at a place: what is reserved there as an escape, in capitals. Where
/// memory runs out nothing is appended.
pub fn escape_into(text: &str, place: Place, out: &mut String) -> Result<(), NoMemory>
    ensures ok { IfOk result (λ _. string_bytes out.new ≡ string_bytes out.old ++ encode_utf8_all (escaped_text place (chars text.now))) }
    ensures err { OnErr result (string_bytes out.new ≡ string_bytes out.old) }
{
    let before = out.len();
    let done = append_escaped(text, place, out);
    if done.is_err() {
        out.truncate(before);
    }
    done
}
