//! What is said of a file: where something is wrong, and what.
ghost use Rattle.std.specs.Prelude.{◌≡◌, ◌≤◌, ◌++◌, count_by, length, OnOk};
ghost use Rattle.std.specs.Io.KnownBytes.{Appends};
ghost use Rattle.site_check.specs.Lines.{is_line_feed, line_of_place, place_in, place_text, problem_in, problem_line, problem_text, warning_in, warning_line, warning_text};
ghost use Rattle.shown_text.specs.Shown.{shown};

use shown_text::print_text;
use std::fmt;
use std::io::{self, Write};

/// The bytes of the longest configuration, rule file or template.
pub(crate) const LONGEST_TEXT: usize = 1_048_576;

/// A rule or a hide table of a file, by its number from 1. The hide tables come after the rules.
#[derive(Clone, Copy)]
pub(crate) enum Numbered {
    Rule(usize),
    Hide(usize),
}

impl fmt::Display for Numbered {
    ghost use Rattle.std.specs.Prelude.{Some};
    ghost use Rattle.site_check.specs.Lines.{numbered_text};

    ghost output = { λ n. Some (numbered_text n) };

    fn fmt<W: fmt::Write>(&self, f: &mut fmt::Formatter<W>) -> fmt::Result {
        match *self {
            Numbered::Rule(number) => write!(f, "rule {number}"),
            Numbered::Hide(number) => write!(f, "hide table {number}"),
        }
    }
}

/// Where something is wrong: in a file, at one of its lines, or at a rule or a hide table of it, which may have a name.
#[derive(Clone, Copy)]
pub(crate) enum Place<'a> {
    File(&'a str),
    Line(&'a str, usize),
    Numbered(&'a str, Numbered, Option<&'a str>),
}

// Writes where something is wrong. Texts of the site are shown: so each line stays one.
fn print_place<W: Write>(place: Place<'_>, writer: &mut W) -> io::Result<()>
    ensures { OnOk result (Appends (W.contents writer.old) (W.contents writer.new) (place_text (place_in place.entry))) }
{
    match place {
        Place::File(file) => print_text(file, writer),
        Place::Line(file, line) => {
            print_text(file, writer)?;
            write!(writer, ":{line}")
        }
        Place::Numbered(file, numbered, None) => {
            print_text(file, writer)?;
            write!(writer, ": {numbered}")
        }
        Place::Numbered(file, numbered, Some(name)) => {
            print_text(file, writer)?;
            write!(writer, ": {numbered} (")?;
            print_text(name, writer)?;
            write!(writer, ")")
        }
    }
}

/// A file by its path, and its text.
#[derive(Clone, Copy)]
pub(crate) struct FileText<'a> {
    pub path: &'a str,
    pub text: &'a str,
}

/// What is wrong.
#[derive(Clone, Copy)]
pub(crate) enum Problem<'a> {
    TooLong,
    NotToml(&'a str),
    UnknownKey(&'a str),
    EarlyKey(&'a str),
    EarlyHides,
    Missing(&'a str),
    /// A key, and what its value is not.
    Value(&'a str, &'a str),
    /// An element by its number, of a key, and what it is not.
    Element(usize, &'a str, &'a str),
    /// An element that is there before: its number, the key, and the number of that one.
    Again(usize, &'a str, usize),
    TooManyRules,
    TooManyTogether,
    NotTable,
    SameName(Numbered),
    Template(&'a str),
    SameType,
}

// Writes what is wrong.
fn print_problem<W: Write>(problem: Problem<'_>, writer: &mut W) -> io::Result<()>
    ensures { OnOk result (Appends (W.contents writer.old) (W.contents writer.new) (problem_text (problem_in problem.entry))) }
{
    match problem {
        Problem::TooLong => write!(writer, "longer than 1048576 bytes"),
        Problem::NotToml(message) => {
            write!(writer, "not TOML: ")?;
            print_text(message, writer)
        }
        Problem::UnknownKey(key) => {
            write!(writer, "unknown key ")?;
            print_text(key, writer)
        }
        Problem::EarlyKey(key) => write!(writer, "{key} needs version 2"),
        Problem::EarlyHides => write!(writer, "hide tables need version 3"),
        Problem::Missing(key) => write!(writer, "{key} is missing"),
        Problem::Value(key, refusal) => write!(writer, "{key} is {refusal}"),
        Problem::Element(number, key, refusal) => {
            write!(writer, "element {number} of {key} is {refusal}")
        }
        Problem::Again(number, key, other) => {
            write!(writer, "element {number} of {key} is element {other} again")
        }
        Problem::TooManyRules => write!(writer, "more than 1024 rules"),
        Problem::TooManyTogether => write!(writer, "more than 1024 rules and hide tables"),
        Problem::NotTable => write!(writer, "not a table"),
        Problem::SameName(other) => write!(writer, "{other} has this name, too"),
        Problem::Template(refusal) => write!(writer, "{refusal}"),
        Problem::SameType => write!(writer, "an earlier template is of its type, too"),
    }
}

/// What is lawful, and surely not meant.
#[derive(Clone, Copy)]
pub(crate) enum Warning<'a> {
    NoRuleFile,
    NoRules,
    /// The number and the name of the rule that hides it.
    Hidden(usize, &'a str),
    NoScope(&'a str),
    NoType(&'a str),
    /// A type that does not begin with `service:`.
    NoService(&'a str),
    NoSight,
    /// An element of `from`, by its number, with bits that do not count.
    MoreBits(usize),
    /// A type that rules about every type alone let be registered.
    AnyType(&'a str),
    /// A tag whose definition refuses its own default values.
    RefusedDefault(&'a str),
    /// An element of `listen`, by its number, that is every address.
    AnyAddress(usize),
    /// One that is not of one machine.
    NoMachine(usize),
    /// How many descriptors there may be, and how many can be needed.
    FewDescriptors(u32, usize),
}

// Writes words, and a name as it is shown.
fn print_named<W: Write>(words: &str, named: &str, writer: &mut W) -> io::Result<()>
    ensures { OnOk result (Appends (W.contents writer.old) (W.contents writer.new) (words.now ++ shown named.now)) }
{
    writer.write_all(words.as_bytes())?;
    print_text(named, writer)
}

// Writes what is surely not meant.
fn print_warning<W: Write>(warning: Warning<'_>, writer: &mut W) -> io::Result<()>
    ensures { OnOk result (Appends (W.contents writer.old) (W.contents writer.new) (warning_text (warning_in warning.entry))) }
{
    match warning {
        Warning::NoRuleFile => write!(writer, "no rule file is named, so all is denied"),
        Warning::NoRules => write!(writer, "there are no rules, so all is denied"),
        Warning::Hidden(number, name) => {
            write!(writer, "it never decides, since rule {number} (")?;
            print_text(name, writer)?;
            write!(writer, ") fits whatever it fits")
        }
        Warning::NoScope(scope) => print_named("the site has no scope ", scope, writer),
        Warning::NoType(kind) => print_named("no rule lets anyone register ", kind, writer),
        Warning::NoService(kind) => {
            print_named("it is about URLs that begin with ", kind, writer)?;
            write!(writer, ": and about no type that begins with service:")
        }
        Warning::NoSight => write!(writer, "no rule lets anyone see anything"),
        Warning::MoreBits(number) => write!(
            writer,
            "element {number} of from has bits behind its prefix, which do not count"
        ),
        Warning::AnyType(kind) => {
            print_named("only rules of type * let anyone register ", kind, writer)
        }
        Warning::RefusedDefault(tag) => {
            print_named("its own definition refuses the default of ", tag, writer)
        }
        Warning::AnyAddress(number) => write!(
            writer,
            "element {number} of listen is 0.0.0.0, which is told to clients as the address of the directory"
        ),
        Warning::NoMachine(number) => {
            write!(
                writer,
                "element {number} of listen is no address of one machine"
            )
        }
        Warning::FewDescriptors(most, need) => write!(
            writer,
            "a process may have {most} descriptors here, and slpda can need {need}"
        ),
    }
}

/// Writes what is wrong at a place.
pub(crate) fn report<W: Write>(
    place: Place<'_>,
    problem: Problem<'_>,
    writer: &mut W,
) -> io::Result<()>
    ensures { OnOk result (Appends (W.contents writer.old) (W.contents writer.new) (problem_line (place_in place.entry) (problem_in problem.entry))) }
{
    print_place(place, writer)?;
    write!(writer, ": ")?;
    print_problem(problem, writer)?;
    writeln!(writer)
}

/// Writes what is surely not meant at a place.
pub(crate) fn warn<W: Write>(
    place: Place<'_>,
    warning: Warning<'_>,
    writer: &mut W,
) -> io::Result<()>
    ensures { OnOk result (Appends (W.contents writer.old) (W.contents writer.new) (warning_line (place_in place.entry) (warning_in warning.entry))) }
{
    print_place(place, writer)?;
    write!(writer, ": warning: ")?;
    print_warning(warning, writer)?;
    writeln!(writer)
}

// How many line feeds there are.
fn line_feeds(bytes: &[u8]) -> usize
    ensures value { result ≡ count_by is_line_feed bytes.now }
    ensures few { result ≤ length bytes.now }
{
    let mut feeds = 0;
    for byte in bytes {
        if *byte == b'\n' {
            feeds += 1;
        }
    }
    feeds
}

/// The number of the line in which a byte of a text stands, from 1.
pub(crate) fn line_at(text: &str, place: usize) -> usize
    ensures { result ≡ line_of_place text.now place }
{
    let end = place.min(text.len());
    line_feeds(&text.as_bytes()[..end]) + 1
}
