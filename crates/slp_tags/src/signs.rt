ghost use Rattle.std.specs.Prelude.{◌≡◌, ◌≢◌, ◌+◌, ◌<◌, ◌≤◌, ◌∷◌, ◌++◌, [], ℕ, List, length, map, take, drop, true, false, IfOk, IfSome, MatchOption};
ghost use Rattle.std.specs.Char.{to_ascii_lowercase};
ghost use Rattle.std.specs.List.{list_all};
ghost use Rattle.slp_text.specs.Keys.{is_word_byte};
ghost use Rattle.slp_tags.specs.Searches as spec;
ghost use Rattle.slp_tags.specs.Searches.{finds, floating, front, has_front, AreFalls, ArePieceFalls, IsLongestEnd};
ghost use Rattle.slp_tags.specs.SignCodes.{end_code, sign_in, signs_in, AreCodes};
ghost use Rattle.slp_tags.specs.Tags.{is_match};

use slp_text::NoMemory;
use std::alloc::Global;
use std::marker::Model;

/// The codes of a `*` and of the end of signs, which no character has.
const STAR: u32 = u32::MAX;

const END: u32 = u32::MAX - 1;

/// A text with `*` for any run of characters, ready to be searched for, which contracts see as its signs:
/// a character or a byte by its number, and `None` for each `*`.
pub struct Signs {
    codes: Vec<u32>,
    falls: Vec<usize>,
}

impl Drop for Signs {
    fn drop(self) {
        let Signs { codes: _, falls: _ } = self;
    }
}

impl Model for Signs {
    ghost use Rattle.std.specs.Prelude.{◌≡◌, List, length};
    ghost use Rattle.slp_tags.specs.Searches.{ArePieceFalls};
    ghost use Rattle.slp_tags.specs.SignCodes.{signs_in, AreCodes};
    ghost use Rattle.slp_tags.specs.Tags.{Sign};

    ghost Value = { List Sign };

    ghost view = { λ s. signs_in s.codes.items };

    ghost invariant = { λ s. AreCodes s.codes.items × (length s.falls.items ≡ length s.codes.items) × ArePieceFalls (signs_in s.codes.items) s.falls.items };
}

/// A search for signs in a text whose characters come one at a time. A piece between two stars is taken
/// where it stands first, since what matches further on matches there too; where it breaks off, the
/// search goes on with as much of its beginning as came last. So it takes time for the signs and the text.
#[derive(Drop)]
pub struct Search<'a> {
    // Those from the piece on that is searched for.
    codes: &'a [u32],
    falls: &'a [usize],
    came: usize,
    floats: bool,
}

impl<'a> Model for Search<'a> {
    ghost use Rattle.std.specs.Prelude.{◌≡◌, length, true};
    ghost use Rattle.slp_tags.specs.Searches.{has_front, ArePieceFalls, Sought};
    ghost use Rattle.slp_tags.specs.SignCodes.{signs_in, AreCodes};

    ghost Value = { Sought };

    ghost view = { λ s. record { signs = signs_in s.codes.now; came = s.came; floats = s.floats } };

    ghost invariant = { λ s. AreCodes s.codes.now × (length s.falls.now ≡ length s.codes.now) × ArePieceFalls (signs_in s.codes.now) s.falls.now × (has_front s.came (signs_in s.codes.now) ≡ true) };
}

#[inline(always)]
fn has_at(codes: &[u32], place: usize, c: u32) -> bool
    requires codes { AreCodes codes.now }
    requires within { place < length codes.now }
    requires character { c < end_code }
    ensures { result ≡ spec.has_at place c (signs_in codes.now) }
{
    codes[place] == c
}

#[inline(always)]
fn star_at(codes: &[u32], place: usize) -> bool
    requires codes { AreCodes codes.now }
    requires within { place < length codes.now }
    ensures { result ≡ spec.star_at place (signs_in codes.now) }
{
    codes[place] == STAR
}

// How many signs of a piece a text ends with after one character more.
#[inline(always)]
fn advance(codes: &[u32], falls: &[usize], came: usize, c: u32) -> usize
    requires codes { AreCodes codes.now }
    requires falls { AreFalls (signs_in codes.now) falls.now }
    requires came { has_front came (signs_in codes.now) ≡ true }
    requires within { came < length falls.now }
    requires character { c < end_code }
    ensures { (text : List ℕ) → IsLongestEnd (signs_in codes.now) came text → IsLongestEnd (signs_in codes.now) result (text ++ c ∷ []) }
{
    let mut came = came;
    while !has_at(codes, came, c) {
        if came == 0 {
            return 0;
        }
        came = falls[came];
    }
    came + 1
}

// Where a search goes on from a front of a piece to which one character more is put.
fn next_fall(codes: &[u32], falls: &[usize], came: usize, c: u32) -> usize
    requires codes { AreCodes codes.now }
    requires falls { AreFalls (signs_in codes.now) falls.now }
    requires came { has_front came (signs_in codes.now) ≡ true }
    requires next { spec.has_at came c (signs_in codes.now) ≡ true }
    requires within { came < length falls.now }
    requires character { c < end_code }
    ensures { IsLongestEnd (signs_in codes.now) result (drop 1 (front (came + 1) (signs_in codes.now))) }
{
    if came == 0 {
        return 0;
    }
    advance(codes, falls, falls[came], c)
}

// Where a search goes on from each place of signs.
fn falls_of(alloc: Global, codes: &[u32]) -> Result<Vec<usize>, NoMemory>
    requires { AreCodes codes.now }
    ensures long { IfOk result (λ v. length v.items ≡ length codes.now) }
    ensures falls { IfOk result (λ v. ArePieceFalls (signs_in codes.now) v.items) }
{
    let mut falls = Vec::new(alloc);
    falls.push(0)?;
    let mut start = 0;
    for i in 0..codes.len() - 1 {
        let c = codes[i];
        if c == STAR {
            start = i + 1;
            falls.push(0)?;
        } else {
            let fall = next_fall(&codes[start..], &falls[start..], i - start, c);
            falls.push(fall)?;
        }
    }
    Ok(falls)
}

// What comes after a star, and where a search of it goes on.
#[inline(always)]
fn after_star<'a>(codes: &'a [u32], falls: &'a [usize], place: usize) -> (&'a [u32], &'a [usize])
    requires within { place < length codes.now }
    requires long { length falls.now ≡ length codes.now }
    ensures codes { result.0.now ≡ drop (place + 1) codes.now }
    ensures falls { result.1.now ≡ drop (place + 1) falls.now }
{
    (&codes[place + 1..], &falls[place + 1..])
}

fn code_of(sign: Option<char>) -> u32
    ensures sign { sign_in result ≡ sign }
    ensures character { result ≢ end_code }
{
    match sign {
        Some(c) => u32::from(c),
        None => STAR,
    }
}

// The codes of signs.
fn codes_of(alloc: Global, signs: &[Option<char>]) -> Result<Vec<u32>, NoMemory>
    ensures codes { IfOk result (λ v. AreCodes v.items) }
    ensures signs { IfOk result (λ v. signs_in v.items ≡ signs.now) }
{
    let mut codes = Vec::with_capacity(alloc, signs.len().saturating_add(1))?;
    for sign in signs {
        codes.push(code_of(*sign))?;
    }
    codes.push(END)?;
    Ok(codes)
}

// A byte of ASCII that is no white space, as its lower case.
#[inline(always)]
fn plain_letter(b: u8) -> Option<u32>
    ensures value { MatchOption result (is_word_byte b ≡ false) (λ c. (is_word_byte b ≡ true) × (c ≡ to_ascii_lowercase b)) }
    ensures character { IfSome result (λ c. c < 128) }
{
    if b >= b'a' {
        return if b < 0x80 { Some(u32::from(b)) } else { None };
    }
    if b > b' ' {
        return Some(u32::from(b.to_ascii_lowercase()));
    }
    None
}

// Goes over plain bytes while a piece is searched for that may stand further on, as far as they go, or
// the piece came whole and a star follows: how many bytes they are, and how many signs came last.
#[inline(always)]
fn sweep(codes: &[u32], falls: &[usize], came: usize, bytes: &[u8]) -> (usize, usize)
    requires codes { AreCodes codes.now }
    requires falls { AreFalls (signs_in codes.now) falls.now }
    requires long { length falls.now ≡ length codes.now }
    requires came { has_front came (signs_in codes.now) ≡ true }
    ensures within { result.0 ≤ length bytes.now }
    ensures plain { list_all is_word_byte (take result.0 bytes.now) ≡ true }
    ensures came { has_front result.1 (signs_in codes.now) ≡ true }
    ensures same { (text : List ℕ) → floating (signs_in codes.now) result.1 text ≡ floating (signs_in codes.now) came (map to_ascii_lowercase (take result.0 bytes.now) ++ text) }
{
    let mut came = came;
    for i in 0..bytes.len() {
        if star_at(codes, came) {
            return (i, came);
        }
        match plain_letter(bytes[i]) {
            None => return (i, came),
            Some(c) => came = advance(codes, falls, came, c),
        }
    }
    (bytes.len(), came)
}

impl Signs {
    /// Signs, made ready once. It takes time for their number.
    pub fn new(alloc: Global, signs: &[Option<char>]) -> Result<Signs, NoMemory>
        ensures { IfOk result (λ s. s ≡ signs.now) }
    {
        let codes = codes_of(alloc, signs)?;
        let falls = falls_of(alloc, &codes)?;
        Ok(Signs { codes, falls })
    }

    /// A search of a text from its beginning. Takes no memory.
    #[inline(always)]
    pub fn search(&self) -> Search<'_>
        ensures { (text : List ℕ) → finds result text ≡ is_match self.now text }
    {
        Search {
            codes: &self.codes,
            falls: &self.falls,
            came: 0,
            floats: false,
        }
    }
}

impl<'a> Search<'a> {
    #[inline(always)]
    fn at_star(&self) -> bool
        ensures { result ≡ spec.star_at self.now.came self.now.signs }
    {
        star_at(self.codes, self.came)
    }

    // Takes a piece that came whole, and goes on behind the star after it.
    #[inline(always)]
    fn pass_star(&mut self)
        requires { spec.star_at self.old.came self.old.signs ≡ true }
        ensures same { (text : List ℕ) → finds self.new text ≡ finds self.old text }
        ensures less { length self.new.signs < length self.old.signs }
    {
        let (codes, falls) = after_star(self.codes, self.falls, self.came);
        self.codes = codes;
        self.falls = falls;
        self.came = 0;
        self.floats = true;
    }

    #[inline(always)]
    fn pass_stars(&mut self)
        ensures same { (text : List ℕ) → finds self.new text ≡ finds self.old text }
        ensures past { spec.star_at self.new.came self.new.signs ≡ false }
    {
        while self.at_star() {
            self.pass_star();
        }
    }

    // One character more, where no star is next.
    #[inline(always)]
    fn turn(&mut self, c: u32) -> Option<bool>
        requires past { spec.star_at self.old.came self.old.signs ≡ false }
        requires character { c < end_code }
        ensures { MatchOption result ((text : List ℕ) → finds self.new text ≡ finds self.old (c ∷ text)) (λ found. (text : List ℕ) → finds self.old (c ∷ text) ≡ found) }
    {
        if self.floats {
            if self.codes.len() == 1 {
                return Some(true);
            }
            self.came = advance(self.codes, self.falls, self.came, c);
            return None;
        }
        if has_at(self.codes, self.came, c) {
            self.came += 1;
            return None;
        }
        Some(false)
    }

    /// One character more of the text, by its number: `Some` where it is decided whether the text matches,
    /// whatever follows. Takes no memory.
    #[inline(always)]
    pub fn step(&mut self, c: u32) -> Option<bool>
        requires { c < end_code }
        ensures { MatchOption result ((text : List ℕ) → finds self.new text ≡ finds self.old (c ∷ text)) (λ found. (text : List ℕ) → finds self.old (c ∷ text) ≡ found) }
    {
        self.pass_stars();
        self.turn(c)
    }

    /// Takes bytes of ASCII without white space at the front of a text, as their lower case, and says how
    /// many. Takes no memory.
    #[inline(always)]
    pub fn take_plain(&mut self, bytes: &[u8]) -> usize
        ensures within { result ≤ length bytes.now }
        ensures plain { list_all is_word_byte (take result bytes.now) ≡ true }
        ensures same { (text : List ℕ) → finds self.new text ≡ finds self.old (map to_ascii_lowercase (take result bytes.now) ++ text) }
    {
        self.pass_stars();
        if !self.floats {
            return 0;
        }
        let (count, came) = sweep(self.codes, self.falls, self.came, bytes);
        self.came = came;
        count
    }

    /// Whether the text matches, which ends here. Takes no memory.
    #[inline(always)]
    pub fn ends(&mut self) -> bool
        ensures { result ≡ finds self.old [] }
    {
        self.pass_stars();
        self.came + 1 == self.codes.len()
    }
}
