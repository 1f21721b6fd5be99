ghost use Rattle.std.specs.Prelude.{◌≡◌, ◌<◌, ◌≤◌, true, not, length, position, unwrap_or, IfOk, OnErr};
ghost use Rattle.words.specs.Numbers.{number_in, address_in};
ghost use Rattle.words.specs.Words.{blank, words_at, Next};
ghost use Rattle.words.specs.Cursor.{rest, rest_of, has_dot, well_sorted, word_part, Peeks, passed, place, stop_at, handed, address_of, number_of, end_of};

use crate::numbers::{address_in, number_in};
use crate::part::{Part, Stop, Word};
use acl::refusal::Refusal;

// A text line, read word by word.
#[derive(Clone, Copy)]
pub struct Words<'a> {
    line: &'a [u8],
    at: usize,
}

pub(crate) fn is_blank(b: u8) -> bool
    ensures { result ≡ blank b }
{
    matches!(b, b'\t' | b' ')
}

// How many blanks stand before the first word, if there is one.
fn before_word(bytes: &[u8]) -> Option<usize>
    ensures { result ≡ position (λ b. not (blank b)) bytes.now }
{
    bytes.iter().position(|b| !is_blank(*b))
}

// How many bytes stand before the first blank, if there is one.
fn before_blank(bytes: &[u8]) -> Option<usize>
    ensures { result ≡ position blank bytes.now }
{
    bytes.iter().position(|b| is_blank(*b))
}

// The first word at or after a column. Reading comes here several times for each word, so this
// and what `peek` makes of it are built into their callers.
#[inline(always)]
fn next_part<'a>(line: &'a [u8], from: usize) -> Option<Part<'a>>
    ensures { Next line.now from result }
{
    let rest = line.get(from..)?;
    let start = before_word(rest)?;
    let word = &rest[start..];
    let end = before_blank(word).unwrap_or(word.len());
    Some(Part {
        bytes: &word[..end],
        column: from + start,
    })
}

// Whether a dot is among the bytes.
#[inline(always)]
fn has_dot(bytes: &[u8]) -> bool
    ensures { result ≡ has_dot bytes.now }
{
    bytes.contains(&b'.')
}

// A part as the word that its bytes make it.
#[inline(always)]
fn word_of<'a>(part: Part<'a>) -> Word<'a>
    requires { 0 < length part.bytes.now }
    ensures same { word_part result ≡ part.entry }
    ensures sort { well_sorted result ≡ true }
{
    if !part.bytes[0].is_ascii_digit() {
        Word::Keyword(part)
    } else if has_dot(part.bytes) {
        Word::Address(part)
    } else {
        Word::Number(part)
    }
}

// The address that a word writes; words of the other sorts write none.
fn address_of(word: Word<'_>) -> Option<u32>
    requires { well_sorted word ≡ true }
    ensures { result ≡ address_in (word_part word.entry).bytes.now }
{
    match word {
        Word::Keyword(_) => None,
        Word::Number(_) => None,
        Word::Address(part) => address_in(part.bytes),
    }
}

// The number from `low` to `high` that a word writes; words of the other sorts write none.
fn number_of(word: Word<'_>, low: u16, high: u16) -> Option<u16>
    requires { well_sorted word ≡ true }
    ensures { result ≡ number_in low high (word_part word.entry).bytes.now }
{
    match word {
        Word::Keyword(_) => None,
        Word::Number(part) => number_in(part.bytes, low, high),
        Word::Address(_) => None,
    }
}

impl<'a> Words<'a> {
    pub fn new(line: &'a [u8]) -> Words<'a>
        ensures { rest result ≡ rest_of line.now }
    {
        Words { line, at: 0 }
    }

    // The next word, which stays the next.
    #[inline(always)]
    pub fn peek(&self) -> Option<Word<'a>>
        ensures { Peeks (rest self.now).words result }
    {
        Some(word_of(next_part(self.line, self.at)?))
    }

    // Goes past the next word, if there is one.
    pub fn pass(&mut self)
        ensures { rest self.new ≡ passed (rest self.old) }
    {
        if let Some(part) = next_part(self.line, self.at) {
            self.at = part.column + part.bytes.len();
        }
    }

    // The column of the next word, or the line's length where there is none.
    pub fn place(&self) -> usize
        ensures { result ≡ place (rest self.now) }
    {
        next_part(self.line, self.at).map_or(self.line.len(), |part| part.column)
    }

    // A refusal at the next word, or at the line's length where there is none.
    pub fn stop(&self, refusal: Refusal) -> Stop
        ensures { result ≡ stop_at refusal (rest self.now) }
    {
        Stop {
            refusal,
            column: self.place(),
        }
    }

    // The next word as an address; where it is refused, it stays the next.
    pub fn address(&mut self) -> Result<u32, Stop>
        ensures value { handed result (rest self.new) ≡ address_of (rest self.old) }
        ensures stays { OnErr result (self.new ≡ self.old) }
    {
        let Some(word) = self.peek() else {
            return Err(self.stop(Refusal::BadWord));
        };
        let Some(address) = address_of(word) else {
            return Err(self.stop(Refusal::BadAddress));
        };
        self.pass();
        Ok(address)
    }

    // The next word as a number from `low` to `high`; where it is refused, it stays the next.
    pub fn number(&mut self, low: u16, high: u16) -> Result<u16, Stop>
        ensures value { handed result (rest self.new) ≡ number_of low high (rest self.old) }
        ensures bound { IfOk result (λ n. (low ≤ n) × (n ≤ high)) }
        ensures stays { OnErr result (self.new ≡ self.old) }
    {
        let Some(word) = self.peek() else {
            return Err(self.stop(Refusal::BadWord));
        };
        let Some(n) = number_of(word, low, high) else {
            return Err(self.stop(Refusal::BadNumber));
        };
        self.pass();
        Ok(n)
    }

    // Refuses a word that is left over.
    pub fn end(&self) -> Result<(), Stop>
        ensures { result ≡ end_of (rest self.now) }
    {
        match self.peek() {
            None => Ok(()),
            Some(_) => Err(self.stop(Refusal::BadWord)),
        }
    }
}
