ghost use Rattle.std.specs.Prelude.{◌≡◌};
ghost use Rattle.words.specs.Cursor.{word_part, word_shown};
ghost use Rattle.words.specs.Keywords.{named, comment};

use crate::keyword::is_keyword;
use acl::refusal::Refusal;

// A word's bytes, and the column at which they start in the text line.
#[derive(Clone, Copy)]
pub struct Part<'a> {
    pub bytes: &'a [u8],
    pub column: usize,
}

// A word borrows its part of the text line: a number begins with a digit, an address is a
// number with a dot in it, and every other word is taken for a keyword.
#[derive(Clone, Copy)]
pub enum Word<'a> {
    Keyword(Part<'a>),
    Number(Part<'a>),
    Address(Part<'a>),
}

// Why a text line is refused, and the column at which: that of a word, or the line's length
// where a word is missing.
#[derive(Clone, Copy, Debug, PartialEq, Eq)]
pub struct Stop {
    pub refusal: Refusal,
    pub column: usize,
}

impl<'a> Word<'a> {
    pub fn part(self) -> Part<'a>
        ensures { result ≡ word_part self.entry }
    {
        match self {
            Word::Keyword(part) | Word::Number(part) | Word::Address(part) => part,
        }
    }

    // Whether the word is the keyword.
    pub fn is(self, keyword: &[u8]) -> bool
        ensures { result ≡ named (word_shown self.entry).bytes keyword.now }
    {
        is_keyword(self.part().bytes, keyword)
    }

    // Whether the word begins with `!`.
    pub fn opens_comment(self) -> bool
        ensures { result ≡ comment (word_shown self.entry).bytes }
    {
        matches!(self.part().bytes, [b'!', ..])
    }
}
