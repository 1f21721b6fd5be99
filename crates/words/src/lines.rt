ghost use Rattle.std.specs.Prelude.{◌≡◌, ◌≢◌, ◌-◌, ◌<◌, length, take, Some, slice_get};
ghost use Rattle.std.specs.Iterator.{at_most};
ghost use Rattle.words.specs.Lines.{left, Takes};

use crate::bytes::find;

// The text lines of a text that are still to come.
#[derive(Clone, Copy)]
pub struct TextLines<'a> {
    rest: &'a [u8],
}

// A line without the carriage return at its end, if it has one.
fn without_return<'a>(line: &'a [u8]) -> &'a [u8]
    ensures cut { slice_get line.now (length line.now - 1) ≡ Some 13 → result.now ≡ take (length line.now - 1) line.now }
    ensures whole { slice_get line.now (length line.now - 1) ≢ Some 13 → result.now ≡ line.now }
{
    match line {
        [front @ .., b'\r'] => front,
        _ => line,
    }
}

// The first text line without its end, and what follows it.
fn split_line<'a>(text: &'a [u8]) -> (&'a [u8], &'a [u8])
    requires { 0 < length text.now }
    ensures { Takes text.now result.1.now (Some result.0) }
{
    match find(text, b'\n') {
        None => (text, b""),
        Some(end) => (without_return(&text[..end]), &text[end + 1..]),
    }
}

impl<'a> TextLines<'a> {
    pub fn new(text: &'a [u8]) -> TextLines<'a>
        ensures { left result ≡ text.now }
    {
        TextLines { rest: text }
    }

    // What is still to come of the text.
    pub fn rest(&self) -> &'a [u8]
        ensures { result.now ≡ left self.now }
    {
        let TextLines { rest } = *self;
        rest
    }
}

// Each text line without its end.
impl<'a> Iterator for TextLines<'a> {
    type Item = &'a [u8];

    ghost next_gives = { λ s r t. Takes (left s) (left t) r };

    ghost remaining = { λ s. at_most (length (left s)) };

    fn next(&mut self) -> Option<&'a [u8]> {
        if self.rest.is_empty() {
            return None;
        }
        let (line, rest) = split_line(self.rest);
        self.rest = rest;
        Some(line)
    }
}
