ghost use Rattle.std.specs.Prelude.{[], ◌∷◌, decimal};
ghost use Rattle.writer.specs.Pens.{Wrote, WroteWords};

use crate::token::Token;

// Counts the text that it is given, and writes it where memory has the room: with no memory at all
// it only counts. The count stops at the highest number that it can hold.
#[derive(Drop)]
pub(crate) struct Pen<'a> {
    pub(crate) memory: &'a mut [u8],
    pub(crate) at: usize,
}

impl Pen<'_> {
    fn bytes(&mut self, bytes: &[u8])
        ensures { Wrote self.old bytes.now self.new }
    {
        let next = self.at.saturating_add(bytes.len());
        if next <= self.memory.len() {
            self.memory[self.at..next].copy_from_slice(bytes);
        }
        self.at = next;
    }

    pub(crate) fn text(&mut self, text: &str)
        ensures { Wrote self.old text.now self.new }
    {
        self.bytes(text.as_bytes());
    }

    // A number in decimal.
    pub(crate) fn number(&mut self, n: u16)
        ensures { Wrote self.old (decimal n) self.new }
    {
        if n >= 10 {
            self.number(n / 10);
        }
        self.bytes(&[b'0' + (n % 10) as u8]);
    }

    // A space and a word.
    pub(crate) fn word<T: Token>(&mut self, token: T)
        ensures { WroteWords self.old (T.text token ∷ []) self.new }
    {
        self.text(" ");
        token.put(self);
    }

    // Two words, each after a space.
    pub(crate) fn pair<S: Token, T: Token>(&mut self, first: S, second: T)
        ensures { WroteWords self.old (S.text first ∷ T.text second ∷ []) self.new }
    {
        self.word(first);
        self.word(second);
    }
}
