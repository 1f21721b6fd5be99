ghost use Rattle.std.specs.Prelude.{ℕ, List, decimal};
ghost use Rattle.writer.specs.Canon.{dotted, protocol_word, action_word};
ghost use Rattle.writer.specs.Pens.{Wrote};

use crate::pen::Pen;
use acl::terms::{Action, Protocol};

// What is written as one word.
pub(crate) trait Token {
    ghost text: { Self → List ℕ };

    fn put(self, pen: &mut Pen<'_>)
        ensures { Wrote pen.old (text self) pen.new };
}

// An address, which is written with dots.
#[derive(Clone, Copy)]
pub(crate) struct Address(pub(crate) u32);

impl Token for &str {
    ghost text = { λ word. word.now };

    fn put(self, pen: &mut Pen<'_>) {
        pen.text(self);
    }
}

impl Token for u16 {
    ghost text = { decimal };

    fn put(self, pen: &mut Pen<'_>) {
        pen.number(self);
    }
}

impl Token for Address {
    ghost text = { λ address. dotted address.0 };

    fn put(self, pen: &mut Pen<'_>) {
        let [first, second, third, last] = self.0.to_be_bytes();
        pen.number(first as u16);
        pen.text(".");
        pen.number(second as u16);
        pen.text(".");
        pen.number(third as u16);
        pen.text(".");
        pen.number(last as u16);
    }
}

impl Token for Protocol {
    ghost text = { protocol_word };

    fn put(self, pen: &mut Pen<'_>) {
        match self {
            Protocol::Any => pen.text("ip"),
            Protocol::Number(1) => pen.text("icmp"),
            Protocol::Number(6) => pen.text("tcp"),
            Protocol::Number(17) => pen.text("udp"),
            Protocol::Number(n) => pen.number(n as u16),
        }
    }
}

impl Token for Action {
    ghost text = { action_word };

    fn put(self, pen: &mut Pen<'_>) {
        pen.text(self.text());
    }
}
