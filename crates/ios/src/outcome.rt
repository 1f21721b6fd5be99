ghost use Rattle.std.specs.Prelude.{◌≡◌};
ghost use Rattle.ios.specs.Reading.{fault_at, fault_in};

use acl::refusal::Refusal;
use words::part::Stop;

// What was read: the list's number, 0 where none stood, and how many lines.
#[derive(Clone, Copy, Debug, PartialEq, Eq)]
pub struct Reading {
    pub number: u16,
    pub count: usize,
}

// Why and where a text was refused: the text line, counted from 1, and the byte column in it,
// counted from 0; both are 0 where the text as a whole is refused.
#[derive(Clone, Copy, Debug, PartialEq, Eq)]
pub struct Fault {
    pub refusal: Refusal,
    pub line: usize,
    pub column: usize,
}

impl Fault {
    // A stop in a text line.
    pub(crate) fn at(line: usize, stop: Stop) -> Fault
        ensures { result ≡ fault_in line stop }
    {
        Fault {
            refusal: stop.refusal,
            line,
            column: stop.column,
        }
    }
}

// A text refused as a whole, at no place in it.
impl From<Refusal> for Fault {
    ghost from_gives = { λ refusal fault. fault ≡ fault_at refusal 0 0 };

    fn from(refusal: Refusal) -> Fault {
        Fault {
            refusal,
            line: 0,
            column: 0,
        }
    }
}
