ghost use Rattle.std.specs.Prelude.{◌≡◌};
ghost use Rattle.acl.specs.Refusals.{refusal_number, refusal_layer};

// Why a call was refused, each case with the number under which manuals list it.
#[derive(Clone, Copy, Debug, PartialEq, Eq)]
pub enum Refusal {
    // more than 2,048 nodes asked for
    TooManyNodes = 1,
    // not 104 numbers that hold each of 0 to 103 once
    BadProfile = 2,
    // a slot above 15
    NoSlot = 3,
    // a list is loaded into a slot that holds one
    SlotTaken = 4,
    // a slot without a list
    SlotEmpty = 5,
    // more than 1,024 lines
    TooManyLines = 6,
    // the table has no room for the parts
    NoRoom = 7,
    // an index that is not below the list's length
    NoLine = 8,
    // line or text memory too short
    ShortMemory = 9,
    // a text over 65,536 bytes, or a text line over 256
    TooLong = 10,
    // a word missing, unknown or left over
    BadWord = 11,
    // the word in an address's or a wildcard's place is none
    BadAddress = 12,
    // the word in a number's place is malformed or out of range
    BadNumber = 13,
    // the first port of a range is above the second
    BackwardRange = 14,
    // a list number unlike the text's first
    OtherList = 15,
    // a standard list number for a line whose protocol or destination is not any
    NotStandard = 16,
}

// Where a refused text is at fault: in a word, in a line, or in the list as a whole.
#[derive(Clone, Copy, Debug, PartialEq, Eq)]
pub enum Layer {
    Word,
    Line,
    List,
}

impl Refusal {
    // The number under which manuals list the refusal.
    pub fn number(self) -> u16
        ensures { result ≡ refusal_number self }
    {
        self as u16
    }

    pub fn layer(self) -> Layer
        ensures { result ≡ refusal_layer self }
    {
        match self {
            Refusal::BadAddress | Refusal::BadNumber => Layer::Word,
            Refusal::BadWord | Refusal::BackwardRange => Layer::Line,
            _ => Layer::List,
        }
    }
}
