ghost use Rattle.std.specs.Prelude.{◌≡◌, ◌+◌, ◌^◌, ◌<◌};

use acl::line::Line;
use acl::terms::Action;

// What is printed for a header: the line that decides it, if one does, or where it is malformed.
#[derive(Clone, Copy)]
pub enum Answer {
    Decided(Option<Line>),
    Bad { line: usize, column: usize },
}

// How many headers were permitted, denied and malformed.
#[derive(Clone, Copy, Default)]
pub struct Tally {
    pub permit: usize,
    pub deny: usize,
    pub bad: usize,
}

// The last line of the output: how many lines the list has, and how the headers, whose number
// fits, were answered.
#[derive(Clone, Copy)]
pub struct Summary {
    pub lines: usize,
    pub tally: Tally,
    ghost few: { tally.permit + tally.deny + tally.bad < 2 ^ 64 },
}

impl Tally {
    ghost use Rattle.deciding.specs.Output.{answer_noted};

    // Counts one answer more; the end of a list denies.
    pub(crate) fn note(&mut self, answer: Answer)
        requires { self.old.permit + self.old.deny + self.old.bad + 1 < 2 ^ 64 }
        ensures { self.new ≡ answer_noted answer self.old }
    {
        match answer {
            Answer::Decided(found) => match found.map_or(Action::Deny, |line| line.action) {
                Action::Permit => self.permit += 1,
                Action::Deny => self.deny += 1,
            },
            Answer::Bad { .. } => self.bad += 1,
        }
    }
}
