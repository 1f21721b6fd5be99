ghost use Rattle.std.specs.Prelude.{◌≤◌};
ghost use Rattle.ios.specs.Folding.{Steps};

use crate::entry::Entry;
use crate::outcome::Fault;
use crate::parse::line_says;
use crate::read::MOST_LINES;
use acl::refusal::Refusal;

// How far a text was read: the text lines so far, the list number that is known, and the lines so far.
#[derive(Clone, Copy, Default)]
pub struct State {
    pub line: usize,
    pub known: Option<u16>,
    pub count: usize,
}

impl State {
    // Takes one more text line: what it says, or the fault in it. The 1,025th line is one.
    pub(crate) fn step(&mut self, bytes: &[u8]) -> Result<Option<Entry>, Fault>
        requires { (self.old.line ≤ 65536) × (self.old.count ≤ 1024) }
        ensures { Steps self.old self.new bytes.now result }
    {
        self.line += 1;
        let said = line_says(bytes, self.known).map_err(|stop| Fault::at(self.line, stop))?;
        self.known = said.known;
        let Some(entry) = said.entry else {
            return Ok(None);
        };
        if self.count >= MOST_LINES {
            return Err(Fault {
                refusal: Refusal::TooManyLines,
                line: self.line,
                column: 0,
            });
        }
        self.count += 1;
        Ok(Some(entry))
    }
}
