ghost use Rattle.std.specs.Prelude.{Some};
ghost use Rattle.ios.specs.Faults.{fault_text};

use crate::outcome::Fault;
use std::fmt;

impl fmt::Display for Fault {
    ghost output = { λ f. Some (fault_text f) };

    fn fmt<W: fmt::Write>(&self, f: &mut fmt::Formatter<W>) -> fmt::Result {
        let number = self.refusal.number();
        let line = self.line;
        let column = self.column;
        write!(f, "refused {number} {line} {column}")
    }
}
