ghost use Rattle.std.specs.Prelude.{Some};
ghost use Rattle.deciding.specs.Answers.{answer_text, summary_text};

use crate::answer::{Answer, Summary, Tally};
use std::fmt;

impl fmt::Display for Answer {
    ghost output = { λ a. Some (answer_text a) };

    fn fmt<W: fmt::Write>(&self, f: &mut fmt::Formatter<W>) -> fmt::Result {
        match *self {
            Answer::Decided(Some(line)) => write!(f, "{} {}", line.action, line.number),
            Answer::Decided(None) => write!(f, "deny end"),
            Answer::Bad { line, column } => write!(f, "bad header {line} {column}"),
        }
    }
}

impl fmt::Display for Summary {
    ghost output = { λ s. Some (summary_text s.lines s.tally) };

    fn fmt<W: fmt::Write>(&self, f: &mut fmt::Formatter<W>) -> fmt::Result {
        let lines = self.lines;
        let Tally { permit, deny, bad } = self.tally;
        let headers = permit + deny + bad;
        write!(
            f,
            "{lines} lines, {headers} headers: {permit} permit, {deny} deny, {bad} bad"
        )
    }
}
