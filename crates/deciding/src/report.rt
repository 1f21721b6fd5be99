ghost use Rattle.std.specs.Prelude.{◌≡◌, ◌+◌, ◌^◌, ◌<◌, ◌++◌, map, IfOk, string_bytes, OnOk};
ghost use Rattle.acl.specs.Shapes.{shape};
ghost use Rattle.words.specs.Lines.{text_lines};
ghost use Rattle.ios.specs.Reading.{read_of, text_of};
ghost use Rattle.deciding.specs.Output.{answers_from, tally_of, report_by, report_of};
ghost use Rattle.deciding.specs.Stands.{ReportStands};

use crate::answer::{Answer, Summary, Tally};
use crate::halves::{Halves, cut_halves};
use crate::header_line::header_line;
use acl::fitting::first_match;
use acl::line::Line;
use ios::outcome::Reading;
use ios::read::{MOST_LINES, read};
use std::alloc::{AllocError, Global};
use words::lines::TextLines;

// Prints the answers to all headers, and counts them.
fn put_answers(out: &mut String, lines: &[Line], headers: &[u8]) -> Result<Tally, AllocError>
    ensures text { OnOk result (string_bytes out.new ≡ string_bytes out.old ++ answers_from (map shape lines.now) 1 (text_lines headers.now)) }
    ensures count { IfOk result (λ t. t ≡ tally_of (map shape lines.now) (text_lines headers.now)) }
    ensures few { IfOk result (λ t. t.permit + t.deny + t.bad < 2 ^ 64) }
{
    let mut tally = Tally::default();
    for (t, bytes) in TextLines::new(headers).enumerate() {
        let answer = match header_line(bytes) {
            Ok(None) => continue,
            Ok(Some(header)) => Answer::Decided(first_match(lines, header)),
            Err(column) => Answer::Bad {
                line: t + 1,
                column,
            },
        };
        tally.note(answer);
        writeln!(out, "{answer}")?;
    }
    Ok(tally)
}

// Prints the answers of a list to headers and the last line, or the list's refusal.
fn put_report(out: &mut String, list: &[u8], headers: &[u8]) -> Result<(), AllocError>
    ensures { OnOk result (string_bytes out.new ≡ string_bytes out.old ++ report_by (read_of list.now 1024) (text_of list.now).lines (text_lines headers.now)) }
{
    let mut memory = [Line::blank(); MOST_LINES];
    match read(list, &mut memory) {
        Err(fault) => writeln!(out, "{fault}"),
        Ok(Reading { count, .. }) => {
            let tally = put_answers(out, &memory[..count], headers)?;
            let summary = Summary {
                lines: count,
                tally,
            };
            writeln!(out, "{summary}")
        }
    }
}

// The whole output for an input: a list, a text line `=`, and headers. It fails only for want of memory.
#[tactic(auto, using(crate::proofs::Standing::report_stands))]
pub fn report(heap: Global, input: &[u8]) -> Result<String, AllocError>
    ensures output { IfOk result (λ s. string_bytes s ≡ report_of input.now) }
    ensures stands { ReportStands }
{
    let Halves { list, headers } = cut_halves(input);
    let mut out = String::new(heap);
    put_report(&mut out, list, headers)?;
    Ok(out)
}
