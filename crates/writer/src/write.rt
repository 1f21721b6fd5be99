ghost use Rattle.std.specs.Prelude.{◌≡◌, map, length};
ghost use Rattle.std.specs.List.{list_all};
ghost use Rattle.acl.specs.declared.line.Line.{Line};
ghost use Rattle.acl.specs.Shapes.{shape};
ghost use Rattle.writer.specs.Canon.{list_bytes};
ghost use Rattle.writer.specs.Writing.{standard_line, all_standard, allowed, sized, write_of, text_for, memory_after};
ghost use Rattle.writer.specs.Back.{RoundTrip};

use crate::lines::put_list;
use acl::line::Line;
use acl::refusal::Refusal;
use acl::side::Side;
use acl::terms::Protocol;
use ios::family::{Family, ListNumber};
use ios::read::{MOST_BYTES, MOST_LINES};

// Whether a standard list can hold the line: any protocol, and any destination.
fn standard_line(line: Line) -> bool
    ensures { result ≡ standard_line (shape line) }
{
    line.protocol == Protocol::Any && line.destination == Side::any()
}

fn all_standard(lines: &[Line]) -> bool
    ensures { result ≡ list_all (λ (line : Line). standard_line (shape line)) lines.now }
{
    lines.iter().all(|line| standard_line(*line))
}

// Whether a list of this form can hold the lines.
#[tactic(auto, using(crate::proofs::Turns::each_standard))]
fn holds(family: Family, lines: &[Line]) -> bool
    ensures { result ≡ allowed family (map shape lines.now) }
{
    match family {
        Family::Standard => all_standard(lines),
        Family::Extended => true,
    }
}

// Writes lines that the list can hold, if the text is not too long.
fn write_held(lines: &[Line], list: ListNumber, memory: &mut [u8]) -> Result<usize, Refusal>
    ensures answer { result ≡ sized (length (list_bytes list.number list.family (map shape lines.now))) (length memory.old) }
    ensures written { memory.new ≡ memory_after result (list_bytes list.number list.family (map shape lines.now)) memory.old }
{
    let length = put_list(&mut [], list, lines);
    if length > MOST_BYTES {
        return Err(Refusal::TooLong);
    }
    if length > memory.len() {
        return Err(Refusal::ShortMemory);
    }
    Ok(put_list(memory, list, lines))
}

// Writes the lines of the list `number` in canonical form into text memory; the text's length.
// A refused list leaves the memory as it was. What is written reads back as the same list.
pub fn write(lines: &[Line], number: u16, memory: &mut [u8]) -> Result<usize, Refusal>
    ensures answer { result ≡ write_of (map shape lines.now) number (length memory.old) }
    ensures written { memory.new ≡ memory_after result (text_for (map shape lines.now) number) memory.old }
    ensures back { RoundTrip }
{
    if lines.len() > MOST_LINES {
        return Err(Refusal::TooManyLines);
    }
    let list = ListNumber::try_from(number)?;
    if !holds(list.family, lines) {
        return Err(Refusal::NotStandard);
    }
    write_held(lines, list, memory)
}
