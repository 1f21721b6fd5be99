ghost use Rattle.std.specs.Prelude.{◌≡◌, ◌≤◌, map, length};
ghost use Rattle.acl.specs.Shapes.{shape};
ghost use Rattle.ios.specs.Reading.{text_of, counted, over, read_of, memory_after};
ghost use Rattle.ios.specs.Stands.{ReadingStands};

use crate::outcome::{Fault, Reading};
use crate::state::State;
use acl::line::Line;
use acl::refusal::Refusal;
use words::lines::TextLines;

// The limits of a text and of a list.
pub const MOST_BYTES: usize = 65536;

pub const MOST_LINES: usize = 1024;

// The list's number and how many lines the text has, or its first fault.
fn count(text: &[u8]) -> Result<Reading, Fault>
    requires { length text.now ≤ 65536 }
    ensures { result ≡ counted (text_of text.now) }
{
    let mut state = State::default();
    for bytes in TextLines::new(text) {
        state.step(bytes)?;
    }
    Ok(Reading {
        number: state.known.unwrap_or(0),
        count: state.count,
    })
}

// Writes the lines that stand before the first fault.
fn fill(text: &[u8], memory: &mut [Line])
    requires { (length text.now ≤ 65536) × (length (text_of text.now).lines ≤ length memory.old) }
    ensures { map shape memory.new ≡ over (text_of text.now).lines (map shape memory.old) }
{
    let mut state = State::default();
    for bytes in TextLines::new(text) {
        match state.step(bytes) {
            Err(_) => return,
            Ok(None) => {}
            Ok(Some(entry)) => memory[state.count - 1] = entry.numbered(state.count as u16),
        }
    }
}

// Reads a list into line memory: its lines, numbered from 1, over the front of the memory.
// A refused text leaves the memory as it was. What is read is just what the grammar has.
#[tactic(auto, using(crate::proofs::Whole::reading_stands))]
pub fn read(text: &[u8], memory: &mut [Line]) -> Result<Reading, Fault>
    ensures answer { result ≡ read_of text.now (length memory.old) }
    ensures written { map shape memory.new ≡ memory_after result text.now (map shape memory.old) }
    ensures stands { ReadingStands }
{
    if text.len() > MOST_BYTES {
        return Err(Refusal::TooLong.into());
    }
    let reading = count(text)?;
    if reading.count > memory.len() {
        return Err(Refusal::ShortMemory.into());
    }
    fill(text, memory);
    Ok(reading)
}
