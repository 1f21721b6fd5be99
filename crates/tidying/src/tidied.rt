ghost use Rattle.std.specs.Prelude.{◌≡◌, map, IfOk};
ghost use Rattle.acl.specs.Shapes.{shape};
ghost use Rattle.tidying.specs.Output.{refused_text, canonical_of, tidied_of};
ghost use Rattle.tidying.specs.Stands.{TidiedStands};

use acl::line::Line;
use ios::outcome::{Fault, Reading};
use ios::read::{MOST_BYTES, MOST_LINES, read};
use std::alloc::{AllocError, Global};
use writer::write::write;

// The line that a refusal prints.
fn refused(heap: Global, fault: Fault) -> Result<Vec<u8>, AllocError>
    ensures { IfOk result (λ v. v.items ≡ refused_text fault) }
{
    Ok(format!(in heap; "{fault}\n")?.into_bytes())
}

// The canonical form of lines, or the refusal where it would be too long.
fn canonical(heap: Global, lines: &[Line], number: u16) -> Result<Vec<u8>, AllocError>
    ensures { IfOk result (λ v. v.items ≡ canonical_of (map shape lines.now) number) }
{
    let mut memory = vec![in heap; 0; MOST_BYTES]?;
    match write(lines, number, &mut memory) {
        Err(refusal) => refused(heap, Fault::from(refusal)),
        Ok(length) => {
            memory.truncate(length);
            memory.shrink_to_fit();
            Ok(memory)
        }
    }
}

// The whole output for an input: its list in canonical form, or its refusal. A list without lines gives nothing.
#[tactic(auto, using(crate::proofs::Standing::tidied_stands))]
pub fn tidied(heap: Global, input: &[u8]) -> Result<Vec<u8>, AllocError>
    ensures output { IfOk result (λ v. v.items ≡ tidied_of input.now) }
    ensures stands { TidiedStands }
{
    let mut memory = [Line::blank(); MOST_LINES];
    match read(input, &mut memory) {
        Err(fault) => refused(heap, fault),
        Ok(Reading { count: 0, .. }) => Ok(Vec::new(heap)),
        Ok(Reading { number, count }) => canonical(heap, &memory[..count], number),
    }
}
