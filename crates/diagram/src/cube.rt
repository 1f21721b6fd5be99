ghost use Rattle.diagram.specs.Cubes.{Onward, Inside, Quiet};

use acl::header::WIDTH;
use model::ask::Ask;

pub mod making;

// A piece turned to places, as it is laid: what it asks at each place, the next place from each
// one on at which it asks something, and the code that its headers get.
#[derive(Clone, Copy)]
pub struct Cube {
    pub(crate) asks: [Ask; WIDTH],
    pub(crate) next: [u8; WIDTH],
    pub(crate) code: u16,
    ghost onward: { Onward next },
    ghost inside: { Inside next },
    ghost quiet: { Quiet asks next },
}
