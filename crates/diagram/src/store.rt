ghost use Rattle.std.specs.Prelude.{◌≤◌, All};
ghost use Rattle.diagram.specs.Nodes.{Sound};
ghost use Rattle.diagram.specs.Props.{Sound-prop};

use crate::store::link::Link;
use acl::header::WIDTH;
use model::node::{Node, Ref};

pub mod collecting;
pub mod index;
pub mod laying;
pub mod link;
pub mod noting;
pub mod walking;

// How many nodes a store has room for.
pub(crate) const NODES: usize = 2048;

// The nodes, and an index by which a node is found again: the last node of each bucket, and of
// each node the one before it in its bucket. The index has the first `linked` nodes; there are at
// most `cap`.
#[derive(Drop)]
pub struct Store {
    pub(crate) nodes: [Node; NODES],
    pub(crate) head: [Link; 4096],
    pub(crate) next: [Link; NODES],
    pub(crate) linked: usize,
    pub(crate) cap: usize,
    ghost sound: { Sound nodes head next linked } by { Sound-prop nodes head next linked },
    ghost capped: { cap ≤ 2048 },
    ghost fits: { linked ≤ cap },
}

// What was laid over `over` where it does not test the place.
#[derive(Clone, Copy)]
pub struct Past {
    pub(crate) over: Ref,
    pub(crate) made: Ref,
}

// What was last made over a node, and in which round. A laying is a round, and what an earlier one
// made does not count: so none has to clear all nodes.
#[derive(Clone, Copy)]
pub struct Made {
    pub(crate) round: u16,
    pub(crate) made: Ref,
}

// What a laying has made so far: over each node, and last at each place over a reference that
// does not test it. Each is made once and then found here.
#[derive(Drop)]
pub struct Notes {
    pub(crate) made: [Made; NODES],
    pub(crate) past: [Option<Past>; WIDTH],
    pub(crate) round: u16,
    ghost no_later: { All (λ m. m.round ≤ round) made },
}
