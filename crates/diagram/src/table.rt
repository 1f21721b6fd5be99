ghost use Rattle.std.specs.Prelude.{◌≤◌};

use crate::guard::End;
use crate::store::{Notes, Store};

pub mod calls;

// Why a call on a table is refused.
#[derive(Clone, Copy, Debug, PartialEq, Eq)]
pub enum Denied {
    // a reference to no node of the table
    NoNode,
    // there is no room for the nodes that are needed
    Full,
}

// Diagrams of at most 2,048 nodes: those before the end mark count. The notes are a laying's.
#[derive(Drop)]
pub struct Table {
    store: Store,
    end: End,
    notes: Notes,
    ghost kept: { end.at ≤ store.linked },
}
