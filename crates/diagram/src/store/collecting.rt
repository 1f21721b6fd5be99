// Nodes that no root reaches are left out, and the others renumbered.
ghost use Rattle.std.specs.Prelude.{◌≡◌, ℕ, ◌<◌, length, slice_index_or};
ghost use Rattle.model.specs.declared.node.Ref.TheVariants.{Code};
ghost use Rattle.diagram.specs.Nodes.{Under};
ghost use Rattle.diagram.specs.Collecting.{Marks, MarksAll, IsMarked, ClosedFrom, MarksReached, moved_to, CopiedTo, FromMarked};

use super::link::Link;
use super::{NODES, Store};
use crate::guard::End;
use model::node::Ref;

// Marks the node that a reference refers to.
fn mark(marks: &mut [bool; NODES], r: Ref)
    requires { Under 2048 r }
    ensures { Marks r marks.old marks.new }
{
    if let Ref::Node(i) = r {
        marks[i as usize] = true;
    }
}

// The marks of the nodes that these references refer to.
pub(crate) fn mark_all(roots: &[Ref]) -> [bool; NODES]
    requires { (j : ℕ) → j < length roots.now → Under 2048 (slice_index_or roots.now j (Code 0)) }
    ensures { MarksAll roots.now result }
{
    let mut marks = [false; NODES];
    for r in roots {
        mark(&mut marks, *r);
    }
    marks
}

// Where a reference went.
fn moved(to: &[Ref; NODES], r: Ref) -> Ref
    requires { Under 2048 r }
    ensures { result ≡ moved_to to.now r }
{
    match r {
        Ref::Code(_) => r,
        Ref::Node(i) => to[i as usize],
    }
}

// Puts in place of each reference where it went.
pub(crate) fn move_all(to: &[Ref; NODES], roots: &mut [Ref])
    requires { (j : ℕ) → j < length roots.old → Under 2048 (slice_index_or roots.old j (Code 0)) }
    ensures { (j : ℕ) → j < length roots.old → slice_index_or roots.new j (Code 0) ≡ moved_to to.now (slice_index_or roots.old j (Code 0)) }
{
    for r in roots {
        *r = moved(to, *r);
    }
}

impl Store {
    // Marks what the marked nodes refer to, and what that refers to.
    pub(crate) fn spread(&self, marks: &mut [bool; NODES])
        requires inside { (k : ℕ) → IsMarked marks.old k → k < self.now.linked }
        ensures closed { ClosedFrom self.now marks.new 0 }
        ensures more { (k : ℕ) → IsMarked marks.old k → IsMarked marks.new k }
        ensures inside { (k : ℕ) → IsMarked marks.new k → k < self.now.linked }
        ensures reached { MarksReached self.now marks.old marks.new }
    {
        for i in (0..self.linked).rev() {
            if marks[i] {
                let n = self.nodes[i];
                mark(marks, n.low);
                mark(marks, n.high);
            }
        }
    }

    // Keeps what is marked and nothing else, and says where each node went.
    pub(crate) fn keep(&mut self, end: &mut End, marks: &[bool; NODES]) -> [Ref; NODES]
        requires level { end.old.at ≡ self.old.linked }
        requires closed { ClosedFrom self.old marks.now 0 }
        ensures level { end.new.at ≡ self.new.linked }
        ensures cap { self.new.cap ≡ self.old.cap }
        ensures copied { CopiedTo self.old self.new marks.now result self.old.linked }
        ensures only { FromMarked self.old self.new marks.now self.old.linked }
    {
        let old = self.nodes;
        let count = self.linked;
        let mut to = [Ref::Code(0); NODES];
        self.empty();
        end.at = 0;
        for i in 0..count {
            if marks[i] {
                let n = old[i];
                let low = moved(&to, n.low);
                let high = moved(&to, n.high);
                to[i] = self.join(end, n.place, low, high).unwrap();
            }
        }
        to
    }

    // Takes all nodes out of the index.
    fn empty(&mut self)
        ensures none { self.new.linked ≡ 0 }
        ensures cap { self.new.cap ≡ self.old.cap }
    {
        self.head = [Link::NONE; 4096];
        self.linked = 0;
    }
}
