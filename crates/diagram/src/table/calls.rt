// The calls on a table.
ghost use Rattle.std.specs.Prelude.{◌≡◌, ℕ, ◌<◌, ◌≤◌, length, MatchBool, MatchOption, MatchResult, slice_index_or};
ghost use Rattle.model.specs.declared.node.Ref.TheVariants.{Code};
ghost use Rattle.diagram.specs.declared.table.Denied.TheVariants.{NoNode};
ghost use Rattle.diagram.specs.Stores.{Grows, Fits, New, Stands, Lacks, laid_from};
ghost use Rattle.diagram.specs.Tables.{Refers, room, room_for, Lays, Collects, Decides, Deep, Differs};

use super::{Denied, Table};
use crate::cube::Cube;
use crate::guard::{End, Laying};
use crate::store::collecting::{mark_all, move_all};
use crate::store::{NODES, Notes, Store};
use acl::header::WIDTH;
use model::node::Ref;

// Lays a piece, and keeps the nodes made only if all found room.
fn lay_kept(
    store: &mut Store,
    end: &mut End,
    notes: &mut Notes,
    cube: &Cube,
    over: Ref,
) -> Option<Ref>
    requires level { end.old.at ≡ store.old.linked }
    requires fits { Fits store.old 0 over }
    ensures grows { Grows store.old store.new }
    ensures kept { end.new.at ≤ store.new.linked }
    ensures new { New store.old store.new (laid_from cube.now store.old 0 over) }
    ensures value { MatchOption result ((end.new.at ≡ end.old.at) × Lacks store.new (laid_from cube.now store.old 0 over)) (λ x. (end.new.at ≡ store.new.linked) × Stands store.new 0 (laid_from cube.now store.old 0 over) x) }
{
    notes.clear();
    let mark = Some(end.at);
    let mut laying = Laying { end, mark };
    let x = store.lay(laying.end, notes, cube, 0, over)?;
    laying.mark = None;
    Some(x)
}

impl Table {
    // A table for at most this many nodes, without nodes; for none where more than 2,048 are asked
    // for.
    pub fn new(nodes: usize) -> Table
        ensures none { result.end.at ≡ 0 }
        ensures room { room result ≡ room_for nodes }
    {
        let cap = if nodes > NODES { 0 } else { nodes };
        Table {
            store: Store::new(cap),
            end: End { at: 0 },
            notes: Notes::new(),
        }
    }

    // How many nodes there are.
    pub fn count(&self) -> usize
        ensures { result ≡ self.now.end.at }
    {
        self.end.at
    }

    // Whether a reference is a code or one of the table's nodes.
    pub fn refers(&self, r: Ref) -> bool
        ensures { MatchBool result (Refers self.now r) (Refers self.now r → ⊥) }
    {
        match r {
            Ref::Code(_) => true,
            Ref::Node(i) => (i as usize) < self.count(),
        }
    }

    // Refuses a reference to no node of the table.
    fn check(&self, r: Ref) -> Result<(), Denied>
        ensures { MatchResult result (λ _. Refers self.now r) (λ e. (e ≡ NoNode) × (Refers self.now r → ⊥)) }
    {
        if self.refers(r) {
            Ok(())
        } else {
            Err(Denied::NoNode)
        }
    }

    // Lays a piece over a reference. Refused where it refers to no node, and where there is no room.
    pub fn lay(&mut self, cube: &Cube, over: Ref) -> Result<Ref, Denied>
        ensures { Lays self.old self.new cube.now over result }
    {
        self.check(over)?;
        self.store.trim(&self.end);
        lay_kept(&mut self.store, &mut self.end, &mut self.notes, cube, over).ok_or(Denied::Full)
    }

    // Whether all of these refer to the table.
    fn refer(&self, roots: &[Ref]) -> bool
        ensures { MatchBool result ((j : ℕ) → j < length roots.now → Refers self.now (slice_index_or roots.now j (Code 0))) (((j : ℕ) → j < length roots.now → Refers self.now (slice_index_or roots.now j (Code 0))) → ⊥) }
    {
        roots.iter().all(|&r| self.refers(r))
    }

    // Keeps just the nodes that the roots reach, puts in place of each root what it is now, and
    // answers how many nodes there are.
    pub fn collect(&mut self, roots: &mut [Ref]) -> Result<usize, Denied>
        ensures { Collects self.old self.new roots.old roots.new result }
    {
        if !self.refer(roots) {
            return Err(Denied::NoNode);
        }
        self.store.trim(&self.end);
        let mut marks = mark_all(roots);
        self.store.spread(&mut marks);
        let to = self.store.keep(&mut self.end, &marks);
        move_all(&to, roots);
        Ok(self.count())
    }

    // The code that a reference gives to bits by place, and how many of them were tested.
    pub fn decide(&self, bits: &[bool; WIDTH], r: Ref) -> Result<(u16, u16), Denied>
        ensures { Decides self.now bits.now r result }
    {
        self.check(r)?;
        Ok(self.store.decide(bits, r, 0))
    }

    // The most tests that any bits make from a reference on.
    pub fn depth(&self, r: Ref) -> Result<u8, Denied>
        ensures { Deep self.now r result }
    {
        self.check(r)?;
        let mut deep = [None; NODES];
        Ok(self.store.depth(&mut deep, r))
    }

    // The first bits by place at which two references differ, or none where they are equal.
    pub fn first_difference(&self, a: Ref, b: Ref) -> Result<Option<[bool; WIDTH]>, Denied>
        ensures { Differs self.now a b result }
    {
        self.check(a)?;
        self.check(b)?;
        if a == b {
            return Ok(None);
        }
        let mut bits = [false; WIDTH];
        self.store.differ(&mut bits, 0, a, b);
        Ok(Some(bits))
    }
}
