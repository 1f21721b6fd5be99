// A piece is laid over a reference, place by place.
ghost use Rattle.std.specs.Prelude.{◌≡◌, ◌+◌, ◌<◌, ◌≤◌, IfSome, MatchOption};
ghost use Rattle.acl.specs.Headers.{width};
ghost use Rattle.model.specs.Rows.{Bits};
ghost use Rattle.model.specs.Diagram.{top};
ghost use Rattle.diagram.specs.Nodes.{Under};
ghost use Rattle.diagram.specs.Stores.{nodes_of, Grows, Fits, New, Stands, Lacks, joined, laid_from, Branches, Noted, Note};
ghost use Rattle.diagram.specs.Layings.{Next};

use super::{Made, Notes, Past, Store};
use crate::cube::Cube;
use crate::guard::End;
use acl::header::WIDTH;
use model::ask::is_met;
use model::node::Ref;

impl Store {
    // The place that a reference tests, or 104 where it is a code.
    pub(crate) fn top(&self, r: Ref) -> u8
        requires under { Under self.now.linked r }
        ensures { result ≡ top width (nodes_of self.now) r }
    {
        match r {
            Ref::Code(_) => WIDTH as u8,
            Ref::Node(i) => self.nodes[i as usize].place,
        }
    }

    // The next place from `from` on that the piece or the diagram tests, if there is one.
    fn next_place(&self, cube: &Cube, from: u8, f: Ref) -> Option<u8>
        requires placed { from ≤ width }
        requires fits { Fits self.now from f }
        ensures { MatchOption result (Next self.now cube.now from f width) (λ p. (p < width) × Next self.now cube.now from f p) }
    {
        let asked = *cube.next.get(from as usize)?;
        let place = asked.min(self.top(f));
        (place < WIDTH as u8).then_some(place)
    }

    // What is left of a reference where the bit at the place is 0, and where it is 1.
    #[tactic(auto, using(crate::proofs::Walked::branches_node))]
    pub(crate) fn branches(&self, place: u8, f: Ref) -> (Ref, Ref)
        requires placed { place < width }
        requires fits { Fits self.now place f }
        ensures { Branches self.now place f result.0 result.1 }
    {
        match f {
            Ref::Node(i) if self.nodes[i as usize].place == place => {
                let n = self.nodes[i as usize];
                (n.low, n.high)
            }
            _ => (f, f),
        }
    }

    // What was made of a reference at the place, if it was.
    fn noted(&self, notes: &Notes, cube: &Cube, place: u8, f: Ref) -> Option<Ref>
        requires noted { Noted self.now cube.now notes.now }
        requires placed { place < width }
        requires under { Under self.now.linked f }
        ensures { IfSome result (λ x. Note self.now cube.now place f x) }
    {
        match f {
            Ref::Node(i) if self.nodes[i as usize].place == place => {
                let m = notes.made[i as usize];
                (m.round == notes.round).then_some(m.made)
            }
            _ => notes.past[place as usize]
                .filter(|past| past.over == f)
                .map(|past| past.made),
        }
    }

    // Notes what was made of a reference at the place.
    #[tactic(auto, using(crate::proofs::Noting::note_node, crate::proofs::Noting::note_past))]
    fn note(&self, notes: &mut Notes, cube: &Cube, place: u8, f: Ref, x: Ref)
        requires noted { Noted self.now cube.now notes.old }
        requires placed { place < width }
        requires under { Under self.now.linked f }
        requires made { Note self.now cube.now place f x }
        ensures { Noted self.now cube.now notes.new }
    {
        match f {
            Ref::Node(i) if self.nodes[i as usize].place == place => {
                notes.made[i as usize] = Made {
                    round: notes.round,
                    made: x,
                };
            }
            _ => {
                notes.past[place as usize] = Some(Past { over: f, made: x });
            }
        }
    }

    // Joins what was made of the two branches of a reference at the place, and notes it.
    #[tactic(auto, using(crate::proofs::Noting::noted_grows))]
    fn close(
        &mut self,
        end: &mut End,
        notes: &mut Notes,
        cube: &Cube,
        place: u8,
        f: Ref,
        low: Ref,
        high: Ref,
    ) -> Option<Ref>
        requires level { end.old.at ≡ self.old.linked }
        requires noted { Noted self.old cube.now notes.old }
        requires placed { place < width }
        requires under { Under self.old.linked f }
        requires low { Fits self.old (place + 1) low }
        requires high { Fits self.old (place + 1) high }
        requires laid { (v : Bits) → joined self.old place low high v ≡ laid_from cube.now self.old place f v }
        ensures level { end.new.at ≡ self.new.linked }
        ensures grows { Grows self.old self.new }
        ensures noted { Noted self.new cube.now notes.new }
        ensures new { New self.old self.new (laid_from cube.now self.old place f) }
        ensures value { MatchOption result (Lacks self.new (laid_from cube.now self.old place f)) (λ x. Stands self.new place (laid_from cube.now self.old place f) x) }
    {
        let made = self.join(end, place, low, high)?;
        self.note(notes, cube, place, f, made);
        Some(made)
    }

    // Lays a piece over a reference from the place `from` on. What is made of a node is noted, and
    // places that neither the piece nor the diagram tests are passed over.
    pub(crate) fn lay(
        &mut self,
        end: &mut End,
        notes: &mut Notes,
        cube: &Cube,
        from: u8,
        f: Ref,
    ) -> Option<Ref>
        requires level { end.old.at ≡ self.old.linked }
        requires noted { Noted self.old cube.now notes.old }
        requires placed { from ≤ width }
        requires fits { Fits self.old from f }
        ensures level { end.new.at ≡ self.new.linked }
        ensures grows { Grows self.old self.new }
        ensures noted { Noted self.new cube.now notes.new }
        ensures new { New self.old self.new (laid_from cube.now self.old from f) }
        ensures value { MatchOption result (Lacks self.new (laid_from cube.now self.old from f)) (λ x. Stands self.new from (laid_from cube.now self.old from f) x) }
    {
        let Some(place) = self.next_place(cube, from, f) else {
            return Some(Ref::Code(cube.code));
        };
        if let Some(x) = self.noted(notes, cube, place, f) {
            return Some(x);
        }
        let (low, high) = self.branches(place, f);
        let ask = cube.asks[place as usize];
        let x = if is_met(ask, false) {
            self.lay(end, notes, cube, place + 1, low)?
        } else {
            low
        };
        let y = if is_met(ask, true) {
            self.lay(end, notes, cube, place + 1, high)?
        } else {
            high
        };
        self.close(end, notes, cube, place, f, x, y)
    }
}
