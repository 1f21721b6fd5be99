// Nodes are found again by an index, made only where they are not there yet, and taken back from
// the end.
ghost use Rattle.std.specs.Prelude.{◌≡◌, ℕ, ◌+◌, ◌<◌, ◌≤◌, ◌≢◌, IfNone, MatchOption, slice_set};
ghost use Rattle.acl.specs.Headers.{width};
ghost use Rattle.diagram.specs.Nodes.{Good, bucket, number};
ghost use Rattle.diagram.specs.Stores.{nodes_of, Grows, Fits, New, Stands, Lacks, joined};

use super::link::Link;
use super::{NODES, Store};
use crate::guard::End;
use model::node::{Node, Ref};

// A number of its own for each reference.
fn reference_number(r: Ref) -> u32
    ensures value { result ≡ number r }
    ensures small { result < 131072 }
{
    match r {
        Ref::Code(c) => 2 * c as u32 + 1,
        Ref::Node(i) => 2 * i as u32,
    }
}

// The bucket in which a node is looked for.
fn bucket_of(n: Node) -> usize
    ensures value { result ≡ bucket n }
    ensures small { result < 4096 }
{
    let low = reference_number(n.low);
    let high = reference_number(n.high);
    ((n.place as u32 + 31 * low + 1021 * high) % 4096) as usize
}

impl Store {
    // A store without nodes, for at most `cap` of them.
    pub(crate) fn new(cap: usize) -> Self
        requires { cap ≤ 2048 }
        ensures none { result.linked ≡ 0 }
        ensures cap { result.cap ≡ cap }
    {
        let blank = Node {
            place: 0,
            low: Ref::Code(0),
            high: Ref::Code(0),
        };
        Store {
            nodes: [blank; NODES],
            head: [Link::NONE; 4096],
            next: [Link::NONE; NODES],
            linked: 0,
            cap,
        }
    }

    // The node in its bucket, if it is there.
    fn find(&self, b: usize, n: Node) -> Option<u16>
        requires here { b ≡ bucket n }
        requires small { b < 4096 }
        ensures { MatchOption result ((k : ℕ) → k < self.now.linked → nodes_of self.now k ≢ n) (λ i. (i < self.now.linked) × (nodes_of self.now i ≡ n)) }
    {
        let mut at = self.head[b].node();
        while let Some(i) = at {
            if self.nodes[i as usize] == n {
                return Some(i);
            }
            at = self.next[i as usize].node();
        }
        None
    }

    // One node more, which is not there yet.
    fn push(&mut self, b: usize, n: Node) -> u16
        requires room { self.old.linked < self.old.cap }
        requires here { b ≡ bucket n }
        requires small { b < 4096 }
        requires good { Good self.old.nodes self.old.linked n }
        requires fresh { (k : ℕ) → k < self.old.linked → nodes_of self.old k ≢ n }
        ensures at { result ≡ self.old.linked }
        ensures nodes { self.new.nodes ≡ slice_set self.old.nodes self.old.linked n }
        ensures stands { nodes_of self.new self.old.linked ≡ n }
        ensures linked { self.new.linked ≡ self.old.linked + 1 }
        ensures cap { self.new.cap ≡ self.old.cap }
    {
        let at = self.linked;
        self.nodes[at] = n;
        self.next[at] = self.head[b];
        self.head[b] = Link::to(at as u16);
        self.linked = at + 1;
        at as u16
    }

    // Takes the last node out of the index.
    fn pop(&mut self)
        requires some { 0 < self.old.linked }
        ensures nodes { self.new.nodes ≡ self.old.nodes }
        ensures linked { self.new.linked + 1 ≡ self.old.linked }
        ensures cap { self.new.cap ≡ self.old.cap }
    {
        let at = self.linked - 1;
        let b = bucket_of(self.nodes[at]);
        self.head[b] = self.next[at];
        self.linked = at;
    }

    // Takes the nodes past the end mark out of the index.
    pub(crate) fn trim(&mut self, end: &End)
        requires past { end.now.at ≤ self.old.linked }
        ensures level { self.new.linked ≡ end.now.at }
        ensures nodes { self.new.nodes ≡ self.old.nodes }
        ensures cap { self.new.cap ≡ self.old.cap }
    {
        while self.linked > end.at {
            self.pop();
        }
    }

    // The reference that goes high where the bit at the place is 1 and low where it is 0: a node,
    // which is made if it is not there, or low itself where the two are the same.
    pub(crate) fn join(&mut self, end: &mut End, place: u8, low: Ref, high: Ref) -> Option<Ref>
        requires level { end.old.at ≡ self.old.linked }
        requires placed { place < width }
        requires low { Fits self.old (place + 1) low }
        requires high { Fits self.old (place + 1) high }
        ensures level { end.new.at ≡ self.new.linked }
        ensures grows { Grows self.old self.new }
        ensures one { self.new.linked ≤ self.old.linked + 1 }
        ensures new { New self.old self.new (joined self.old place low high) }
        ensures none { IfNone result (self.new.linked ≡ self.old.linked) }
        ensures value { MatchOption result (Lacks self.new (joined self.old place low high)) (λ x. Stands self.new place (joined self.old place low high) x) }
    {
        if low == high {
            return Some(low);
        }
        let n = Node { place, low, high };
        let b = bucket_of(n);
        if let Some(i) = self.find(b, n) {
            return Some(Ref::Node(i));
        }
        if self.linked >= self.cap {
            return None;
        }
        let at = self.push(b, n);
        end.at = self.linked;
        Some(Ref::Node(at))
    }
}
