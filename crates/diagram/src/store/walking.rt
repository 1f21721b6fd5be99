// Walks over the nodes: deciding, depth, and the first difference of two references.
ghost use Rattle.std.specs.Prelude.{◌≡◌, ℕ, ◌+◌, ◌-◌, ◌<◌, ◌≤◌, false, slice_index_or};
ghost use Rattle.acl.specs.Headers.{width};
ghost use Rattle.model.specs.Diagram.{top, tests_from, first_from};
ghost use Rattle.diagram.specs.Nodes.{Under};
ghost use Rattle.diagram.specs.Stores.{nodes_of, value_in, Fits};
ghost use Rattle.diagram.specs.Walks.{row_of, deepest, DeepNoted};

use super::{NODES, Store};
use acl::header::WIDTH;
use model::node::Ref;

impl Store {
    // The code that a reference gives to bits by place, and the tests made, those before it
    // included. Nothing is left to do after the way on was taken, so that this is a loop when built.
    pub(crate) fn decide(&self, bits: &[bool; WIDTH], r: Ref, made: u16) -> (u16, u16)
        requires under { Under self.now.linked r }
        requires few { made ≤ top width (nodes_of self.now) r }
        ensures code { result.0 ≡ value_in self.now r (row_of bits.now) }
        ensures tests { result.1 ≡ made + tests_from width (nodes_of self.now) width 0 (row_of bits.now) r }
    {
        match r {
            Ref::Code(c) => (c, made),
            Ref::Node(i) => {
                let n = self.nodes[i as usize];
                let bit = bits[n.place as usize];
                let on = if bit { n.high } else { n.low };
                self.decide(bits, on, made + 1)
            }
        }
    }

    // The most tests from a reference on. Each node's number is noted once it is known.
    pub(crate) fn depth(&self, deep: &mut [Option<u8>; NODES], r: Ref) -> u8
        requires under { Under self.now.linked r }
        requires noted { DeepNoted self.now deep.old }
        ensures noted { DeepNoted self.now deep.new }
        ensures value { result ≡ deepest self.now r }
        ensures small { result + top width (nodes_of self.now) r ≤ width }
    {
        match r {
            Ref::Code(_) => 0,
            Ref::Node(i) => {
                if let Some(known) = deep[i as usize] {
                    return known;
                }
                let n = self.nodes[i as usize];
                let low = self.depth(deep, n.low);
                let high = self.depth(deep, n.high);
                let most = low.max(high) + 1;
                deep[i as usize] = Some(most);
                most
            }
        }
    }

    // The first bits from the place `from` on at which two references differ: 0 where that tells
    // them apart, else 1.
    pub(crate) fn differ(&self, bits: &mut [bool; WIDTH], from: u8, a: Ref, b: Ref)
        requires placed { from ≤ width }
        requires one { Fits self.now from a }
        requires other { Fits self.now from b }
        ensures before { (k : ℕ) → k < from → slice_index_or bits.new k false ≡ slice_index_or bits.old k false }
        ensures row { (k : ℕ) → from ≤ k → k < width → slice_index_or bits.new k false ≡ first_from (nodes_of self.now) (width - from) from a b k }
    {
        if from >= WIDTH as u8 {
            return;
        }
        let (low_a, high_a) = self.branches(from, a);
        let (low_b, high_b) = self.branches(from, b);
        let same = low_a == low_b;
        bits[from as usize] = same;
        if same {
            self.differ(bits, from + 1, high_a, high_b);
        } else {
            self.differ(bits, from + 1, low_a, low_b);
        }
    }
}
