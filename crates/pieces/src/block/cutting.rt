// Port tests are cut into blocks.
ghost use Rattle.std.specs.Prelude.{◌≡◌, ◌^◌, ◌<◌, ◌≤◌, [], length};
ghost use Rattle.pieces.specs.Blocks.{goes, largest, between, blocks, BlocksStand};
ghost use Rattle.pieces.specs.Left.{block_shape, ports_left, blocks_left};
ghost use Rattle.std.specs.Iterator.{YieldsFirstBy, item_count};

use super::{Block, Blocks, Ports};
use acl::terms::PortTest;

// One more than the highest port.
const PORTS: u32 = 65536;

impl Block {
    // How many ports the block has, 1 to 65,536.
    pub fn size(self) -> u32
        ensures { result ≡ 2 ^ self.exponent }
    {
        1 << self.exponent
    }
}

impl Ports {
    fn new(at: u32, end: u32) -> Ports
        requires { end ≤ 65536 }
        ensures { ports_left result ≡ between at end }
    {
        Ports { at, end }
    }

    // Whether a block of 2 ^ exponent ports can start at `at`: at a multiple of its size, and
    // staying below `end`.
    fn can_start(self, exponent: u32) -> bool
        requires { (exponent ≤ 16) × (self.at ≤ 65536) }
        ensures { result ≡ goes exponent self.at self.end }
    {
        let size = 1 << exponent;
        self.at % size == 0 && self.at + size <= self.end
    }

    // The largest block that can start at `at`: one of a single port always can.
    fn largest_exponent(self) -> u32
        requires { self.at < self.end }
        ensures { result ≡ largest 16 self.at self.end }
    {
        (1..=16)
            .rev()
            .find(|exponent| self.can_start(*exponent))
            .unwrap_or(0)
    }
}

impl Iterator for Ports {
    type Item = Block;

    ghost next_gives = { YieldsFirstBy block_shape ports_left };

    ghost remaining = { item_count ports_left };

    // The largest block at the low end.
    fn next(&mut self) -> Option<Block> {
        if self.at >= self.end {
            return None;
        }
        let block = Block {
            start: self.at,
            exponent: self.largest_exponent(),
        };
        self.at += block.size();
        Some(block)
    }
}

// The blocks of one range of ports.
fn range(at: u32, end: u32) -> Blocks
    requires { end ≤ 65536 }
    ensures left { blocks_left result ≡ between at end }
    ensures few { length (blocks_left result) ≤ end }
{
    Blocks {
        first: Ports::new(at, end),
        second: Ports::new(end, end),
    }
}

impl Blocks {
    // The blocks of a port test, upwards: those of its range, and for neq of the two of them.
    #[tactic(auto, using(crate::proofs::Cuts::length_between), unfolding(crate::specs::Blocks::blocks))]
    pub fn of(test: PortTest) -> Blocks
        ensures left { blocks_left result ≡ blocks test }
        ensures few { length (blocks_left result) ≤ 65536 }
        ensures stands { BlocksStand test }
    {
        match test {
            PortTest::Any => range(0, PORTS),
            PortTest::Eq(n) => range(n as u32, n as u32 + 1),
            PortTest::Neq(n) => Blocks {
                first: Ports::new(0, n as u32),
                second: Ports::new(n as u32 + 1, PORTS),
            },
            PortTest::Lt(n) => range(0, n as u32),
            PortTest::Gt(n) => range(n as u32 + 1, PORTS),
            PortTest::Range(a, b) => range(a as u32, b as u32 + 1),
        }
    }

    // No blocks at all.
    #[tactic(auto, using(crate::proofs::Cuts::between_none))]
    pub(crate) fn none() -> Blocks
        ensures { blocks_left result ≡ [] }
    {
        range(0, 0)
    }
}

impl Iterator for Blocks {
    type Item = Block;

    ghost next_gives = { YieldsFirstBy block_shape blocks_left };

    ghost remaining = { item_count blocks_left };

    fn next(&mut self) -> Option<Block> {
        match self.first.next() {
            None => self.second.next(),
            block => block,
        }
    }
}
