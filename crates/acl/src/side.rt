ghost use Rattle.std.specs.Prelude.{◌≡◌, ◌^◌, ◌<◌, true, bit_and};
ghost use Rattle.acl.specs.Terms.{ordered, ports_narrow};

use crate::terms::PortTest;

// One side of a line. A wildcard bit of 1 means that this address bit is ignored;
// such bits of the address are 0, and a range never runs backward.
#[derive(Clone, Copy, Debug, PartialEq, Eq)]
pub struct Side {
    pub address: u32,
    pub wildcard: u32,
    pub ports: PortTest,
    ghost cleared: { bit_and address wildcard ≡ 0 },
    ghost forward: { ordered ports ≡ true },
    ghost address_width: { address < 2 ^ 32 },
    ghost wildcard_width: { wildcard < 2 ^ 32 },
    ghost ports_width: { ports_narrow ports ≡ true },
}
