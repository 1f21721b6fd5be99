// The two orders that are given by formula.
ghost use Rattle.std.specs.Prelude.{◌≡◌};
ghost use Rattle.orders.specs.Fixed.{straight, woven_bit, woven_place};
ghost use Rattle.std.proofs.Common.{rules};

use crate::order::Order;
use acl::header::WIDTH;

// The plain order tests bit p at place p.
#[derive(Clone, Copy, Debug, PartialEq, Eq)]
pub struct Plain;

impl Order for Plain {
    ghost bits = { λ _. straight };

    ghost places = { λ _. straight };

    ghost laws = { Prim.search rules };

    fn bit_at(&self, place: usize) -> usize {
        place.min(WIDTH)
    }

    fn place_of(&self, bit: usize) -> usize {
        bit.min(WIDTH)
    }
}

// The woven order tests the source and the destination in turn, bit by bit from the top, and
// then the other fields as the plain one does.
#[derive(Clone, Copy, Debug, PartialEq, Eq)]
pub struct Woven;

impl Order for Woven {
    ghost bits = { λ _. woven_bit };

    ghost places = { λ _. woven_place };

    ghost laws = { Prim.search rules };

    fn bit_at(&self, place: usize) -> usize {
        match place {
            0..64 if place % 2 == 0 => place / 2,
            0..64 => 32 + place / 2,
            _ => place.min(WIDTH),
        }
    }

    fn place_of(&self, bit: usize) -> usize {
        match bit {
            0..32 => 2 * bit,
            32..64 => 2 * (bit - 32) + 1,
            _ => bit.min(WIDTH),
        }
    }
}
