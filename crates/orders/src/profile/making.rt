// Profiles are checked, made and read.
ghost use Rattle.std.specs.Prelude.{◌≡◌, ℕ, ◌<◌, Ok, Err, MatchOption, slice_index};
ghost use Rattle.acl.specs.Headers.{width};
ghost use Rattle.orders.specs.Perms.{HoldsOnce, EachOnce, read_at, Checked, Made};
ghost use Rattle.std.proofs.Common.{rules, arith};

use super::Profile;
use crate::order::Order;
use acl::header::WIDTH;
use acl::refusal::Refusal;
use std::array;

// The place of each number, if the list holds each of 0 to 103 once. A number that is taken
// already stands twice; 104 different ones are all of them, so that none is left without.
fn inverse(list: &[u16]) -> Option<[u8; WIDTH]>
    ensures { MatchOption result (EachOnce list.now → ⊥) (λ places. EachOnce list.now × ((p : ℕ) → p < width → slice_index places (slice_index list.now p) ≡ p)) }
{
    if list.len() != WIDTH {
        return None;
    }
    let mut taken = [false; WIDTH];
    let mut places = [0u8; WIDTH];
    for (place, bit) in list.iter().enumerate() {
        let bit = usize::from(*bit);
        if *taken.get(bit)? {
            return None;
        }
        taken[bit] = true;
        places[bit] = place as u8;
    }
    Some(places)
}

impl Profile {
    // Whether a list is a profile: 104 numbers that hold each of 0 to 103 once.
    pub fn check(list: &[u16]) -> Result<(), Refusal>
        ensures { Checked list.now result }
    {
        inverse(list).ok_or(Refusal::BadProfile)?;
        Ok(())
    }

    // The profile that a list gives by place. Made from what the check refuses, it is the plain
    // order.
    pub fn make(list: &[u16]) -> Profile
        ensures { Made list.now (read_at result.bits) }
    {
        let Some(places) = inverse(list) else {
            return Profile::plain();
        };
        let bits = array::from_fn(|place| list[place] as u8);
        Profile { bits, places }
    }

    fn plain() -> Profile
        ensures { (p : ℕ) → p < width → slice_index result.bits p ≡ p }
    {
        let bits = array::from_fn(|place| place as u8);
        Profile { bits, places: bits }
    }
}

impl Order for Profile {
    ghost bits = { λ s. read_at s.bits };

    ghost places = { λ s. read_at s.places };

    ghost laws = { Prim.search rules };

    fn bit_at(&self, place: usize) -> usize {
        self.bits.get(place).map_or(WIDTH, |&bit| bit.into())
    }

    fn place_of(&self, bit: usize) -> usize {
        self.places.get(bit).map_or(WIDTH, |&place| place.into())
    }
}
