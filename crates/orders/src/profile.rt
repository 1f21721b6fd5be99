ghost use Rattle.std.specs.Prelude.{◌<◌};
ghost use Rattle.orders.specs.Perms.{Undoes};

pub mod making;

use acl::header::WIDTH;

// An order that is stored: the bit at each place, and the place of each bit. Each undoes the
// other, so that only permutations of 0 to 103 are profiles.
#[derive(Clone, Copy)]
pub struct Profile {
    bits: [u8; WIDTH],
    places: [u8; WIDTH],
    ghost sound: { Undoes bits places },
}
