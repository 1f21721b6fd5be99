ghost use Rattle.std.specs.Prelude.{◌≡◌, ℕ};
ghost use Rattle.acl.specs.Headers.{width};
ghost use Rattle.orders.specs.Laws.{LawfulOrder};

// An order says which bit of a header is tested at each place. Its meaning is two functions,
// the bit at a place and the place of a bit: below 104 each undoes the other, and from 104 on
// both answer 104.
pub trait Order {
    ghost bits: { Self → ℕ → ℕ };

    ghost places: { Self → ℕ → ℕ };

    fn bit_at(&self, place: usize) -> usize
        ensures { result ≡ bits self.now place };

    fn place_of(&self, bit: usize) -> usize
        ensures { result ≡ places self.now bit };

    ghost laws: { (o : Self) → LawfulOrder width (record { bit_at = bits o; place_of = places o }) };
}
