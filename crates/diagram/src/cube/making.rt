ghost use Rattle.std.specs.Prelude.{◌≡◌};

use super::Cube;
use acl::header::WIDTH;
use model::ask::Ask;

impl Cube {
    // The piece that asks this at each place, and the code of its line's verdict.
    pub fn new(asks: [Ask; WIDTH], code: u16) -> Cube
        ensures asks { result.asks ≡ asks }
        ensures code { result.code ≡ code }
    {
        let mut next = [WIDTH as u8; WIDTH];
        let mut coming = WIDTH as u8;
        for place in (0..WIDTH).rev() {
            if asks[place].is_some() {
                coming = place as u8;
            }
            next[place] = coming;
        }
        Cube { asks, next, code }
    }
}
