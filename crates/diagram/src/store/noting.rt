// What a laying notes.
ghost use Rattle.std.specs.Prelude.{◌≡◌, ℕ, None, slice_index_or};
ghost use Rattle.diagram.specs.Stores.{told};

use super::{Made, NODES, Notes};
use acl::header::WIDTH;
use model::node::Ref;

// What stands at a node over which nothing was made. Rounds count from 1.
const UNMADE: Made = Made {
    round: 0,
    made: Ref::Code(0),
};

impl Notes {
    pub(crate) fn new() -> Notes {
        Notes {
            made: [UNMADE; NODES],
            past: [None; WIDTH],
            round: 1,
        }
    }

    // Forgets all, by a new round. Past the last number they count from 1 again, and then the nodes
    // are cleared too, since their rounds would come back.
    pub(crate) fn clear(&mut self)
        ensures made { (k : ℕ) → told self.new k ≡ None }
        ensures past { (p : ℕ) → slice_index_or self.new.past p None ≡ None }
    {
        self.past = [None; WIDTH];
        if self.round == u16::MAX {
            self.made = [UNMADE; NODES];
            self.round = 1;
        } else {
            self.round += 1;
        }
    }
}
