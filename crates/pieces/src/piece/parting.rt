// Lines are parted into pieces.
ghost use Rattle.std.specs.Prelude.{◌≡◌};
ghost use Rattle.acl.specs.Shapes.{shape};
ghost use Rattle.pieces.specs.Pieces.{pieces, PiecesStand};
ghost use Rattle.pieces.specs.Left.{piece_shape, pieces_left};
ghost use Rattle.std.specs.Iterator.{YieldsFirstBy, item_count};

use super::{Piece, Pieces};
use crate::block::{Block, Blocks};
use acl::line::Line;

impl Pieces {
    // The pieces of a line: its source blocks upwards, and for each its destination blocks
    // upwards.
    #[tactic(auto, unfolding(crate::specs::Pieces::pieces))]
    pub fn of(line: Line) -> Pieces
        ensures left { pieces_left result ≡ pieces (shape line) }
        ensures stands { PiecesStand (shape line) }
    {
        let from = Block {
            start: 0,
            exponent: 0,
        };
        Pieces {
            line,
            from,
            sources: Blocks::of(line.source.ports),
            destinations: Blocks::none(),
        }
    }
}

impl Iterator for Pieces {
    type Item = Piece;

    ghost next_gives = { YieldsFirstBy piece_shape pieces_left };

    ghost remaining = { item_count pieces_left };

    // Where the current source block has no destination block left, the next one starts over
    // with the first.
    fn next(&mut self) -> Option<Piece> {
        let to = match self.destinations.next() {
            Some(to) => to,
            None => {
                self.from = self.sources.next()?;
                self.destinations = Blocks::of(self.line.destination.ports);
                self.destinations.next()?
            }
        };
        Some(Piece {
            line: self.line,
            from: self.from,
            to,
        })
    }
}
