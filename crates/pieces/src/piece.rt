pub mod asking;
pub mod parting;

use crate::block::{Block, Blocks};
use acl::line::Line;

// A piece of a line: the headers that it fits whose ports are in these two blocks.
#[derive(Clone, Copy)]
pub struct Piece {
    pub line: Line,
    pub from: Block,
    pub to: Block,
}

// The pieces of a line, one after another: those of the source block `from` with the
// destination blocks that are left, and then those of the source blocks that are left.
#[derive(Clone, Copy)]
pub struct Pieces {
    line: Line,
    from: Block,
    sources: Blocks,
    destinations: Blocks,
}
