// The pieces of a line: its port tests cut into blocks, each piece turned into what it asks of
// the bits at each place.
#![tactic(auto)]

pub mod block;
pub mod piece;
