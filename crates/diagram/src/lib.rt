// The node table: diagrams of at most 2,048 nodes in fixed memory, laid piece by piece.
#![tactic(auto)]

pub mod cube;
pub mod guard;
pub mod store;
pub mod table;
