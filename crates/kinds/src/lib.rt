// Verdict kinds: what a list says of a header, and how it is told by a number.
#![tactic(auto)]

pub mod bare;
pub mod heard;
pub mod hearing;
pub mod kind;
pub mod numbered;
