// Reads a numbered access list of Cisco IOS into the caller's line memory.
#![tactic(auto)]

pub mod entry;
pub mod family;
mod numbering;
pub mod outcome;
mod parse;
mod ports;
pub mod read;
pub mod said;
pub mod shown;
mod sides;
pub mod state;
mod terms;
