// Writes lists back in their canonical form.
#![tactic(auto)]

mod lines;
mod pen;
mod token;
pub mod write;
