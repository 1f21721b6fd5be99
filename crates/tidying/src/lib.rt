// What the program `tidy` prints: a list in its canonical form.
#![tactic(auto)]

pub mod tidied;
