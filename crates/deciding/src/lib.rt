// What the program `firstmatch` prints: the verdict of a list on each of some headers.
#![tactic(auto)]

pub mod answer;
pub mod halves;
pub mod header_line;
pub mod report;
pub mod shown;
