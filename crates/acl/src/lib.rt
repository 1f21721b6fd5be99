// Headers, the lines of an access list, and the first line that a header fits.
#![tactic(auto)]

pub mod fitting;
pub mod header;
pub mod line;
pub mod refusal;
pub mod side;
pub mod terms;
