// Orders of a header's bits: which bit is tested at each place.
#![tactic(auto)]

pub mod before;
pub mod fixed;
pub mod order;
pub mod profile;
