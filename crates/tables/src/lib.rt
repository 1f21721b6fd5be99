// Tests of orders, kinds, blocks, pieces and the node table against tables.
#![tactic(auto)]

#[cfg(test)]
mod common;
#[cfg(test)]
mod cutting;
#[cfg(test)]
mod laying;
#[cfg(test)]
mod ordering;
