// Tests of both sides of each limit, and of what memory holds afterwards.
#![tactic(auto)]

#[cfg(test)]
mod common;
#[cfg(test)]
mod fitting;
#[cfg(test)]
mod reading;
#[cfg(test)]
mod reporting;
#[cfg(test)]
mod writing;
