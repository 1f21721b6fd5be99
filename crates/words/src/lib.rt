// The text lines of a text, the words of a text line, and the numbers and addresses that words write.
#![tactic(auto)]

mod bytes;
pub mod keyword;
pub mod lines;
pub mod numbers;
pub mod part;
pub mod words;
