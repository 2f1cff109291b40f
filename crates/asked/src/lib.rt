// What noon is asked for: its words, one after the other.
#![tactic(auto)]

pub mod asked;
pub mod words;
