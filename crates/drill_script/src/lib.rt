// Scripts of calls: their words, their commands, and what the commands that are no calls do.
#![tactic(auto)]

pub mod commands;
pub mod poke;
pub mod words;
