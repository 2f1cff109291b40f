// The DLX rules of the guest machine, with no memory in them: docs/RULES.md has them in words.
#![tactic(auto)]

pub mod execute;
pub mod instruction;
pub mod interrupt;
pub mod partition;
pub mod words;
