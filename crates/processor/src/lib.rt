// The processor as code: a word read as an instruction, the instruction executed, and its effect put to work, each equal to its definition in `dlx`.
#![tactic(auto)]

pub mod execute;
pub mod fields;
pub mod instruction;
pub mod interrupt;
pub mod special;
pub mod timer;
pub mod words;
