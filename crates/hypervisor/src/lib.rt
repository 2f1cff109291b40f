// The calls of the house as code, each equal to its definition in `house`.
#![tactic(auto)]

pub mod calls;
pub mod run;
mod single;
