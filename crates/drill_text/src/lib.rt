// The text that tells of a call: its answer, the house, the memory. A function puts its part behind the first `used` bytes of the text, and gives
// how many there are then.
#![tactic(auto)]

pub mod digest;
pub mod lines;
pub mod numbers;
pub mod partitions;
pub mod queues;

// The most bytes of text.
pub const ROOM: usize = 524288;
