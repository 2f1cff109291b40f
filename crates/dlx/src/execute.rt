// What an instruction executed comes to: an effect in numbers, and what is left once it is put to work.
use crate::partition::{Processor, Table, Timer};

// What a step comes to once its data access is done.
#[derive(Clone, Copy)]
pub enum Change {
    // A register becomes a value, and the PC a target.
    Plain(usize, u32, u32),
    // A special register but PTO and PTL becomes a value.
    Special(u32, u32),
    // PTO or PTL changes.
    Retable(Table),
    // An interrupt: its masked cause word, and its datum.
    Cause(u32, u32),
    // rfe.
    Return,
}

// What an instruction asks for: a change, or first a load of a register from an address by an opcode, a store by an opcode to an address of a value, a ticket
// sent to a partition, or one taken. The order of the fields decides what a step costs (docs/SPEED.md).
#[derive(Clone, Copy)]
pub enum Effect {
    Done(Change),
    Load(usize, u32, u32),
    Store(u32, u32, u32),
    Send(u32, u32),
    Take,
}

// A step's processor and timer, and whether the guest calls the hypervisor: a trap taken in system mode.
#[derive(Clone, Copy)]
pub struct Settled {
    pub processor: Processor,
    pub timer: Timer,
    pub calls: bool,
}
