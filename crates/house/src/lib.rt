// The house: one state for up to 8 partitions. Partition i's registers stand at 32 * i, its frame list at 256 * i, its shadow at ENTRIES * i.
#![tactic(auto)]

mod refusal;

ghost use Rattle.std.specs.Prelude.{◌≡◌};
ghost use Rattle.house.specs.House.{no_house};

use addresses::ENTRIES;
use dlx::partition::Partition;
pub use refusal::Refusal;

// The shadow entries of all partitions.
pub const ALL_ENTRIES: usize = 8 * ENTRIES;

#[derive(Clone, Copy)]
pub struct House {
    pub count: u32,
    pub q: u32,
    pub words: u32,
    pub current: u32,
    pub left: u32,
    pub running: [bool; 8],
    pub parts: [Partition; 8],
    pub regs: [u32; 256],
    pub frames: [u32; 2048],
    pub shadows: [u32; ALL_ENTRIES],
    pub tickets: [u32; 256],
    pub waiting: [u32; 8],
}

// Whose turn it is, and how many steps it has left; none current is 0 and 0.
#[derive(Clone, Copy)]
pub struct Turn {
    pub current: u32,
    pub left: u32,
}

// What a call that is done answers: the detail that the rules give it, and the house.
#[derive(Clone, Copy)]
pub struct Done {
    pub detail: u64,
    pub house: House,
}

// A refused call leaves the house that it was given.
pub type Answer = Result<Done, Refusal>;

impl House {
    // The house of no partitions, every number in it 0.
    pub fn none() -> House
        ensures { result ≡ no_house }
    {
        let mut unused = Partition::fresh(0);
        unused.processor.pc = 0;
        let running = [false; 8];
        let parts = [unused; 8];
        let regs = [0u32; 256];
        let frames = [0u32; 2048];
        let shadows = [0u32; ALL_ENTRIES];
        let tickets = [0u32; 256];
        let waiting = [0u32; 8];
        House {
            count: 0,
            q: 0,
            words: 0,
            current: 0,
            left: 0,
            running,
            parts,
            regs,
            frames,
            shadows,
            tickets,
            waiting,
        }
    }
}
