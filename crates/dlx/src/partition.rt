// The partition: its page count, its processor, its table's registers, its timer, its step counter and its latest translation fault. Its 32 registers are lent
// beside it.
ghost use Rattle.std.specs.Prelude.{◌≡◌};
ghost use Rattle.dlx.specs.Processor.{fresh_of};

// PTO and PTL: where the guest's page table begins, in pages, and how many entries it has. Nothing but a change of table changes them.
#[derive(Clone, Copy)]
pub struct Table {
    pub pto: u32,
    pub ptl: u32,
}

// The program counters and the special registers but those of the table and the timer.
#[derive(Clone, Copy)]
pub struct Processor {
    pub dpc: u32,
    pub pc: u32,
    pub sr: u32,
    pub esr: u32,
    pub eca: u32,
    pub epc: u32,
    pub edpc: u32,
    pub edata: u32,
    pub mode: u32,
    pub emode: u32,
}

// TCOUNT and TLOAD: how many of its own steps a partition has until its timer's interrupt, 0 where none will come, and what TCOUNT becomes then.
#[derive(Clone, Copy)]
pub struct Timer {
    pub tcount: u32,
    pub tload: u32,
}

#[derive(Clone, Copy)]
pub struct Partition {
    pub pages: u32,
    pub processor: Processor,
    pub table: Table,
    pub timer: Timer,
    pub counter: u64,
    pub fault: u32,
}

impl Partition {
    // The special registers' numbers.
    pub const SR: u32 = 0;

    pub const ESR: u32 = 1;

    pub const ECA: u32 = 2;

    pub const EPC: u32 = 3;

    pub const EDPC: u32 = 4;

    pub const EDATA: u32 = 5;

    pub const MODE: u32 = 6;

    pub const PTO: u32 = 7;

    pub const PTL: u32 = 8;

    pub const EMODE: u32 = 9;

    pub const TCOUNT: u32 = 10;

    pub const TLOAD: u32 = 11;

    // The bits of the cause word: ill is bit 1, ovf bit 6, the timer's bit 13.
    pub const ILL: u32 = 2;

    pub const MAL: u32 = 4;

    pub const PFF: u32 = 8;

    pub const PFLS: u32 = 16;

    pub const TRAP: u32 = 32;

    pub const OVF: u32 = 64;

    pub const TIMER: u32 = 8192;

    // The state of a partition with so many pages at boot.
    pub fn fresh(pages: u32) -> Partition
        ensures { result ≡ fresh_of pages }
    {
        Partition {
            pages,
            processor: Processor {
                dpc: 0,
                pc: 4,
                sr: 0,
                esr: 0,
                eca: 0,
                epc: 0,
                edpc: 0,
                edata: 0,
                mode: 0,
                emode: 0,
            },
            table: Table { pto: 0, ptl: 0 },
            timer: Timer {
                tcount: 0,
                tload: 0,
            },
            counter: 0,
            fault: 0,
        }
    }
}
