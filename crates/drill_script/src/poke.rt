// Any value in any place of a house, by the place's index.
ghost use Rattle.std.specs.Prelude.{◌≡◌};
ghost use Rattle.drill_script.specs.Poke.{scalar_poked, own_poked, poked};

use dlx::partition::Partition;
use dlx::words::wide;
use house::{ALL_ENTRIES, House};

// Where the places of the queues, and how many wait in each, begin and end.
const TICKETS: u32 = 2461 + ALL_ENTRIES as u32;

const WAITING: u32 = TICKETS + 256;

const END: u32 = WAITING + 8;

// Scalar k of a partition. Each half of the counter keeps the other.
#[tactic(auto, unfolding(crate::specs::Poke::scalar_poked))]
fn scalar(p: Partition, k: u32, v: u32) -> Partition
    ensures { result ≡ scalar_poked p k v }
{
    let mut r = p;
    match k {
        0 => r.pages = v,
        1 => r.processor.dpc = v,
        2 => r.processor.pc = v,
        3 => r.processor.sr = v,
        4 => r.processor.esr = v,
        5 => r.processor.eca = v,
        6 => r.processor.epc = v,
        7 => r.processor.edpc = v,
        8 => r.processor.edata = v,
        9 => r.processor.mode = v,
        10 => r.table.pto = v,
        11 => r.table.ptl = v,
        12 => r.processor.emode = v,
        13 => r.counter = p.counter / 0x1_0000_0000 * 0x1_0000_0000 + v as u64,
        14 => r.counter = v as u64 * 0x1_0000_0000 + p.counter % 0x1_0000_0000,
        15 => r.fault = v,
        16 => r.timer.tcount = v,
        17 => r.timer.tload = v,
        _ => {}
    }
    r
}

// The house's own numbers.
#[tactic(auto, unfolding(crate::specs::Poke::own_poked))]
fn own(h: House, index: u32, v: u32) -> House
    ensures { result ≡ own_poked h index v }
{
    let mut r = h;
    match index {
        0 => r.count = v,
        1 => r.q = v,
        2 => r.words = v,
        3 => r.current = v,
        4 => r.left = v,
        _ => {}
    }
    r
}

#[tactic(auto, unfolding(crate::specs::Poke::poked))]
pub fn poke(h: House, index: u32, v: u32) -> House
    ensures { result ≡ poked h index v }
{
    let mut r = h;
    match index {
        0..5 => r = own(h, index, v),
        5..13 => r.running[wide(index - 5)] = v != 0,
        13..157 => {
            let i = wide((index - 13) / 18);
            r.parts[i] = scalar(h.parts[i], (index - 13) % 18, v);
        }
        157..413 => r.regs[wide(index - 157)] = v,
        413..2461 => r.frames[wide(index - 413)] = v,
        2461..TICKETS => r.shadows[wide(index - 2461)] = v,
        TICKETS..WAITING => r.tickets[wide(index - TICKETS)] = v,
        WAITING..END => r.waiting[wide(index - WAITING)] = v,
        _ => {}
    }
    r
}
