// The special registers by number, and the two program counters.
ghost use Rattle.std.specs.Prelude.{◌≡◌};
ghost use Rattle.dlx.specs.Processor.{special_of, with_special, with_count, went_to};

use dlx::partition::{Partition, Processor, Table, Timer};

// The special register of number n, at most 11, as movs2i reads it.
pub fn special(p: Processor, t: Table, k: Timer, n: u32) -> u32
    ensures { result ≡ special_of p t k n }
{
    match n {
        Partition::SR => p.sr,
        Partition::ESR => p.esr,
        Partition::ECA => p.eca,
        Partition::EPC => p.epc,
        Partition::EDPC => p.edpc,
        Partition::EDATA => p.edata,
        Partition::MODE => p.mode,
        Partition::PTO => t.pto,
        Partition::PTL => t.ptl,
        Partition::EMODE => p.emode,
        Partition::TCOUNT => k.tcount,
        _ => k.tload,
    }
}

// The processor with v in the special register of number n. Those of the table and the timer do not stand in it.
pub fn set_special(p: Processor, n: u32, v: u32) -> Processor
    ensures { result ≡ with_special p n v }
{
    let mut r = p;
    match n {
        Partition::SR => {
            r.sr = v;
            r
        }
        Partition::ESR => {
            r.esr = v;
            r
        }
        Partition::ECA => {
            r.eca = v;
            r
        }
        Partition::EPC => {
            r.epc = v;
            r
        }
        Partition::EDPC => {
            r.edpc = v;
            r
        }
        Partition::EDATA => {
            r.edata = v;
            r
        }
        Partition::MODE => {
            r.mode = v % 2;
            r
        }
        Partition::EMODE => {
            r.emode = v % 2;
            r
        }
        _ => r,
    }
}

// The timer with v in the special register of number n, where it is one of its two.
pub fn set_count(k: Timer, n: u32, v: u32) -> Timer
    ensures { result ≡ with_count k n v }
{
    let mut r = k;
    match n {
        Partition::TCOUNT => {
            r.tcount = v;
            r
        }
        Partition::TLOAD => {
            r.tload = v;
            r
        }
        _ => r,
    }
}

// On to the delayed instruction, with the target behind it.
pub fn go(p: Processor, target: u32) -> Processor
    ensures { result ≡ went_to p target }
{
    let mut r = p;
    r.dpc = p.pc;
    r.pc = target;
    r
}
