// Interrupts: entry and return.
ghost use Rattle.std.specs.Prelude.{◌≡◌};
ghost use Rattle.dlx.specs.Interrupts.{entered, interrupted, returned};

use dlx::interrupt::level;
use dlx::partition::Processor;

// The handler's state, with the pair and the datum that it finds saved.
fn enter(p: Processor, causes: u32, edpc: u32, epc: u32, edata: u32) -> Processor
    ensures { result ≡ entered p causes edpc epc edata }
{
    Processor {
        dpc: 0,
        pc: 4,
        sr: 0,
        esr: p.sr,
        eca: causes,
        epc,
        edpc,
        edata,
        mode: 0,
        emode: p.mode,
    }
}

// Interrupt entry by the masked cause word. The datum is what its level brings for EDATA, if it brings one.
pub fn interrupt(p: Processor, causes: u32, datum: u32) -> Processor
    ensures { result ≡ interrupted p causes datum }
{
    let behind = std::num::wrapping_add_u32(p.pc, 4);
    match level(causes) {
        // the levels of Partition::ILL, MAL, PFF, PFLS, TRAP and TIMER
        1 => enter(p, causes, p.dpc, p.pc, p.edata),
        2 => enter(p, causes, p.dpc, p.pc, p.edata),
        3 => enter(p, causes, p.dpc, p.pc, datum),
        4 => enter(p, causes, p.dpc, p.pc, datum),
        5 => enter(p, causes, p.pc, behind, datum),
        13 => enter(p, causes, p.dpc, p.pc, p.edata),
        _ => enter(p, causes, p.pc, behind, p.edata),
    }
}

// rfe.
pub fn return_from_exception(p: Processor) -> Processor
    ensures { result ≡ returned p }
{
    let mut r = p;
    r.dpc = p.edpc;
    r.pc = p.epc;
    r.sr = p.esr;
    r.mode = p.emode;
    r
}
