// The engine without shadows: steps of a guest on lent arrays. Every access walks the guest's table, and nothing is kept.
#![tactic(auto)]

ghost use Rattle.std.specs.Prelude.{◌≡◌, ℕ, true, List, length};
ghost use Rattle.dlx.specs.Fields.{aligned, storing, width, placed};
ghost use Rattle.dlx.specs.declared.partition.Timer.{Timer};
ghost use Rattle.dlx.specs.Machine.{core, fetched, Asks, accessed_at, retabled, step_at, stretch_from};
ghost use Rattle.tickets.specs.Queues.{queues, desk, Seated};
ghost use Rattle.addresses.specs.Premises.{Placed};
ghost use Rattle.unshadowed.specs.Memory.{unshadowed, sought, sought_read, sought_written, unshadowed_memory};
ghost use Rattle.unshadowed.specs.Answers.{step_of, stretch_of};

use dlx::execute::{Change, Effect};
use dlx::partition::{Partition, Processor, Table, Timer};
use dlx::words::wide;

// What a step leaves beside the arrays, and whether the guest calls the hypervisor: a trap taken in system mode.
#[derive(Clone, Copy)]
pub struct Stepped {
    pub processor: Processor,
    pub table: Table,
    pub timer: Timer,
    pub calls: bool,
}

// What a stretch leaves beside the arrays: how many steps were made, and whether the last one called.
#[derive(Clone, Copy)]
pub struct Stretched {
    pub processor: Processor,
    pub table: Table,
    pub timer: Timer,
    pub made: u32,
    pub called: bool,
}

// The entry that the guest's table and the host's list give for an access at address a, or the fault's number.
fn seek(words: &[u32], frames: &[u32], pages: u32, t: Table, user: bool, a: u32) -> u32
    requires { Placed frames.now pages (length words.now) }
    ensures { result ≡ sought frames.now pages (unshadowed t words.now) user a }
{
    if user {
        return translate::walk(words, frames, pages, t, a / 4096);
    }
    translate::straight(frames, pages, a)
}

// The word at address a, or the fault's number.
fn load(words: &[u32], frames: &[u32], pages: u32, t: Table, user: bool, a: u32) -> Result<u32, u32>
    requires { Placed frames.now pages (length words.now) }
    ensures { result ≡ sought_read (unshadowed t words.now) a (sought frames.now pages (unshadowed t words.now) user a) }
{
    let e = seek(words, frames, pages, t, user, a);
    if e / 2048 % 2 == 1 {
        return Ok(words[wide(e / 4096) * 1024 + wide(a / 4 % 1024)]);
    }
    Err(e)
}

// The word at address a after a store of v by an opcode, or the translation fault's number.
fn store(
    words: &mut [u32],
    frames: &[u32],
    pages: u32,
    t: Table,
    user: bool,
    o: u32,
    a: u32,
    v: u32,
) -> Result<(), u32>
    requires placed { Placed frames.now pages (length words.old) }
    requires storing { storing o ≡ true }
    requires aligned { aligned (width o) a ≡ true }
    ensures { (result, unshadowed t words.new) ≡ sought_written (unshadowed t words.old) a (placed o a v) (sought frames.now pages (unshadowed t words.old) user a) }
{
    let e = seek(words, frames, pages, t, user, a);
    if e / 2048 % 2 != 1 {
        return Err(e);
    }
    if e / 1024 % 2 == 1 {
        return Err(6);
    }
    let off = a / 4 % 1024;
    let base = wide(e / 4096) * 1024;
    let end = base + 1024;
    translate::put(&mut words[base..end], wide(off), o, a, v);
    Ok(())
}

// The fetch at DPC, and what its word asks for. A fault is the latest then.
fn fetch(
    p: Processor,
    t: Table,
    k: Timer,
    pages: u32,
    regs: &[u32],
    frames: &[u32],
    words: &[u32],
    latest: &mut u32,
) -> Effect
    requires regs_length { length regs.now ≡ 32 }
    requires placed { Placed frames.now pages (length words.now) }
    ensures { ((result, core p regs.now latest.new k), unshadowed t words.now) ≡ fetched (unshadowed_memory frames.now pages) (core p regs.now latest.old k, unshadowed t words.now) }
{
    let dpc = p.dpc;
    if dpc % 4 != 0 {
        return Effect::Done(Change::Cause(Partition::MAL, 0));
    }
    match load(words, frames, pages, t, p.mode == 1, dpc) {
        Err(n) => {
            *latest = n;
            Effect::Done(Change::Cause(Partition::PFF, dpc))
        }
        Ok(w) => processor::execute::execute(
            p,
            t,
            k,
            regs,
            processor::instruction::read_instruction(w),
        ),
    }
}

// The data access, where the instruction asks for one. A ticket that it takes stands in register 1 then, and a fault is the latest.
fn access(
    p: Processor,
    t: Table,
    pages: u32,
    regs: &mut [u32],
    frames: &[u32],
    words: &mut [u32],
    count: u32,
    i: u32,
    tickets: &mut [u32],
    waiting: &mut [u32],
    latest: &mut u32,
    e: Effect,
) -> Change
    requires regs_length { length regs.old ≡ 32 }
    requires placed { Placed frames.now pages (length words.old) }
    requires seated { Seated count i (queues tickets.old waiting.old) }
    requires asks { Asks e }
    ensures { (k : Timer) → (((result, core p regs.new latest.new k), unshadowed t words.new), queues tickets.new waiting.new) ≡ accessed_at (unshadowed_memory frames.now pages) (desk count i) (core p regs.old latest.old k) e (unshadowed t words.old) (queues tickets.old waiting.old) }
{
    let next = std::num::wrapping_add_u32(p.pc, 4);
    match e {
        Effect::Done(c) => c,
        Effect::Load(rd, a, o) => match load(words, frames, pages, t, p.mode == 1, a) {
            Err(n) => {
                *latest = n;
                Change::Cause(Partition::PFLS, a)
            }
            Ok(w) => Change::Plain(rd, processor::fields::bring(o, a, w), next),
        },
        Effect::Store(o, a, v) => {
            match store(words, frames, pages, t, p.mode == 1, o, a, v) {
                Err(n) => {
                    *latest = n;
                    Change::Cause(Partition::PFLS, a)
                }
                Ok(()) => Change::Plain(0, 0, next),
            }
        }
        Effect::Send(v, to) => {
            let code = receipt::send(count, tickets, waiting, v, to);
            Change::Plain(3, code, next)
        }
        Effect::Take => {
            let code = receipt::receive(regs, i, tickets, waiting);
            Change::Plain(3, code, next)
        }
    }
}

// The table after a change.
fn retable(t: Table, c: Change) -> Table
    ensures { (fr ws : List ℕ) (n : ℕ) → unshadowed result ws ≡ retabled (unshadowed_memory fr n) c (unshadowed t ws) }
{
    match c {
        Change::Plain(_, _, _) => t,
        Change::Special(_, _) => t,
        Change::Retable(n) => n,
        Change::Cause(_, _) => t,
        Change::Return => t,
    }
}

// One step: fetch, data access, the change, and the table after it.
pub fn step(
    p: Processor,
    t: Table,
    k: Timer,
    pages: u32,
    regs: &mut [u32],
    frames: &[u32],
    words: &mut [u32],
    count: u32,
    i: u32,
    tickets: &mut [u32],
    waiting: &mut [u32],
    latest: &mut u32,
) -> Stepped
    requires regs_length { length regs.old ≡ 32 }
    requires placed { Placed frames.now pages (length words.old) }
    requires seated { Seated count i (queues tickets.old waiting.old) }
    ensures { step_of result regs.new latest.new words.new (queues tickets.new waiting.new) ≡ step_at (unshadowed_memory frames.now pages) (desk count i) (core p regs.old latest.old k, unshadowed t words.old) (queues tickets.old waiting.old) }
{
    let e = fetch(p, t, k, pages, regs, frames, words, latest);
    let change = access(
        p, t, pages, regs, frames, words, count, i, tickets, waiting, latest, e,
    );
    let s = processor::execute::pass(p, regs, change);
    let d = processor::execute::settle(s.processor, k, change);
    let table = retable(t, change);
    let processor = d.processor;
    let timer = d.timer;
    Stepped {
        processor,
        table,
        timer,
        calls: d.calls,
    }
}

// Up to n steps of one partition, ending early after one that calls the hypervisor.
pub fn stretch(
    p: Processor,
    t: Table,
    k: Timer,
    pages: u32,
    regs: &mut [u32],
    frames: &[u32],
    words: &mut [u32],
    count: u32,
    i: u32,
    tickets: &mut [u32],
    waiting: &mut [u32],
    latest: &mut u32,
    n: u32,
) -> Stretched
    requires regs_length { length regs.old ≡ 32 }
    requires placed { Placed frames.now pages (length words.old) }
    requires seated { Seated count i (queues tickets.old waiting.old) }
    ensures { stretch_of result regs.new latest.new words.new (queues tickets.new waiting.new) ≡ stretch_from (unshadowed_memory frames.now pages) (desk count i) n 0 (core p regs.old latest.old k, unshadowed t words.old) (queues tickets.old waiting.old) }
{
    let mut processor = p;
    let mut table = t;
    let mut timer = k;
    for left in (0..n).rev() {
        let s = step(
            processor, table, timer, pages, regs, frames, words, count, i, tickets, waiting, latest,
        );
        processor = s.processor;
        table = s.table;
        timer = s.timer;
        if s.calls {
            return Stretched {
                processor,
                table,
                timer,
                made: n - left,
                called: true,
            };
        }
    }
    Stretched {
        processor,
        table,
        timer,
        made: n,
        called: false,
    }
}
