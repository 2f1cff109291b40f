// An instruction executed: from the processor, the table's registers, the timer and the 32 registers to an effect in numbers, and the effect put to work.
ghost use Rattle.std.specs.Prelude.{◌≡◌, ℕ, ◌<◌, true, ◌||◌, List, length};
ghost use Rattle.dlx.specs.Instructions.{Formed};
ghost use Rattle.dlx.specs.Choice.{when◌then◌else◌};
ghost use Rattle.dlx.specs.Fields.{loading, storing};
ghost use Rattle.dlx.specs.declared.execute.Change.TheVariants.{Plain};
ghost use Rattle.dlx.specs.declared.execute.Effect.TheVariants.{Done};
ghost use Rattle.dlx.specs.Execute.{value_of, overflows_of, operated, reached, loads, stores, jumped, in_system, moved_to, trap_of, effect_of, written};
ghost use Rattle.dlx.specs.declared.partition.Timer.{Timer};
ghost use Rattle.dlx.specs.Timer.{ticked, raised};
ghost use Rattle.dlx.specs.Machine.{core, outcome, Places, left, handled};
ghost use Rattle.dlx.specs.Spells.{plainly, passed, turned, retimed, ended};

use crate::interrupt::{interrupt, return_from_exception};
use crate::special::{go, set_count, set_special, special};
use crate::timer::{raise, tick};
use crate::words::{difference_overflows, sum_overflows, test};
use dlx::execute::{Change, Effect, Settled};
use dlx::instruction::{Instruction, Operation};
use dlx::interrupt::level;
use dlx::partition::{Partition, Processor, Table, Timer};

fn value(op: Operation, x: u32, y: u32) -> u32
    ensures { result ≡ value_of op x y }
{
    match op {
        Operation::Add => std::num::wrapping_add_u32(x, y),
        Operation::Sub => std::num::wrapping_sub_u32(x, y),
        Operation::And => x & y,
        Operation::Or => x | y,
        Operation::Xor => x ^ y,
        Operation::Test(k) => test(k, x, y),
    }
}

fn overflows(op: Operation, x: u32, y: u32) -> bool
    ensures { result ≡ overflows_of op x y }
{
    match op {
        Operation::Add => sum_overflows(x, y),
        Operation::Sub => difference_overflows(x, y),
        Operation::And => false,
        Operation::Or => false,
        Operation::Xor => false,
        Operation::Test(_) => false,
    }
}

// The operation's result to register rd, unless it overflows and SR bit 6 lets it interrupt.
fn operate(op: Operation, rd: usize, x: u32, y: u32, sr: u32, next: u32) -> Effect
    ensures { result ≡ operated op rd x y sr next }
{
    let v = value(op, x, y);
    if sr / Partition::OVF % 2 == 1 {
        if overflows(op, x, y) {
            return Effect::Done(Change::Cause(Partition::OVF, 0));
        }
        return Effect::Done(Change::Plain(rd, v, next));
    }
    Effect::Done(Change::Plain(rd, v, next))
}

// An effect that reaches memory at an address by an opcode, if that is aligned: the opcode's lowest two bits are how many bytes it reaches, less one.
fn reach(o: u32, address: u32, e: Effect) -> Effect
    requires { loading o || storing o ≡ true }
    ensures { result ≡ reached o address e }
{
    if address & o % 4 == 0 {
        return e;
    }
    Effect::Done(Change::Cause(Partition::MAL, 0))
}

// movi2s in system mode.
fn move_to(t: Table, n: u32, v: u32) -> Change
    ensures { result ≡ moved_to t n v }
{
    match n {
        Partition::PTO => Change::Retable(Table { pto: v, ptl: t.ptl }),
        Partition::PTL => Change::Retable(Table { pto: t.pto, ptl: v }),
        _ => Change::Special(n, v),
    }
}

// A register becomes a value, and the PC a target.
fn plain(rd: usize, v: u32, target: u32) -> Effect
    ensures { result ≡ Done (Plain rd v target) }
{
    Effect::Done(Change::Plain(rd, v, target))
}

// A load or a store at the sum of a register and an immediate.
fn load(o: u32, rd: usize, x: u32, imm: u32) -> Effect
    requires { loading o ≡ true }
    ensures { result ≡ loads o rd x imm }
{
    let a = std::num::wrapping_add_u32(x, imm);
    reach(o, a, Effect::Load(rd, a, o))
}

fn store(o: u32, v: u32, x: u32, imm: u32) -> Effect
    requires { storing o ≡ true }
    ensures { result ≡ stores o v x imm }
{
    let a = std::num::wrapping_add_u32(x, imm);
    reach(o, a, Effect::Store(o, a, v))
}

// To one target or the other.
fn branch(taken: bool, target: u32, next: u32) -> Effect
    ensures { result ≡ jumped (when taken then target else next) }
{
    if taken {
        return plain(0, 0, target);
    }
    plain(0, 0, next)
}

// Ill in user mode.
fn privileged(p: Processor, e: Effect) -> Effect
    ensures { result ≡ in_system p e }
{
    if p.mode == 1 {
        return Effect::Done(Change::Cause(Partition::ILL, 0));
    }
    e
}

// A trap: in system mode 256 and 257 are the house's, the two numbers whose half is 128.
fn trap(p: Processor, v: u32, to: u32, imm: u32) -> Effect
    ensures { result ≡ trap_of p v to imm }
{
    if p.mode == 1 {
        return Effect::Done(Change::Cause(Partition::TRAP, imm));
    }
    if imm / 2 != 128 {
        return Effect::Done(Change::Cause(Partition::TRAP, imm));
    }
    if imm == 256 {
        return Effect::Send(v, to);
    }
    Effect::Take
}

pub fn execute(p: Processor, t: Table, k: Timer, regs: &[u32], i: Instruction) -> Effect
    requires regs_length { length regs.now ≡ 32 }
    requires formed { Formed i }
    ensures { result ≡ effect_of p t k regs.now i }
{
    let pc = p.pc;
    let next = std::num::wrapping_add_u32(pc, 4);
    match i {
        Instruction::LoadBy(o, rs1, imm, rd) => load(o, rd, regs[rs1], imm),
        Instruction::StoreBy(o, rs1, imm, rd) => store(o, regs[rd], regs[rs1], imm),
        Instruction::Immediate(op, rd, rs1, imm) => operate(op, rd, regs[rs1], imm, p.sr, next),
        Instruction::Lhgi(rd, imm) => plain(rd, imm % 65536 * 65536, next),
        Instruction::Beqz(rs1, imm) => branch(
            regs[rs1] == 0,
            std::num::wrapping_add_u32(pc, imm),
            next,
        ),
        Instruction::Bnez(rs1, imm) => branch(
            regs[rs1] == 0,
            next,
            std::num::wrapping_add_u32(pc, imm),
        ),
        Instruction::Jr(rs1) => plain(0, 0, regs[rs1]),
        Instruction::Jalr(rs1) => plain(31, next, regs[rs1]),
        Instruction::J(imm) => plain(0, 0, std::num::wrapping_add_u32(pc, imm)),
        Instruction::Jal(imm) => plain(31, next, std::num::wrapping_add_u32(pc, imm)),
        Instruction::Trap(imm) => trap(p, regs[1], regs[2], imm),
        Instruction::Rfe => privileged(p, Effect::Done(Change::Return)),
        Instruction::Register(op, rd, rs1, rs2) => operate(
            op, rd, regs[rs1], regs[rs2], p.sr, next,
        ),
        Instruction::Movs2i(rd, n) => privileged(p, plain(rd, special(p, t, k, n), next)),
        Instruction::Movi2s(n, rs1) => privileged(p, Effect::Done(move_to(t, n, regs[rs1]))),
        Instruction::Ill => Effect::Done(Change::Cause(Partition::ILL, 0)),
    }
}

// Register rd becomes v; a write to register 0 vanishes.
pub fn write(regs: &mut [u32], rd: usize, v: u32)
    requires { rd < length regs.old }
    ensures { regs.new ≡ written regs.old rd v }
{
    if rd != 0 {
        regs[rd] = v;
    }
}

// What a plain change leaves: the processor, and whether the change is none.
#[derive(Clone, Copy)]
pub struct Passed {
    pub processor: Processor,
    pub plain: bool,
}

// A plain change made of the processor and the registers, but for the timer. Any other is left alone.
pub fn pass(p: Processor, regs: &mut [u32], c: Change) -> Passed
    requires regs_length { length regs.old ≡ 32 }
    requires places { Places c }
    ensures passed { ((latest : ℕ) (k : Timer) → core result.processor regs.new latest k ≡ passed (core p regs.old latest k) c) }
    ensures plain { result.plain ≡ plainly c }
{
    match c {
        Change::Plain(rd, v, target) => {
            write(regs, rd, v);
            Passed {
                processor: go(p, target),
                plain: true,
            }
        }
        Change::Special(_, _) => Passed {
            processor: p,
            plain: false,
        },
        Change::Retable(_) => Passed {
            processor: p,
            plain: false,
        },
        Change::Cause(_, _) => Passed {
            processor: p,
            plain: false,
        },
        Change::Return => Passed {
            processor: p,
            plain: false,
        },
    }
}

// What is left of a change that is no cause: of the processor, and of the timer behind its count.
fn turn(p: Processor, c: Change) -> Processor
    ensures { result ≡ turned p c }
{
    let next = std::num::wrapping_add_u32(p.pc, 4);
    match c {
        Change::Plain(_, _, _) => p,
        Change::Special(n, v) => go(set_special(p, n, v), next),
        Change::Retable(_) => go(p, next),
        Change::Cause(_, _) => p,
        Change::Return => return_from_exception(p),
    }
}

fn retime(k: Timer, c: Change) -> Timer
    ensures { result ≡ retimed k c }
{
    match c {
        Change::Plain(_, _, _) => k,
        Change::Special(n, v) => set_count(k, n, v),
        Change::Retable(_) => k,
        Change::Cause(_, _) => k,
        Change::Return => k,
    }
}

// The processor that an instruction without a cause left, with the timer k and SR as before it: where the timer's cause is raised, its handler is entered from there.
fn leave(q: Processor, k: Timer, sr: u32, c: Change) -> Settled
    ensures { (regs : List ℕ) (latest : ℕ) → outcome (core result.processor regs latest result.timer) result.calls ≡ left (raised k sr) (core q regs latest (retimed (ticked k) c)) }
{
    if k.tcount == 0 {
        return Settled {
            processor: q,
            timer: retime(k, c),
            calls: false,
        };
    }
    let timer = retime(tick(k), c);
    let causes = raise(k, sr);
    if causes == 0 {
        return Settled {
            processor: q,
            timer,
            calls: false,
        };
    }
    Settled {
        processor: interrupt(q, causes, 0),
        timer,
        calls: false,
    }
}

// A cause entered.
fn handle(p: Processor, k: Timer, causes: u32, datum: u32) -> Settled
    ensures { (regs : List ℕ) (latest : ℕ) → outcome (core result.processor regs latest result.timer) result.calls ≡ handled (core p regs latest k) causes datum }
{
    let handler = interrupt(p, causes, datum);
    // the level of Partition::TRAP
    if level(causes) == 5 {
        return Settled {
            processor: handler,
            timer: k,
            calls: p.mode != 1,
        };
    }
    Settled {
        processor: handler,
        timer: k,
        calls: false,
    }
}

// What a spell's end comes to, by its change. What becomes of the table and its shadow is the memory's; the registers and the latest fault stay.
pub fn settle(p: Processor, k: Timer, c: Change) -> Settled
    requires { Places c }
    ensures { (regs : List ℕ) (latest : ℕ) → outcome (core result.processor regs latest result.timer) result.calls ≡ ended (core p regs latest k) c }
{
    match c {
        Change::Plain(_, _, _) => leave(turn(p, c), k, p.sr, c),
        Change::Special(_, _) => leave(turn(p, c), k, p.sr, c),
        Change::Retable(_) => leave(turn(p, c), k, p.sr, c),
        Change::Cause(causes, datum) => handle(p, tick(k), causes + raise(k, p.sr), datum),
        Change::Return => leave(turn(p, c), k, p.sr, c),
    }
}
