// One plain instruction: one that changes nothing but DPC, PC, a register, or a word of a frame that does not hold the table, and needs no walk.
#![tactic(auto)]

ghost use Rattle.std.specs.Prelude.{◌≡◌, ℕ, ◌-◌, ◌*◌, ◌%◌, ◌<◌, ◌≤◌, true, false, ◌&&◌, ◌||◌, List, length, nat_eq, nat_lt};
ghost use Rattle.std.specs.Option.{MatchOption};
ghost use Rattle.dlx.specs.Choice.{when◌then◌else◌};
ghost use Rattle.dlx.specs.Fields.{aligned, loading, storing, width};
ghost use Rattle.dlx.specs.Words.{plus, minus, rs1 as rs1_of, rd_immediate, extended, test_of};
ghost use Rattle.dlx.specs.Processor.{user, no_timer, special_of};
ghost use Rattle.dlx.specs.Execute.{effect_of, written, operated, value_of, loads, stores, reg};
ghost use Rattle.dlx.specs.Instructions.{instruction_of, register_type};
ghost use Rattle.dlx.specs.declared.partition.Table.{Table};
ghost use Rattle.dlx.specs.declared.instruction.Operation.TheVariants.{Add, Sub, And, Or, Xor};
ghost use Rattle.dlx.specs.declared.execute.Change.TheVariants.{Plain};
ghost use Rattle.dlx.specs.declared.execute.Effect.TheVariants.{Done};
ghost use Rattle.addresses.specs.Walk.{entries};
ghost use Rattle.addresses.specs.Premises.{Listed, Placed, Shadowed};
ghost use Rattle.plain.specs.Plain.{seen_of, held_of, Numbered, Does};

use addresses::ENTRIES;
use dlx::partition::{Partition, Processor, Table};
use dlx::words::wide;

// Virtual pages are below it.
const LIMIT: u32 = ENTRIES as u32;

// The entry that serves an access without a walk, or one that is not valid.
pub fn seen(frames: &[u32], shadow: &[u32], pages: u32, user: bool, a: u32) -> u32
    requires listed { Listed frames.now pages }
    requires shadow_length { length shadow.now ≡ entries }
    ensures { result ≡ seen_of frames.now pages shadow.now user a }
{
    if user {
        let page = a / 4096;
        if page >= LIMIT {
            return 0;
        }
        return shadow[wide(page)];
    }
    translate::straight(frames, pages, a)
}

// The frame that holds the table, or a number that is no frame's.
// Not an Option: each store is compared with it, and a step on words costs 33.0 instructions with one, and not 32.5 (docs/SPEED.md).
pub fn held(frames: &[u32], pages: u32, t: Table) -> u32
    requires { Listed frames.now pages }
    ensures { result ≡ held_of frames.now pages t }
{
    let pto = t.pto;
    if pto >= pages {
        return 0xFFFF_FFFF;
    }
    frames[wide(pto)]
}

// The fields of a word with an immediate: the register that it reads, the register behind it, and the immediate.
fn first(w: u32) -> usize
    ensures { result ≡ rs1_of w }
{
    wide(w / 2097152 % 32)
}

fn second(w: u32) -> usize
    ensures { result ≡ rd_immediate w }
{
    wide(w / 65536 % 32)
}

fn near(w: u32) -> u32
    ensures { result ≡ extended 16 w }
{
    processor::words::extend(0x8000, w)
}

// Register rd becomes v, and PC + 4 is the target.
fn put(regs: &mut [u32], rd: usize, v: u32, y: u32) -> u32
    requires { rd < length regs.old }
    ensures { (regs.new ≡ written regs.old rd v) × (result ≡ plus y 4) }
{
    processor::execute::write(regs, rd, v);
    std::num::wrapping_add_u32(y, 4)
}

// One target or the other.
fn either(c: bool, a: u32, b: u32) -> u32
    ensures { result ≡ (when c then a else b) }
{
    if c { a } else { b }
}

// Register 31 becomes PC + 4.
fn link(regs: &mut [u32], page: u32, y: u32)
    requires { length regs.old ≡ 32 }
    ensures { regs.new ≡ written regs.old 31 (plus (plus y page) 4) }
{
    let pc = std::num::wrapping_add_u32(y, page);
    processor::execute::write(regs, 31, std::num::wrapping_add_u32(pc, 4));
}

// Whether an opcode may reach an address, its lowest two bits being how many bytes it reaches, less one, and the address is of a page below LIMIT, as every page of
// a guest is: one test of the address.
fn fits(o: u32, a: u32) -> bool
    requires { (loading o || storing o) ≡ true }
    ensures { result ≡ (aligned (width o) a && nat_lt a 4194304) }
{
    (a & o % 4 == 0) & (a < 4194304)
}

// A load by an opcode, if its entry is seen.
fn load(
    p: Processor,
    pages: u32,
    regs: &mut [u32],
    frames: &[u32],
    shadow: &[u32],
    words: &[u32],
    o: u32,
    rd: usize,
    x: u32,
    imm: u32,
    y: u32,
) -> Option<u32>
    requires regs_length { length regs.old ≡ 32 }
    requires placed { Placed frames.now pages (length words.now) }
    requires shadowed { Shadowed frames.now pages shadow.now }
    requires loading { loading o ≡ true }
    requires rd_bound { rd < 32 }
    ensures { MatchOption result (regs.new ≡ regs.old) (λ target. (page : ℕ) (t : Table) → Does frames.now pages p t page y target regs.old regs.new words.now words.now shadow.now (λ _ _. loads o rd x imm)) }
{
    let a = std::num::wrapping_add_u32(x, imm);
    if !fits(o, a) {
        return None;
    }
    let e = seen(frames, shadow, pages, p.mode == 1, a);
    if e / 2048 % 2 != 1 {
        return None;
    }
    let w = words[wide(e / 4096) * 1024 + wide(a / 4 % 1024)];
    Some(put(regs, rd, processor::fields::bring(o, a, w), y))
}

// A store by an opcode, if its entry is seen, its page is not protected, and its frame does not hold the table.
fn store(
    p: Processor,
    t: Table,
    held: u32,
    pages: u32,
    frames: &[u32],
    shadow: &[u32],
    words: &mut [u32],
    o: u32,
    v: u32,
    x: u32,
    imm: u32,
    y: u32,
) -> Option<u32>
    requires placed { Placed frames.now pages (length words.old) }
    requires shadowed { Shadowed frames.now pages shadow.now }
    requires storing { storing o ≡ true }
    requires held_page { held ≡ held_of frames.now pages t }
    ensures { MatchOption result (words.new ≡ words.old) (λ target. (page : ℕ) (rs : List ℕ) → Does frames.now pages p t page y target rs rs words.old words.new shadow.now (λ _ _. stores o v x imm)) }
{
    let a = std::num::wrapping_add_u32(x, imm);
    if !fits(o, a) {
        return None;
    }
    let e = seen(frames, shadow, pages, p.mode == 1, a);
    if e / 1024 % 4 != 2 {
        return None;
    }
    let frame = e / 4096;
    if frame == held {
        return None;
    }
    let i = wide(frame) * 1024 + wide(a / 4 % 1024);
    words[i] = translate::place(o, a, v, words[i]);
    Some(std::num::wrapping_add_u32(y, 4))
}

// Register rd becomes a sum, unless it overflows and SR bit 6 lets it interrupt.
fn add(sr: u32, regs: &mut [u32], rd: usize, a: u32, b: u32, y: u32) -> Option<u32>
    requires { rd < length regs.old }
    ensures { MatchOption result (regs.new ≡ regs.old) (λ target. (regs.new ≡ written regs.old rd (plus a b)) × (target ≡ plus y 4) × ((next : ℕ) → operated Add rd a b sr next ≡ Done (Plain rd (plus a b) next))) }
{
    let v = std::num::wrapping_add_u32(a, b);
    if sr / Partition::OVF % 2 == 1 {
        if processor::words::sum_overflows(a, b) {
            return None;
        }
        return Some(put(regs, rd, v, y));
    }
    Some(put(regs, rd, v, y))
}

// A difference.
fn sub(sr: u32, regs: &mut [u32], rd: usize, a: u32, b: u32, y: u32) -> Option<u32>
    requires { rd < length regs.old }
    ensures { MatchOption result (regs.new ≡ regs.old) (λ target. (regs.new ≡ written regs.old rd (minus a b)) × (target ≡ plus y 4) × ((next : ℕ) → operated Sub rd a b sr next ≡ Done (Plain rd (minus a b) next))) }
{
    let v = std::num::wrapping_sub_u32(a, b);
    if sr / Partition::OVF % 2 == 1 {
        if processor::words::difference_overflows(a, b) {
            return None;
        }
        return Some(put(regs, rd, v, y));
    }
    Some(put(regs, rd, v, y))
}

// Test number k of two words: bit 0 of k says that it holds where a is greater, bit 1 where they are equal, bit 2 where a is less.
fn test(k: u32, a: u32, b: u32) -> u32
    requires { k < 8 }
    ensures { result ≡ test_of k a b }
{
    if a == b {
        return k / 2 % 2;
    }
    let x = std::num::wrapping_add_u32(a, 0x8000_0000);
    let y = std::num::wrapping_add_u32(b, 0x8000_0000);
    if x < y {
        return k / 4 % 2;
    }
    k % 2
}

// A special register read in system mode, but TCOUNT and TLOAD.
fn read_special(
    specials: &[u32],
    p: Processor,
    t: Table,
    regs: &mut [u32],
    rd: usize,
    n: u32,
    y: u32,
) -> Option<u32>
    requires regs_room { rd < length regs.old }
    requires numbered { Numbered specials.now p t }
    ensures { MatchOption result (regs.new ≡ regs.old) (λ target. (user p ≡ false) × (n < 10) × (regs.new ≡ written regs.old rd (special_of p t no_timer n)) × (target ≡ plus y 4)) }
{
    if p.mode == 1 {
        return None;
    }
    if n >= Partition::TCOUNT {
        return None;
    }
    Some(put(regs, rd, specials[wide(n)], y))
}

// The words of opcode 0.
fn register_type(
    specials: &[u32],
    p: Processor,
    t: Table,
    w: u32,
    regs: &mut [u32],
    y: u32,
) -> Option<u32>
    requires regs_length { length regs.old ≡ 32 }
    requires numbered { Numbered specials.now p t }
    ensures { MatchOption result (regs.new ≡ regs.old) (λ target. (fr : List ℕ) (n page : ℕ) (ws sh : List ℕ) → Does fr n p t page y target regs.old regs.new ws ws sh (λ k c. effect_of c t k regs.old (register_type w))) }
{
    let rs1 = first(w);
    let rs2 = second(w);
    let a = regs[rs1];
    let b = regs[rs2];
    let rd = wide(w / 2048 % 32);
    let function = w % 64;
    match function {
        32 => add(p.sr, regs, rd, a, b, y),
        34 => sub(p.sr, regs, rd, a, b, y),
        36 => Some(put(regs, rd, a & b, y)),
        37 => Some(put(regs, rd, a | b, y)),
        38 => Some(put(regs, rd, a ^ b, y)),
        16 => read_special(specials, p, t, regs, rd, w / 64 % 32, y),
        40 => Some(put(regs, rd, test(0, a, b), y)),
        41 => Some(put(regs, rd, test(1, a, b), y)),
        42 => Some(put(regs, rd, test(2, a, b), y)),
        43 => Some(put(regs, rd, test(3, a, b), y)),
        44 => Some(put(regs, rd, test(4, a, b), y)),
        45 => Some(put(regs, rd, test(5, a, b), y)),
        46 => Some(put(regs, rd, test(6, a, b), y)),
        47 => Some(put(regs, rd, test(7, a, b), y)),
        // An arm for each function that is not plain: a pattern of several costs two instructions a step.
        0 => None,
        1 => None,
        2 => None,
        3 => None,
        4 => None,
        5 => None,
        6 => None,
        7 => None,
        8 => None,
        9 => None,
        10 => None,
        11 => None,
        12 => None,
        13 => None,
        14 => None,
        15 => None,
        17 => None,
        18 => None,
        19 => None,
        20 => None,
        21 => None,
        22 => None,
        23 => None,
        24 => None,
        25 => None,
        26 => None,
        27 => None,
        28 => None,
        29 => None,
        30 => None,
        31 => None,
        33 => None,
        35 => None,
        39 => None,
        48 => None,
        49 => None,
        50 => None,
        51 => None,
        52 => None,
        53 => None,
        54 => None,
        55 => None,
        56 => None,
        57 => None,
        58 => None,
        59 => None,
        60 => None,
        61 => None,
        62 => None,
        63 => None,
        _ => None,
    }
}

// The tests of opcodes 24 to 31.
fn test_type(opcode: u32, regs: &mut [u32], w: u32, y: u32) -> Option<u32>
    requires { length regs.old ≡ 32 }
    ensures { MatchOption result (regs.new ≡ regs.old) (λ target. (24 ≤ opcode) × (opcode < 32) × (regs.new ≡ written regs.old (rd_immediate w) (test_of (opcode - 24) (reg regs.old (rs1_of w)) (extended 16 w))) × (target ≡ plus y 4)) }
{
    if opcode < 24 {
        return None;
    }
    if opcode >= 32 {
        return None;
    }
    let rs1 = first(w);
    let rd = second(w);
    let imm = near(w);
    let a = regs[rs1];
    Some(put(regs, rd, test(opcode - 24, a, imm), y))
}

// The words of one opcode each. Each reads its own fields of the word, so that no step reads fields that it does not use.
fn load_word(
    p: Processor,
    pages: u32,
    regs: &mut [u32],
    frames: &[u32],
    shadow: &[u32],
    words: &[u32],
    o: u32,
    w: u32,
    y: u32,
) -> Option<u32>
    requires regs_length { length regs.old ≡ 32 }
    requires placed { Placed frames.now pages (length words.now) }
    requires shadowed { Shadowed frames.now pages shadow.now }
    requires loading { loading o ≡ true }
    ensures { MatchOption result (regs.new ≡ regs.old) (λ target. (page : ℕ) (t : Table) → Does frames.now pages p t page y target regs.old regs.new words.now words.now shadow.now (λ _ _. loads o (rd_immediate w) (reg regs.old (rs1_of w)) (extended 16 w))) }
{
    let rs1 = first(w);
    let rd = second(w);
    let imm = near(w);
    let x = regs[rs1];
    load(p, pages, regs, frames, shadow, words, o, rd, x, imm, y)
}

fn store_word(
    p: Processor,
    t: Table,
    held: u32,
    pages: u32,
    regs: &[u32],
    frames: &[u32],
    shadow: &[u32],
    words: &mut [u32],
    o: u32,
    w: u32,
    y: u32,
) -> Option<u32>
    requires regs_length { length regs.now ≡ 32 }
    requires placed { Placed frames.now pages (length words.old) }
    requires shadowed { Shadowed frames.now pages shadow.now }
    requires storing { storing o ≡ true }
    requires held_page { held ≡ held_of frames.now pages t }
    ensures { MatchOption result (words.new ≡ words.old) (λ target. (page : ℕ) (rs : List ℕ) → Does frames.now pages p t page y target rs rs words.old words.new shadow.now (λ _ _. stores o (reg regs.now (rd_immediate w)) (reg regs.now (rs1_of w)) (extended 16 w))) }
{
    let rs1 = first(w);
    let rd = second(w);
    let imm = near(w);
    let x = regs[rs1];
    let v = regs[rd];
    store(p, t, held, pages, frames, shadow, words, o, v, x, imm, y)
}

fn add_word(sr: u32, regs: &mut [u32], w: u32, y: u32) -> Option<u32>
    requires { length regs.old ≡ 32 }
    ensures { MatchOption result (regs.new ≡ regs.old) (λ target. (regs.new ≡ written regs.old (rd_immediate w) (plus (reg regs.old (rs1_of w)) (extended 16 w))) × (target ≡ plus y 4) × ((next : ℕ) → operated Add (rd_immediate w) (reg regs.old (rs1_of w)) (extended 16 w) sr next ≡ Done (Plain (rd_immediate w) (plus (reg regs.old (rs1_of w)) (extended 16 w)) next))) }
{
    let rs1 = first(w);
    let rd = second(w);
    let imm = near(w);
    let x = regs[rs1];
    add(sr, regs, rd, x, imm, y)
}

fn sub_word(sr: u32, regs: &mut [u32], w: u32, y: u32) -> Option<u32>
    requires { length regs.old ≡ 32 }
    ensures { MatchOption result (regs.new ≡ regs.old) (λ target. (regs.new ≡ written regs.old (rd_immediate w) (minus (reg regs.old (rs1_of w)) (extended 16 w))) × (target ≡ plus y 4) × ((next : ℕ) → operated Sub (rd_immediate w) (reg regs.old (rs1_of w)) (extended 16 w) sr next ≡ Done (Plain (rd_immediate w) (minus (reg regs.old (rs1_of w)) (extended 16 w)) next))) }
{
    let rs1 = first(w);
    let rd = second(w);
    let imm = near(w);
    let x = regs[rs1];
    sub(sr, regs, rd, x, imm, y)
}

fn and_word(regs: &mut [u32], w: u32, y: u32) -> u32
    requires { length regs.old ≡ 32 }
    ensures { (regs.new ≡ written regs.old (rd_immediate w) (value_of And (reg regs.old (rs1_of w)) (extended 16 w))) × (result ≡ plus y 4) }
{
    let rs1 = first(w);
    let rd = second(w);
    let imm = near(w);
    let x = regs[rs1];
    put(regs, rd, x & imm, y)
}

fn or_word(regs: &mut [u32], w: u32, y: u32) -> u32
    requires { length regs.old ≡ 32 }
    ensures { (regs.new ≡ written regs.old (rd_immediate w) (value_of Or (reg regs.old (rs1_of w)) (extended 16 w))) × (result ≡ plus y 4) }
{
    let rs1 = first(w);
    let rd = second(w);
    let imm = near(w);
    let x = regs[rs1];
    put(regs, rd, x | imm, y)
}

fn xor_word(regs: &mut [u32], w: u32, y: u32) -> u32
    requires { length regs.old ≡ 32 }
    ensures { (regs.new ≡ written regs.old (rd_immediate w) (value_of Xor (reg regs.old (rs1_of w)) (extended 16 w))) × (result ≡ plus y 4) }
{
    let rs1 = first(w);
    let rd = second(w);
    let imm = near(w);
    let x = regs[rs1];
    put(regs, rd, x ^ imm, y)
}

fn high_word(regs: &mut [u32], w: u32, y: u32) -> u32
    requires { length regs.old ≡ 32 }
    ensures { (regs.new ≡ written regs.old (rd_immediate w) (extended 16 w % 65536 * 65536)) × (result ≡ plus y 4) }
{
    let rd = second(w);
    let imm = near(w);
    put(regs, rd, imm % 65536 * 65536, y)
}

// A branch where register rs1 is 0, or where it is not.
fn branch(regs: &[u32], zero: bool, w: u32, y: u32) -> u32
    requires { length regs.now ≡ 32 }
    ensures { (result ≡ (when nat_eq (reg regs.now (rs1_of w)) 0 then (when zero then plus y (extended 16 w) else plus y 4) else (when zero then plus y 4 else plus y (extended 16 w)))) }
{
    let rs1 = first(w);
    let imm = near(w);
    let x = regs[rs1];
    let far = std::num::wrapping_add_u32(y, imm);
    let next = std::num::wrapping_add_u32(y, 4);
    if zero {
        return either(x == 0, far, next);
    }
    either(x == 0, next, far)
}

fn jump(regs: &[u32], w: u32, page: u32) -> u32
    requires { length regs.now ≡ 32 }
    ensures { plus result page ≡ reg regs.now (rs1_of w) }
{
    let rs1 = first(w);
    let x = regs[rs1];
    std::num::wrapping_sub_u32(x, page)
}

fn jump_linked(regs: &mut [u32], w: u32, page: u32, y: u32) -> u32
    requires { length regs.old ≡ 32 }
    ensures { (regs.new ≡ written regs.old 31 (plus (plus y page) 4)) × (plus result page ≡ reg regs.old (rs1_of w)) }
{
    let rs1 = first(w);
    let x = regs[rs1];
    link(regs, page, y);
    std::num::wrapping_sub_u32(x, page)
}

// The instruction w, if it is plain, and the target behind the delayed instruction. PC and the target are told from the page's first address.
pub fn act(
    specials: &[u32],
    p: Processor,
    t: Table,
    held: u32,
    pages: u32,
    w: u32,
    page: u32,
    y: u32,
    regs: &mut [u32],
    frames: &[u32],
    shadow: &[u32],
    words: &mut [u32],
) -> Option<u32>
    requires regs_length { length regs.old ≡ 32 }
    requires placed { Placed frames.now pages (length words.old) }
    requires shadowed { Shadowed frames.now pages shadow.now }
    requires numbered { Numbered specials.now p t }
    requires held_page { held ≡ held_of frames.now pages t }
    ensures { MatchOption result ((regs.new ≡ regs.old) × (words.new ≡ words.old)) (λ target. Does frames.now pages p t page y target regs.old regs.new words.old words.new shadow.now (λ k c. effect_of c t k regs.old (instruction_of w))) }
{
    let opcode = w / 67108864;
    match opcode {
        35 => load_word(p, pages, regs, frames, shadow, words, 35, w, y),
        43 => store_word(p, t, held, pages, regs, frames, shadow, words, 43, w, y),
        8 => add_word(p.sr, regs, w, y),
        10 => sub_word(p.sr, regs, w, y),
        12 => Some(and_word(regs, w, y)),
        13 => Some(or_word(regs, w, y)),
        14 => Some(xor_word(regs, w, y)),
        15 => Some(high_word(regs, w, y)),
        4 => Some(branch(regs, true, w, y)),
        5 => Some(branch(regs, false, w, y)),
        22 => Some(jump(regs, w, page)),
        23 => Some(jump_linked(regs, w, page, y)),
        2 => {
            let far = processor::words::extend(0x200_0000, w);
            Some(std::num::wrapping_add_u32(y, far))
        }
        3 => {
            let far = processor::words::extend(0x200_0000, w);
            link(regs, page, y);
            Some(std::num::wrapping_add_u32(y, far))
        }
        0 => register_type(specials, p, t, w, regs, y),
        32 => load_word(p, pages, regs, frames, shadow, words, 32, w, y),
        33 => load_word(p, pages, regs, frames, shadow, words, 33, w, y),
        36 => load_word(p, pages, regs, frames, shadow, words, 36, w, y),
        37 => load_word(p, pages, regs, frames, shadow, words, 37, w, y),
        40 => store_word(p, t, held, pages, regs, frames, shadow, words, 40, w, y),
        41 => store_word(p, t, held, pages, regs, frames, shadow, words, 41, w, y),
        24 => test_type(opcode, regs, w, y),
        25 => test_type(opcode, regs, w, y),
        26 => test_type(opcode, regs, w, y),
        27 => test_type(opcode, regs, w, y),
        28 => test_type(opcode, regs, w, y),
        29 => test_type(opcode, regs, w, y),
        30 => test_type(opcode, regs, w, y),
        31 => test_type(opcode, regs, w, y),
        // An arm for each opcode that is not plain: a pattern of several costs two instructions a step.
        1 => None,
        6 => None,
        7 => None,
        9 => None,
        11 => None,
        16 => None,
        17 => None,
        18 => None,
        19 => None,
        20 => None,
        21 => None,
        34 => None,
        38 => None,
        39 => None,
        42 => None,
        44 => None,
        45 => None,
        46 => None,
        47 => None,
        48 => None,
        49 => None,
        50 => None,
        51 => None,
        52 => None,
        53 => None,
        54 => None,
        55 => None,
        56 => None,
        57 => None,
        58 => None,
        59 => None,
        60 => None,
        61 => None,
        62 => None,
        63 => None,
        _ => None,
    }
}
