// The measured run: a guest of speed/walker.rs in the house, booted and run by the house's calls.
// Standard input has decimal numbers: steps, at most 1,000,000, the turn's length, 1..10,000, and the guest: 0 words, also where there is no third number,
// 1 bytes and half words, 2 registers, 3 traps, 4 the timer. Standard output is the number of steps done and a digest of the registers, the special registers and
// the whole memory; or `refused N D`. It takes no words.
#![tactic(auto)]

ghost use Rattle.std.specs.Prelude.{◌<◌};

use boot::boot;
use command::{asks_help, put_out, wrong};
use dlx::partition::{Partition, Processor, Table, Timer};
use dlx::words::wide;
use files::{Source, print, print_number};
use house::{Answer, House, Refusal};
use hypervisor::calls::run;

// The frame of a guest page: the list of the 67 is a permutation of the frames 1 to 67.
fn frame_of(page: u32) -> u32
    ensures { result < 68 }
{
    (page % 67 * 13 + 5) % 67 + 1
}

// A word of a guest page.
fn put(words: &mut [u32; 69632], page: u32, at: u32, w: u32) {
    words[wide(frame_of(page) * 1024 + at % 1024)] = w;
}

fn list_frames() -> [u32; 67] {
    std::array::from_fn(|page| frame_of(page as u32))
}

// The page table, in page 1: the user's page 0 is the loop, in page 2, and its pages 1 to 64 are pages 3 to 66.
fn put_table(words: &mut [u32; 69632]) {
    for px in 0..65 {
        put(words, 1, px, (px + 2) * 4096 + 2048);
    }
}

// Words of a guest page, from a place on.
fn fill(words: &mut [u32; 69632], page: u32, at: u32, list: &[u32]) {
    for (i, w) in (at % 1024..).zip(list) {
        put(words, page, i, *w);
    }
}

// The start, in page 0: it sets the table and goes to user mode.
const START: [u32; 8] = [
    0x2001_0001, // addi r1, r0, 1
    0x0020_01D1, // movi2s PTO, r1
    0x0020_0251, // movi2s EMODE, r1
    0x2001_0041, // addi r1, r0, 65
    0x0020_0211, // movi2s PTL, r1
    0x2001_0004, // addi r1, r0, 4
    0x0020_00D1, // movi2s EPC, r1
    0xFC00_0000, // rfe
];

// The same behind a test for the handler: an interrupt enters at word 0, with a cause in ECA.
const START_HANDLED: [u32; 10] = [
    0x0000_A090, // movs2i r20, ECA
    0x1680_0058, // bnez r20, 88: to the handler
    0x2001_0001, // addi r1, r0, 1: the delay slot, and the start
    0x0020_01D1, // movi2s PTO, r1
    0x0020_0251, // movi2s EMODE, r1
    0x2001_0041, // addi r1, r0, 65
    0x0020_0211, // movi2s PTL, r1
    0x2001_0004, // addi r1, r0, 4
    0x0020_00D1, // movi2s EPC, r1
    0xFC00_0000, // rfe
];

// And with the timer, which fires every 30 steps.
const START_TIMED: [u32; 15] = [
    0x0000_A090, // movs2i r20, ECA
    0x1680_0058, // bnez r20, 88: to the handler
    0x2001_0001, // addi r1, r0, 1: the delay slot, and the start
    0x0020_01D1, // movi2s PTO, r1
    0x0020_0251, // movi2s EMODE, r1
    0x2001_0041, // addi r1, r0, 65
    0x0020_0211, // movi2s PTL, r1
    0x2001_0004, // addi r1, r0, 4
    0x0020_00D1, // movi2s EPC, r1
    0x2001_2000, // addi r1, r0, 8192
    0x0020_0051, // movi2s ESR, r1
    0x2001_001E, // addi r1, r0, 30
    0x0020_02D1, // movi2s TLOAD, r1
    0x0020_0291, // movi2s TCOUNT, r1
    0xFC00_0000, // rfe
];

// The handler, in page 0: it counts in a register and in a word of the page, and goes back.
const HANDLER: [u32; 7] = [
    0x0000_A910, // movs2i r21, EDPC
    0x22D6_0001, // addi r22, r22, 1
    0x02F5_B826, // xor r23, r23, r21
    0x8C18_0800, // lw r24, 2048(r0)
    0x2318_0001, // addi r24, r24, 1
    0xAC18_0800, // sw r24, 2048(r0)
    0xFC00_0000, // rfe
];

// The loop of words, in page 2.
const WORDS_LOOP: [u32; 15] = [
    0x20A5_0001, // addi r5, r5, 1
    0x30A1_03FF, // andi r1, r5, 1023
    0x0021_0820, // add r1, r1, r1
    0x0021_0820, // add r1, r1, r1
    0x2021_1000, // addi r1, r1, 4096: the first data page
    0x2002_0040, // addi r2, r0, 64
    0x8C23_0000, // lw r3, 0(r1): the inner loop's first
    0x2063_0001, // addi r3, r3, 1
    0xAC23_0000, // sw r3, 0(r1)
    0x2021_1000, // addi r1, r1, 4096
    0x2042_FFFF, // addi r2, r2, -1
    0x1440_FFE8, // bnez r2, -24
    0x2084_0001, // addi r4, r4, 1: its delay slot
    0x0BFF_FFC8, // j -56
    0x00E3_3826, // xor r7, r7, r3: its delay slot
];

// The loop of bytes and half words.
const BYTES_LOOP: [u32; 14] = [
    0x20A5_0002, // addi r5, r5, 2
    0x30A1_0FFE, // andi r1, r5, 4094
    0x2021_1000, // addi r1, r1, 4096: the first data page
    0x2002_0040, // addi r2, r0, 64
    0x9023_0000, // lbu r3, 0(r1): the inner loop's first
    0x2063_0001, // addi r3, r3, 1
    0xA023_0000, // sb r3, 0(r1)
    0x8426_0000, // lh r6, 0(r1)
    0x2021_1000, // addi r1, r1, 4096
    0x2042_FFFF, // addi r2, r2, -1
    0x1440_FFE4, // bnez r2, -28
    0x2084_0001, // addi r4, r4, 1: its delay slot
    0x0BFF_FFCC, // j -52
    0x00E6_3826, // xor r7, r7, r6: its delay slot
];

// The loop of register work, with branches and calls.
const REGISTERS_LOOP: [u32; 22] = [
    0x20A5_0001, // addi r5, r5, 1
    0x00C5_3026, // xor r6, r6, r5
    0x00E6_3820, // add r7, r7, r6
    0x30E8_00FF, // andi r8, r7, 255
    0x7109_0080, // slsi r9, r8, 128
    0x1520_000C, // bnez r9, 12: over the next two
    0x214A_0003, // addi r10, r10, 3: its delay slot
    0x00EA_5822, // sub r11, r7, r10
    0x0165_6025, // or r12, r11, r5
    0x018B_6829, // sgr r13, r12, r11
    0x11A0_0008, // beqz r13, 8: over the next one
    0x39CE_0055, // xori r14, r14, 85: its delay slot
    0x01CC_7824, // and r15, r14, r12
    0x3C10_1234, // lhgi r16, 4660
    0x0C00_0010, // jal 16: calls the last three
    0x3611_0011, // ori r17, r16, 17: its delay slot
    0x2A52_0001, // subi r18, r18, 1
    0x0BFF_FFB8, // j -72
    0x0092_2020, // add r4, r4, r18: its delay slot
    0x0225_9820, // add r19, r17, r5: called
    0x5BE0_0000, // jr r31
    0x0073_1826, // xor r3, r3, r19: its delay slot
];

// The loop of traps: every tenth of its steps is one.
const TRAPS_LOOP: [u32; 10] = [
    0x20A5_0004, // addi r5, r5, 4
    0x30A1_0FFC, // andi r1, r5, 4092
    0x2021_1000, // addi r1, r1, 4096: the first data page
    0x8C23_0000, // lw r3, 0(r1)
    0x2063_0001, // addi r3, r3, 1
    0xAC23_0000, // sw r3, 0(r1)
    0x00E3_3826, // xor r7, r7, r3
    0xF800_0005, // trap 5
    0x0BFF_FFDC, // j -36
    0x2084_0001, // addi r4, r4, 1: its delay slot
];

// The loop that the timer interrupts.
const TIMER_LOOP: [u32; 10] = [
    0x20A5_0004, // addi r5, r5, 4
    0x30A1_0FFC, // andi r1, r5, 4092
    0x2021_1000, // addi r1, r1, 4096: the first data page
    0x8C23_0000, // lw r3, 0(r1)
    0x2063_0001, // addi r3, r3, 1
    0xAC23_0000, // sw r3, 0(r1)
    0x00E3_3826, // xor r7, r7, r3
    0x0107_4020, // add r8, r8, r7
    0x0BFF_FFDC, // j -36
    0x2084_0001, // addi r4, r4, 1: its delay slot
];

// The guests.
#[derive(Clone, Copy)]
enum Guest {
    Words,
    Bytes,
    Registers,
    Traps,
    Timer,
}

// The guest of a number.
fn guest_of(number: u32) -> Option<Guest> {
    match number {
        0 => Some(Guest::Words),
        1 => Some(Guest::Bytes),
        2 => Some(Guest::Registers),
        3 => Some(Guest::Traps),
        4 => Some(Guest::Timer),
        _ => None,
    }
}

// Its start, and its loop.
fn put_guest(words: &mut [u32; 69632], guest: Guest) {
    match guest {
        Guest::Words => {
            fill(words, 0, 0, &START);
            fill(words, 2, 0, &WORDS_LOOP);
        }
        Guest::Bytes => {
            fill(words, 0, 0, &START);
            fill(words, 2, 0, &BYTES_LOOP);
        }
        Guest::Registers => {
            fill(words, 0, 0, &START);
            fill(words, 2, 0, &REGISTERS_LOOP);
        }
        Guest::Traps => {
            fill(words, 0, 0, &START_HANDLED);
            fill(words, 0, 24, &HANDLER);
            fill(words, 2, 0, &TRAPS_LOOP);
        }
        Guest::Timer => {
            fill(words, 0, 0, &START_TIMED);
            fill(words, 0, 24, &HANDLER);
            fill(words, 2, 0, &TIMER_LOOP);
        }
    }
}

fn mixed(h: u64, w: u32) -> u64 {
    (h % 4294967291 * 31 + w as u64) % 4294967291
}

fn mixed_all(h: u64, s: &[u32]) -> u64 {
    s.iter().fold(h, |r, w| mixed(r, *w))
}

fn mixed_specials(h: u64, p: Processor, t: Table, k: Timer) -> u64 {
    let specials = [
        p.dpc, p.pc, p.sr, p.esr, p.eca, p.epc, p.edpc, p.edata, p.mode, t.pto, t.ptl, p.emode,
        k.tcount, k.tload,
    ];
    mixed_all(h, &specials)
}

// Of the first partition and the memory.
fn digest(house: House, words: &[u32; 69632]) -> u64 {
    let part = house.parts[0];
    let h = mixed_all(0, &house.regs[..32]);
    mixed_all(
        mixed_specials(h, part.processor, part.table, part.timer),
        words,
    )
}

// The number of these digits; of more than nine, the last nine count.
fn number(digits: &[u8]) -> u32 {
    digits
        .iter()
        .fold(0, |n, d| n % 100_000_000 * 10 + u32::from(d % 16))
}

fn end_line(rt: &HostRuntime) {
    put_out(rt, b"\n");
}

fn tell_refusal(rt: &HostRuntime, refusal: Refusal) {
    let _ = print(rt, b"refused ");
    print_number(rt, u64::from(refusal.number()));
    let _ = print(rt, b" ");
    print_number(rt, refusal.detail());
    end_line(rt);
}

// One partition of 67 pages, booted and run.
fn ran(q: u32, frames: &[u32; 67], words: &mut [u32; 69632], steps: u32) -> Answer {
    let booted = boot(&[67], q, frames, words)?;
    run(booted.house, words, steps)
}

fn measure(rt: &HostRuntime, steps: u32, q: u32, guest: u32) {
    let Some(guest) = guest_of(guest) else {
        wrong(rt, b"a guest from 0 to 4 as the third number", b"another");
        return;
    };
    let mut words = [0u32; 69632];
    let frames = list_frames();
    put_table(&mut words);
    put_guest(&mut words, guest);
    match ran(q, &frames, &mut words, steps) {
        Ok(done) => {
            print_number(rt, done.detail);
            let _ = print(rt, b" ");
            print_number(rt, digest(done.house, &words));
            end_line(rt);
        }
        Err(refusal) => tell_refusal(rt, refusal),
    }
}

fn help(rt: &HostRuntime) {
    let _ = print(
        rt,
        b"drill_measure: reads `STEPS TURN GUEST` from standard input (0 words, 1 bytes, 2 registers, 3 traps, 4 timer), runs it, and prints the steps done\n",
    );
    let _ = print(
        rt,
        b"and a digest, or `refused N D`; docs/SPEED.md has what it is for\n",
    );
}

// What is said where words are given.
fn answer_words(rt: &HostRuntime) {
    let mut space = files::buffer();
    let length = files::word(rt, 1, &mut space);
    if asks_help(&space[..length]) {
        help(rt);
        return;
    }
    wrong(
        rt,
        b"no words, and numbers on standard input",
        &space[..length],
    );
}

fn main(rt: HostRuntime) {
    if files::words(&rt) > 1 {
        answer_words(&rt);
        return;
    }
    let mut line = [0u8; 64];
    let mut source = Source::standard_input(&rt);
    source.read_full(&mut line);
    let mut numbers = line.split(|b| !b.is_ascii_digit()).map(number);
    if let (Some(steps), Some(q)) = (numbers.next(), numbers.next()) {
        measure(&rt, steps, q, numbers.next().unwrap_or(0));
    }
}
