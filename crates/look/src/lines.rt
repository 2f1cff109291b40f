// The lines that tell of a partition. A function that puts a piece of text at `at` answers where the piece ends.
ghost use Rattle.std.specs.Prelude.{◌≡◌, false, ◌+◌, ◌*◌, ◌≤◌, ◌<◌, min, length, get_or};
ghost use Rattle.decimal.specs.Texts.{Puts, joined};
ghost use Rattle.house.specs.House.{no_partition};
ghost use Rattle.look.specs.Look.{named, cause_of, fault_of, state_of, mode_of, head_of, interrupt_of, fault_line_of, saved_of, specials_of, register_of, registers_from, block_of, turn_of, look_of};
ghost use Rattle.report.specs.Put.{Counts, put};

use decimal::{put_byte, put_decimal, put_text};
use dlx::interrupt::level;
use dlx::partition::{Partition, Processor, Table, Timer};
use dlx::words::wide;
use house::House;

// A partition's lines have at most 2,134 bytes.
pub const ROOM: usize = 17224;

// A text and the number behind it.
fn put_named(out: &mut [u8; ROOM], at: usize, name: &[u8], n: u64) -> usize
    ensures { Puts out.old at out.new result (named name.now n) (length name.now + 20) }
{
    let end = put_text(out, at, name);
    put_decimal(out, end, n)
}

// ---- the tables of words

// A cause, by its number.
fn put_cause(out: &mut [u8; ROOM], at: usize, level: u32) -> usize
    ensures { Puts out.old at out.new result (cause_of level) 50 }
{
    match level {
        1 => put_text(out, at, b"ill, an illegal instruction"),
        2 => put_text(out, at, b"mal, a misaligned address"),
        3 => put_text(out, at, b"pff, a page fault in fetching"),
        4 => put_text(out, at, b"pfls, a page fault of a load or store"),
        5 => put_text(out, at, b"trap"),
        6 => put_text(out, at, b"ovf, an overflow"),
        13 => put_text(out, at, b"timer, TCOUNT reached 0"),
        _ => put_text(out, at, b"no cause, since ECA was written"),
    }
}

// A translation fault, by its number.
fn put_fault(out: &mut [u8; ROOM], at: usize, fault: u32) -> usize
    ensures { Puts out.old at out.new result (fault_of fault) 50 }
{
    match fault {
        0 => put_text(out, at, b"none"),
        1 => put_text(out, at, b"1, a page not below PTL"),
        2 => put_text(out, at, b"2, a page above 1023"),
        3 => put_text(out, at, b"3, a table entry outside the pages"),
        4 => put_text(out, at, b"4, a table entry that is not valid"),
        5 => put_text(out, at, b"5, a page that the guest does not have"),
        6 => put_text(out, at, b"6, a store to a protected page"),
        _ => put_text(out, at, b"7, an address beyond the pages in system mode"),
    }
}

fn put_state(out: &mut [u8; ROOM], at: usize, running: bool) -> usize
    ensures { Puts out.old at out.new result (state_of running) 11 }
{
    if running {
        return put_text(out, at, b": running, ");
    }
    put_text(out, at, b": stopped, ")
}

fn put_mode(out: &mut [u8; ROOM], at: usize, mode: u32) -> usize
    ensures { Puts out.old at out.new result (mode_of mode) 11 }
{
    if mode == 0 {
        return put_text(out, at, b"system mode");
    }
    put_text(out, at, b"user mode")
}

// ---- a partition's lines

fn put_head(out: &mut [u8; ROOM], at: usize, i: usize, running: bool, p: Partition) -> usize
    ensures { Puts out.old at out.new result (head_of i running p) 109 }
{
    let first = put_named(out, at, b"partition ", i as u64);
    let second = put_state(out, first, running);
    let third = put_mode(out, second, p.processor.mode);
    let fourth = put_named(out, third, b", pages ", p.pages as u64);
    let fifth = put_named(out, fourth, b", steps ", p.counter);
    put_byte(out, fifth, b'\n')
}

fn put_interrupt(out: &mut [u8; ROOM], at: usize, eca: u32, edata: u32) -> usize
    ensures { Puts out.old at out.new result (interrupt_of eca edata) 99 }
{
    let first = put_text(out, at, b"  latest interrupt: ");
    if eca == 0 {
        return put_text(out, first, b"none\n");
    }
    let second = put_cause(out, first, level(eca));
    let third = put_named(out, second, b", EDATA ", edata as u64);
    put_byte(out, third, b'\n')
}

fn put_fault_line(out: &mut [u8; ROOM], at: usize, fault: u32) -> usize
    ensures { Puts out.old at out.new result (fault_line_of fault) 79 }
{
    let first = put_text(out, at, b"  latest translation fault: ");
    let second = put_fault(out, first, fault);
    put_byte(out, second, b'\n')
}

fn put_saved(out: &mut [u8; ROOM], at: usize, p: Processor) -> usize
    ensures { Puts out.old at out.new result (saved_of p) 182 }
{
    let first = put_named(out, at, b"  DPC ", p.dpc as u64);
    let second = put_named(out, first, b", PC ", p.pc as u64);
    let third = put_named(out, second, b", SR ", p.sr as u64);
    let fourth = put_named(out, third, b", ESR ", p.esr as u64);
    let fifth = put_named(out, fourth, b", ECA ", p.eca as u64);
    let sixth = put_named(out, fifth, b", EPC ", p.epc as u64);
    let seventh = put_named(out, sixth, b", EDPC ", p.edpc as u64);
    put_byte(out, seventh, b'\n')
}

fn put_specials(out: &mut [u8; ROOM], at: usize, p: Processor, t: Table, k: Timer) -> usize
    ensures { Puts out.old at out.new result (specials_of p t k) 192 }
{
    let first = put_named(out, at, b"  EDATA ", p.edata as u64);
    let second = put_named(out, first, b", MODE ", p.mode as u64);
    let third = put_named(out, second, b", PTO ", t.pto as u64);
    let fourth = put_named(out, third, b", PTL ", t.ptl as u64);
    let fifth = put_named(out, fourth, b", EMODE ", p.emode as u64);
    let sixth = put_named(out, fifth, b", TCOUNT ", k.tcount as u64);
    put_named(out, sixth, b", TLOAD ", k.tload as u64)
}

// Register j, of which eight stand in a row.
fn put_register(out: &mut [u8; ROOM], at: usize, j: usize, w: u32) -> usize
    ensures { Puts out.old at out.new result (register_of j w) 46 }
{
    if j % 8 == 0 {
        let row = put_named(out, at, b"\n  r", j as u64);
        return put_named(out, row, b": ", w as u64);
    }
    put_named(out, at, b" ", w as u64)
}

// Partition i's registers.
fn put_registers(out: &mut [u8; ROOM], at: usize, regs: &[u32; 256], i: usize) -> usize
    requires { i < 8 }
    ensures { Puts out.old at out.new result (registers_from regs.now i) 1472 }
{
    let mut end = at;
    for (j, w) in regs[i * 32..i * 32 + 32].iter().enumerate() {
        end = put_register(out, end, j, *w);
    }
    end
}

// Partition i's lines.
fn put_partition(
    out: &mut [u8; ROOM],
    at: usize,
    i: usize,
    running: bool,
    p: Partition,
    regs: &[u32; 256],
) -> usize
    requires { i < 8 }
    ensures { Puts out.old at out.new result (block_of i running p regs.now) 2134 }
{
    let first = put_head(out, at, i, running, p);
    let second = put_interrupt(out, first, p.processor.eca, p.processor.edata);
    let third = put_fault_line(out, second, p.fault);
    let fourth = put_saved(out, third, p.processor);
    let fifth = put_specials(out, fourth, p.processor, p.table, p.timer);
    let sixth = put_registers(out, fifth, regs, i);
    put_byte(out, sixth, b'\n')
}

// The lines of the first n partitions.
fn put_partitions(
    out: &mut [u8; ROOM],
    at: usize,
    n: usize,
    running: &[bool; 8],
    parts: [Partition; 8],
    regs: &[u32; 256],
) -> usize
    requires { n ≤ 8 }
    ensures { Puts out.old at out.new result (joined (λ i. block_of i (get_or running.now i false) (get_or parts i no_partition) regs.now) n) (2134 * n) }
{
    let mut end = at;
    for i in 0..n {
        end = put_partition(out, end, i, running[i], parts[i], regs);
    }
    end
}

// How many of the 8 places a count of partitions uses.
fn used(count: u32) -> usize
    ensures { result ≡ min count 8 }
{
    wide(count.min(8))
}

// Whose turn it is.
fn put_turn(out: &mut [u8; ROOM], at: usize, count: u32, q: u32, current: u32, left: u32) -> usize
    ensures { Puts out.old at out.new result (turn_of count q current left) 129 }
{
    let first = put_named(out, at, b"partitions ", count as u64);
    let second = put_named(out, first, b", turn length ", q as u64);
    let third = put_named(out, second, b", current ", current as u64);
    let fourth = put_named(out, third, b", steps left ", left as u64);
    put_byte(out, fourth, b'\n')
}

// The whole text. Answers its length.
pub fn put_house(h: House, out: &mut [u8; ROOM]) -> usize
    ensures out_after { (result, out.new) ≡ put (look_of h) out.old }
    ensures counts { Counts result out.new }
{
    let parts = h.parts;
    let running = h.running;
    let regs = h.regs;
    let first = put_text(out, 0, b"house: ");
    let second = put_turn(out, first, h.count, h.q, h.current, h.left);
    put_partitions(out, second, used(h.count), &running, parts, &regs)
}
