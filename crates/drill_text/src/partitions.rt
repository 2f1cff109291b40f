// The lines that tell of the partitions. A partition of which every number is 0 has none.
ghost use Rattle.std.specs.Prelude.{◌≡◌, ◌+◌, ◌-◌, ◌*◌, ◌<◌, [], ◌++◌, length, take, slice_index_or};
ghost use Rattle.decimal.specs.Texts.{ascii, Puts, joined};
ghost use Rattle.dlx.specs.Parts.{inner};
ghost use Rattle.addresses.specs.Walk.{entries as shadow_length};
ghost use Rattle.house.specs.House.{all_entries, no_partition};
ghost use Rattle.drill_text.specs.Lines.{row_of};
ghost use Rattle.drill_text.specs.Numbers.{number_of};
ghost use Rattle.drill_text.specs.Partitions.{longest, specials_of, zeros_of, listed_of, blank_of, own_of, entry_of, entries_of, shadow_of, partition_of, partitions_of};

use crate::ROOM;
use crate::lines::{rest, row};
use crate::numbers::number;
use addresses::ENTRIES;
use decimal::{put_byte, put_decimal, put_text};
use dlx::partition::{Partition, Processor, Table, Timer};
use house::House;

// From DPC to EMODE, in the text's order, the latest fault, and the timer.
#[tactic(auto, unfolding(crate::specs::Partitions::specials_of))]
fn specials(p: Processor, t: Table, fault: u32, k: Timer) -> [u32; 15]
    ensures { result ≡ specials_of p t fault k }
{
    [
        p.dpc, p.pc, p.sr, p.esr, p.eca, p.epc, p.edpc, p.edata, p.mode, t.pto, t.ptl, p.emode,
        fault, k.tcount, k.tload,
    ]
}

// All of them are 0.
pub(crate) fn zeros(words: &[u32]) -> bool
    ensures { result ≡ zeros_of words.now }
{
    words.iter().all(|w| *w == 0)
}

// How many words there are up to the last that is not 0.
pub(crate) fn listed(words: &[u32]) -> usize
    ensures { result ≡ listed_of words.now }
{
    words.iter().rposition(|w| *w != 0).map_or(0, |i| i + 1)
}

#[tactic(auto, unfolding(crate::specs::Partitions::blank_of))]
fn blank(p: Partition, registers: &[u32], frames: &[u32], shadow: &[u32]) -> bool
    ensures { result ≡ blank_of p registers.now frames.now shadow.now }
{
    p.pages == 0
        && p.counter == 0
        && zeros(&specials(p.processor, p.table, p.fault, p.timer))
        && zeros(registers)
        && zeros(frames)
        && zeros(shadow)
}

// Page count, counter and special registers of partition i.
fn own_line(
    text: &mut [u8; ROOM],
    used: usize,
    i: usize,
    pages: u32,
    counter: u64,
    specials: &[u32; 15],
) -> usize
    ensures { Puts text.old used text.new result (ascii "partition" ++ (number_of i ++ (number_of pages ++ (number_of counter ++ row_of [] specials.now)))) 388 }
{
    let named = put_text(text, used, b"partition");
    let numbered = number(text, named, i as u64);
    let paged = number(text, numbered, pages as u64);
    let counted = number(text, paged, counter);
    rest(text, counted, specials)
}

fn own(text: &mut [u8; ROOM], used: usize, i: usize, p: Partition) -> usize
    ensures { Puts text.old used text.new result (own_of i p) 388 }
{
    let rest = specials(p.processor, p.table, p.fault, p.timer);
    own_line(text, used, i, p.pages, p.counter, &rest)
}

// A shadow entry that is not 0, behind its number.
fn entry(text: &mut [u8; ROOM], used: usize, px: usize, e: u32) -> usize
    ensures { Puts text.old used text.new result (entry_of px e) 42 }
{
    if e == 0 {
        return used;
    }
    let numbered = number(text, used, px as u64);
    let parted = put_byte(text, numbered, b':');
    put_decimal(text, parted, e as u64)
}

fn entries(text: &mut [u8; ROOM], used: usize, shadow: &[u32]) -> usize
    ensures { Puts text.old used text.new result (entries_of shadow.now) (42 * length shadow.now) }
{
    let mut end = used;
    for (px, e) in shadow.iter().enumerate() {
        end = entry(text, end, px, *e);
    }
    end
}

fn shadow(text: &mut [u8; ROOM], used: usize, words: &[u32]) -> usize
    ensures { Puts text.old used text.new result (shadow_of words.now) (6 + (42 * length words.now + 1)) }
{
    let named = put_text(text, used, b"shadow");
    let told = entries(text, named, words);
    put_byte(text, told, b'\n')
}

// Registers, listed frames and shadow.
fn arrays(
    text: &mut [u8; ROOM],
    used: usize,
    registers: &[u32],
    frames: &[u32],
    entries: &[u32],
) -> usize
    requires registers_length { length registers.now ≡ 32 }
    requires frames_length { length frames.now ≡ 256 }
    requires entries_length { length entries.now ≡ shadow_length }
    ensures { Puts text.old used text.new result (row_of (ascii "registers") registers.now ++ (row_of (ascii "frames") (take (listed_of frames.now) frames.now) ++ shadow_of entries.now)) (longest - 388) }
{
    let n = listed(frames);
    let registered = row(text, used, b"registers", registers);
    let framed = row(text, registered, b"frames", &frames[..n]);
    shadow(text, framed, entries)
}

fn partition(
    text: &mut [u8; ROOM],
    used: usize,
    i: usize,
    p: Partition,
    registers: &[u32],
    frames: &[u32],
    entries: &[u32],
) -> usize
    requires registers_length { length registers.now ≡ 32 }
    requires frames_length { length frames.now ≡ 256 }
    requires entries_length { length entries.now ≡ shadow_length }
    ensures { Puts text.old used text.new result (partition_of i p registers.now frames.now entries.now) longest }
{
    if blank(p, registers, frames, entries) {
        return used;
    }
    let told = own(text, used, i, p);
    arrays(text, told, registers, frames, entries)
}

// Partition i, with its part of each array.
fn nth(
    text: &mut [u8; ROOM],
    used: usize,
    i: usize,
    p: Partition,
    registers: &[u32],
    frames: &[u32],
    shadows: &[u32],
) -> usize
    requires i_bound { i < 8 }
    requires registers_length { length registers.now ≡ 256 }
    requires frames_length { length frames.now ≡ 2048 }
    requires shadows_length { length shadows.now ≡ all_entries }
    ensures { Puts text.old used text.new result (partition_of i p (inner (i * 32) 32 registers.now) (inner (i * 256) 256 frames.now) (inner (i * shadow_length) shadow_length shadows.now)) longest }
{
    let a = i * 32;
    let b = a + 32;
    let c = i * 256;
    let d = c + 256;
    let e = i * ENTRIES;
    let f = e + ENTRIES;
    partition(
        text,
        used,
        i,
        p,
        &registers[a..b],
        &frames[c..d],
        &shadows[e..f],
    )
}

fn each(
    text: &mut [u8; ROOM],
    used: usize,
    parts: [Partition; 8],
    registers: &[u32],
    frames: &[u32],
    shadows: &[u32],
) -> usize
    requires registers_length { length registers.now ≡ 256 }
    requires frames_length { length frames.now ≡ 2048 }
    requires shadows_length { length shadows.now ≡ all_entries }
    ensures { Puts text.old used text.new result (joined (λ k. partition_of k (slice_index_or parts k no_partition) (inner (k * 32) 32 registers.now) (inner (k * 256) 256 frames.now) (inner (k * shadow_length) shadow_length shadows.now)) 8) (8 * longest) }
{
    let mut end = used;
    for (i, p) in parts.iter().enumerate() {
        end = nth(text, end, i, *p, registers, frames, shadows);
    }
    end
}

#[tactic(auto, unfolding(crate::specs::Partitions::partitions_of))]
pub fn partitions(text: &mut [u8; ROOM], used: usize, h: House) -> usize
    ensures { Puts text.old used text.new result (partitions_of h) (8 * longest) }
{
    each(text, used, h.parts, &h.regs, &h.frames, &h.shadows)
}
