// The damage check. Each frame is marked with its owner once; then every second standing of a frame, and every shadow entry, is one look.
#![tactic(auto)]

ghost use Rattle.std.specs.Prelude.{◌≡◌, false, ◌/◌, ◌<◌, ◌≤◌, length, get_or, replicate};
ghost use Rattle.addresses.specs.Walk.{entries};
ghost use Rattle.house.specs.Lists.{any};
ghost use Rattle.house.specs.House.{no_partition};
ghost use Rattle.house.specs.Damage.{damaged, partition_used, not_zero};
ghost use Rattle.damage.specs.Marks.{Within, inside, pages_outside, barred_at, frames_barred, outside, owners_of, twice_in, entry_marked, shadow_marked, turn_outside, processor_wrong, registers_at, behind, room_wrong, count_wrong, queue_outside, queue_at};

use addresses::ENTRIES;
use dlx::partition::{Partition, Processor};
use dlx::words::wide;
use house::House;
use marks::mark;

// Some partition below n runs.
pub fn any_runs(running: &[bool; 8], n: usize) -> bool
    requires { n ≤ 8 }
    ensures { result ≡ any (λ j. get_or running.now j false) n }
{
    running[..n].iter().any(|runs| *runs)
}

// A partition's page count isn't 1 to 256.
fn pages_outside(h: &House) -> bool
    requires { h.now.count ≤ 8 }
    ensures { result ≡ any (pages_outside h.now.parts) h.now.count }
{
    h.parts[..wide(h.count)]
        .iter()
        .any(|p| !(1..=256).contains(&p.pages))
}

// One of the first n frames of a list lies outside a memory of so many frames, or is frame 0.
fn frame_barred(frames: &[u32], n: usize, size: u32) -> bool
    requires { n ≤ length frames.now }
    ensures { result ≡ any (barred_at frames.now size) n }
{
    frames[..n].iter().any(|f| *f >= size || *f == 0)
}

// A frame of a partition lies outside the memory, or is frame 0.
fn frames_barred(h: &House) -> bool
    requires { (h.now.count ≤ 8) × (any (pages_outside h.now.parts) h.now.count ≡ false) }
    ensures { result ≡ any (frames_barred h.now.parts h.now.frames (h.now.words / 1024)) h.now.count }
{
    for (i, p) in h.parts[..wide(h.count)].iter().enumerate() {
        let base = i * 256;
        if frame_barred(&h.frames[base..base + 256], wide(p.pages), h.words / 1024) {
            return true;
        }
    }
    false
}

// The house is outside boot's limits.
fn outside_limits(h: &House) -> bool
    ensures { result ≡ outside h.now.count h.now.q h.now.words h.now.parts h.now.frames }
{
    !(1..=8).contains(&h.count)
        || pages_outside(h)
        || !(1..=10000).contains(&h.q)
        || h.words % 1024 != 0
        || !(1..=1024).contains(&(h.words / 1024))
        || frames_barred(h)
}

// Marks the partitions' frames, up to one that stands twice.
fn mark_all(h: &House, owners: &mut [u32; 1024]) -> bool
    requires { Within h.now.count h.now.parts h.now.frames × (owners.old ≡ replicate 1024 0) }
    ensures { (result ≡ any (twice_in h.now.parts h.now.frames) h.now.count) × (result ≡ false → owners.new ≡ owners_of h.now.parts h.now.frames h.now.count) }
{
    for (i, p) in h.parts[..wide(h.count)].iter().enumerate() {
        let base = i * 256;
        let frames = &h.frames[base..base + 256];
        if mark(frames, wide(p.pages), i as u32 + 1, owners).is_some() {
            return true;
        }
    }
    false
}

// The current partition doesn't run, or its steps left are not 1 to q; or none is current, and one runs.
fn turn_wrong(h: &House) -> bool
    requires { h.now.count ≤ 8 }
    ensures { result ≡ turn_outside h.now.count h.now.q h.now.current h.now.left h.now.running }
{
    if h.left == 0 {
        return h.current != 0 || any_runs(&h.running, 8);
    }
    h.current >= h.count || !h.running[wide(h.current)] || h.left > h.q
}

// Register 0 isn't zero, MODE or EMODE is above 1, or the latest fault above 7.
fn processor_wrong(p: &Processor, first: u32, fault: u32) -> bool
    ensures { result ≡ processor_wrong p.now first fault }
{
    first != 0 || p.mode > 1 || p.emode > 1 || fault > 7
}

// The same of the partitions.
fn registers_wrong(h: &House) -> bool
    requires { h.now.count ≤ 8 }
    ensures { result ≡ any (registers_at h.now.parts h.now.regs) h.now.count }
{
    for (i, p) in h.parts[..wide(h.count)].iter().enumerate() {
        if processor_wrong(&p.processor, h.regs[i * 32], p.fault) {
            return true;
        }
    }
    false
}

// A shadow entry of the owner with this tag is wrong. Whether it is valid, of a frame below 1,024, with nothing in its unused bits, is one test of its bits.
fn entry_wrong(e: u32, tag: u32, owners: &[u32; 1024]) -> bool
    requires { (0 < tag) × (length owners.now ≡ 1024) }
    ensures { result ≡ entry_marked owners.now tag e }
{
    if e == 0 {
        return false;
    }
    if (e / 2048 % 2 != 1) | (e >= 4194304) | (e % 1024 != 0) {
        return true;
    }
    let frame = wide(e / 4096);
    owners[frame] != tag
}

// Anything but 0 in some places. All bits are gathered, with no way out between: the compiler takes several places at a time.
fn not_zero(places: &[u32]) -> bool
    ensures { result ≡ not_zero places.now 0 (length places.now) }
{
    let mut bits = 0;
    for x in places {
        bits |= *x;
    }
    bits != 0
}

// An entry of a group of the owner with this tag is wrong: by one look at all of them where they are empty, as most are.
fn group_wrong(group: &[u32], tag: u32, owners: &[u32; 1024]) -> bool
    requires { (0 < tag) × (length owners.now ≡ 1024) }
    ensures { result ≡ any (λ k. entry_marked owners.now tag (get_or group.now k 0)) (length group.now) }
{
    not_zero(group) && group.iter().any(|e| entry_wrong(*e, tag, owners))
}

// An entry of the shadow of the owner with this tag is wrong.
fn shadow_wrong(shadow: &[u32], tag: u32, owners: &[u32; 1024]) -> bool
    requires { (length shadow.now ≡ entries) × (0 < tag) × (length owners.now ≡ 1024) }
    ensures { result ≡ any (λ px. entry_marked owners.now tag (get_or shadow.now px 0)) entries }
{
    for base in (0..ENTRIES).step_by(32) {
        if group_wrong(&shadow[base..base + 32], tag, owners) {
            return true;
        }
    }
    false
}

// A shadow entry of a partition is wrong.
fn shadows_wrong(h: &House, owners: &[u32; 1024]) -> bool
    requires { (h.now.count ≤ 8) × (length owners.now ≡ 1024) }
    ensures { result ≡ any (shadow_marked owners.now h.now.shadows) h.now.count }
{
    for i in 0..wide(h.count) {
        let base = i * ENTRIES;
        if shadow_wrong(&h.shadows[base..base + ENTRIES], i as u32 + 1, owners) {
            return true;
        }
    }
    false
}

// Anything but 0 in a partition that isn't there.
fn partition_used(p: &Partition) -> bool
    ensures { result ≡ partition_used p.now }
{
    let s = &p.processor;
    let t = &p.table;
    let k = &p.timer;
    let numbers = [
        p.pages, s.dpc, s.pc, s.sr, s.esr, s.eca, s.epc, s.edpc, s.edata, s.mode, s.emode, t.pto,
        t.ptl, k.tcount, k.tload, p.fault,
    ];
    not_zero(&numbers) || p.counter != 0
}

// Anything but 0 behind the first n of a list: behind the frames, or behind the tickets.
fn behind_used(l: &[u32], n: usize) -> bool
    ensures { result ≡ any (behind l.now n) (length l.now) }
{
    n < l.len() && not_zero(&l[n..])
}

// Anything but 0 in the unused places of partition i's room.
#[tactic(auto, using(crate::proofs::Marks::lent_zero))]
fn room_wrong(h: &House, i: usize) -> bool
    requires { i < 8 }
    ensures { result ≡ room_wrong h.now.count i (get_or h.now.running i false) (get_or h.now.parts i no_partition) h.now.regs h.now.frames h.now.shadows }
{
    let p = &h.parts[i];
    let frames = &h.frames[i * 256..i * 256 + 256];
    if i < wide(h.count) {
        return behind_used(frames, wide(p.pages));
    }
    h.running[i]
        || partition_used(p)
        || not_zero(&h.regs[i * 32..i * 32 + 32])
        || not_zero(frames)
        || not_zero(&h.shadows[i * ENTRIES..i * ENTRIES + ENTRIES])
}

// Anything but 0 in an unused place.
fn unused_wrong(h: &House) -> bool
    ensures { result ≡ any (λ i. room_wrong h.now.count i (get_or h.now.running i false) (get_or h.now.parts i no_partition) h.now.regs h.now.frames h.now.shadows) 8 }
{
    for i in 0..8 {
        if room_wrong(h, i) {
            return true;
        }
    }
    false
}

// A count n of queue j above 32, or not 0 though the partition isn't there.
fn count_wrong(count: u32, j: usize, n: u32) -> bool
    ensures { result ≡ count_wrong count j n }
{
    n > 32 || (j >= wide(count) && n != 0)
}

// The same, or anything but 0 behind the n tickets of queue j.
fn queue_wrong(count: u32, j: usize, n: u32, places: &[u32]) -> bool
    requires { length places.now ≡ 32 }
    ensures { result ≡ queue_outside count j n places.now }
{
    count_wrong(count, j, n) || behind_used(places, wide(n))
}

// A queue is wrong.
fn queues_wrong(h: &House) -> bool
    ensures { result ≡ any (queue_at h.now.count h.now.tickets h.now.waiting) 8 }
{
    for (j, n) in h.waiting.iter().enumerate() {
        let base = j * 32;
        if queue_wrong(h.count, j, *n, &h.tickets[base..base + 32]) {
            return true;
        }
    }
    false
}

// Damage in a house inside boot's limits, but for the queues.
#[tactic(auto, using(crate::proofs::Marks::shadows_by_marks))]
fn inside_wrong(h: &House) -> bool
    requires { Within h.now.count h.now.parts h.now.frames }
    ensures { result ≡ inside h.now.count h.now.q h.now.current h.now.left h.now.running h.now.parts h.now.regs h.now.frames h.now.shadows }
{
    let mut owners = [0u32; 1024];
    mark_all(h, &mut owners)
        || turn_wrong(h)
        || registers_wrong(h)
        || shadows_wrong(h, &owners)
        || unused_wrong(h)
}

// The house is damaged.
#[tactic(auto, using(crate::proofs::Marks::grouped))]
pub fn damaged(h: House) -> bool
    ensures { result ≡ damaged h }
{
    outside_limits(&h) || inside_wrong(&h) || queues_wrong(&h)
}
