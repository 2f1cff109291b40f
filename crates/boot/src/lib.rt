// Boot: the refusals in their order, each search giving both the test and the detail; then the house, with every frame list at its place.
#![tactic(auto)]

ghost use Rattle.std.specs.Prelude.{◌≡◌, ℕ, ◌<◌, ◌≤◌, ltb, length, get_or};
ghost use Rattle.dlx.specs.Processor.{fresh_of};
ghost use Rattle.house.specs.Lists.{between, list_from, first_from};
ghost use Rattle.house.specs.House.{no_house, no_partition};
ghost use Rattle.house.specs.Damage.{whole_frames};
ghost use Rattle.house.specs.Boot.{sum, laid, pages_wrong, frame_outside, frame_kept, stood_earlier, boot_verdict, booted_house};
ghost use Rattle.house.specs.Calls.{boot_call};
ghost use Rattle.house.specs.Refusals.{verdict_of, answer_of};
ghost use Rattle.boot.specs.Places.{filled, Few, Fitting};

use dlx::partition::Partition;
use dlx::words::wide;
use house::{Answer, Done, House, Refusal};
use marks::mark;

// low <= n <= high.
fn within(low: usize, n: usize, high: usize) -> bool
    ensures { result ≡ between low n high }
{
    (low..=high).contains(&n)
}

// The first partition with a page count not 1..256, or how many partitions there are.
fn first_wrong(pages: &[u32]) -> usize
    ensures { result ≡ first_from (pages_wrong pages.now) 0 (length pages.now) }
{
    pages
        .iter()
        .position(|n| !(1..=256).contains(n))
        .unwrap_or(pages.len())
}

// The memory is 1..1,024 whole frames.
fn whole(words: usize) -> bool
    ensures { result ≡ whole_frames words }
{
    words % 1024 == 0 && within(1, words / 1024, 1024)
}

// The pages of all partitions.
fn total(pages: &[u32]) -> usize
    requires { Few pages.now }
    ensures { result ≡ sum pages.now }
{
    pages.iter().map(|n| wide(*n)).sum()
}

// The first position whose frame is not below the memory's frames, or the list's length.
fn first_outside(frames: &[u32], words: usize) -> usize
    ensures { result ≡ first_from (frame_outside frames.now words) 0 (length frames.now) }
{
    let count = words / 1024;
    frames
        .iter()
        .position(|f| count <= wide(*f))
        .unwrap_or(frames.len())
}

// The first position that names frame 0, or the list's length.
fn first_kept(frames: &[u32]) -> usize
    ensures { result ≡ first_from (frame_kept frames.now) 0 (length frames.now) }
{
    frames.iter().position(|f| *f == 0).unwrap_or(frames.len())
}

// The smallest position whose frame stood earlier, or the list's length.
fn first_repeat(frames: &[u32]) -> usize
    requires { (k : ℕ) → k < length frames.now → get_or frames.now k 0 < 1024 }
    ensures { result ≡ first_from (stood_earlier frames.now) 0 (length frames.now) }
{
    let mut seen = [0u32; 1024];
    mark(frames, frames.len(), 1, &mut seen).unwrap_or(frames.len())
}

// The first refusal that applies.
fn check(pages: &[u32], q: u32, frames: &[u32], words: usize) -> Result<(), Refusal>
    ensures { verdict_of 0 result ≡ boot_verdict pages.now q frames.now words }
{
    if !within(1, pages.len(), 8) {
        return Err(Refusal::PartitionCount);
    }
    let wrong = first_wrong(pages);
    if wrong < pages.len() {
        return Err(Refusal::PageCount(wrong as u64));
    }
    if !within(1, dlx::words::wide(q), 10000) {
        return Err(Refusal::TurnLength);
    }
    if !whole(words) {
        return Err(Refusal::MemorySize);
    }
    if frames.len() != total(pages) {
        return Err(Refusal::ListLength);
    }
    let outside = first_outside(frames, words);
    if outside < frames.len() {
        return Err(Refusal::FrameOutside(outside as u64));
    }
    let kept = first_kept(frames);
    if kept < frames.len() {
        return Err(Refusal::FrameKept(kept as u64));
    }
    let repeat = first_repeat(frames);
    if repeat < frames.len() {
        return Err(Refusal::FrameTwice(repeat as u64));
    }
    Ok(())
}

// The first count partitions run.
fn all_running(count: usize) -> [bool; 8]
    requires { count ≤ 8 }
    ensures { result ≡ list_from (λ i. ltb i count) 0 8 }
{
    let mut running = [false; 8];
    running[..count].fill(true);
    running
}

// A fresh partition for each page count.
fn fresh_parts(pages: &[u32]) -> [Partition; 8]
    requires { Few pages.now }
    ensures { result ≡ filled (λ i. fresh_of (get_or pages.now i 0)) no_partition 8 (length pages.now) }
{
    let mut parts = House::none().parts;
    for (i, n) in pages.iter().enumerate() {
        parts[i] = Partition::fresh(*n);
    }
    parts
}

// Every frame list at its partition's place.
fn lay(pages: &[u32], frames: &[u32]) -> [u32; 2048]
    requires { Fitting pages.now frames.now }
    ensures { result ≡ list_from (laid pages.now frames.now) 0 2048 }
{
    let mut places = [0u32; 2048];
    let mut from = 0;
    for (i, n) in pages.iter().enumerate() {
        let n = wide(*n);
        let base = i * 256;
        places[base..base + n].copy_from_slice(&frames[from..from + n]);
        from += n;
    }
    places
}

// The house that boot makes.
fn booted(pages: &[u32], q: u32, frames: &[u32], words: usize) -> House
    requires fitting { Fitting pages.now frames.now }
    requires words_bound { words ≤ 1048576 }
    ensures { result ≡ booted_house pages.now q frames.now words }
{
    // Not `..House::none()`: with that, a house more stands on the stack (docs/DESIGN-PASS.md).
    let mut house = House::none();
    house.count = pages.len() as u32;
    house.q = q;
    house.words = words as u32;
    house.left = q;
    house.running = all_running(pages.len());
    house.parts = fresh_parts(pages);
    house.frames = lay(pages, frames);
    house
}

// The house of these partitions, all running, with turns of q steps, their frames in a memory of so many words; or what refuses it.
pub fn boot(pages: &[u32], q: u32, frames: &[u32], memory: &[u32]) -> Answer
    ensures { answer_of no_house result memory.now ≡ boot_call pages.now q frames.now memory.now }
{
    check(pages, q, frames, memory.len())?;
    let house = booted(pages, q, frames, memory.len());
    Ok(Done { detail: 0, house })
}
