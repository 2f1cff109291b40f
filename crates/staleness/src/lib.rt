// The audit: is every valid shadow entry what the guest's table and the host's list give now? Two readings and a mending, each linear in the entries.
#![tactic(auto)]

ghost use Rattle.std.specs.Prelude.{◌≡◌, List, ℕ, ◌<◌, length};
ghost use Rattle.addresses.specs.Walk.{entries};
ghost use Rattle.addresses.specs.Memory.{stale};
ghost use Rattle.addresses.specs.Premises.{Placed};
ghost use Rattle.house.specs.Lists.{list_from};
ghost use Rattle.house.specs.House.{pages_of, frames_of};
ghost use Rattle.house.specs.Boot.{sum};
ghost use Rattle.house.specs.Turns.{world, stale_at};
ghost use Rattle.house.specs.Refusals.{verdict_of, answer_of};
ghost use Rattle.staleness.specs.Audit.{audit_verdict, stale_in, kept_in, IsFirst, found, first_stale, finding_of, audit_call, count_of, stale_count, stale_counts, counts_of, counts_call, mended_one, mended, mend_call, Walkable};

use addresses::ENTRIES;
use damage::damaged;
use dlx::partition::Table;
use dlx::words::wide;
use house::{Answer, Done, House, Refusal};
use translate::walk;

// Where a stale entry stands.
#[derive(Clone, Copy, Debug, PartialEq, Eq)]
pub struct Stale {
    pub partition: u32,
    pub page: u32,
}

// ---- one entry

// Entry e of page px is stale.
#[tactic(auto, unfolding(addresses::specs::Memory::stale))]
fn is_stale(words: &[u32], frames: &[u32], pages: u32, t: Table, px: u32, e: u32) -> bool
    requires { Placed frames.now pages (length words.now) }
    ensures { result ≡ stale frames.now pages t words.now px e }
{
    e / 2048 % 2 == 1 && e != walk(words, frames, pages, t, px)
}

// ---- one shadow

// The first page whose entry is stale.
fn first_page(words: &[u32], frames: &[u32], shadow: &[u32], pages: u32, t: Table) -> Option<u32>
    requires placed { Placed frames.now pages (length words.now) }
    requires shadow_length { length shadow.now ≡ entries }
    ensures { IsFirst (stale_in frames.now pages t words.now shadow.now) entries result }
{
    for (px, e) in shadow.iter().enumerate() {
        let px = px as u32;
        if is_stale(words, frames, pages, t, px, *e) {
            return Some(px);
        }
    }
    None
}

// How many are stale.
fn count_stale(words: &[u32], frames: &[u32], shadow: &[u32], pages: u32, t: Table) -> u32
    requires placed { Placed frames.now pages (length words.now) }
    requires shadow_length { length shadow.now ≡ entries }
    ensures { result ≡ count_of (stale_in frames.now pages t words.now shadow.now) entries }
{
    let mut n = 0;
    for (px, e) in shadow.iter().enumerate() {
        if is_stale(words, frames, pages, t, px as u32, *e) {
            n += 1;
        }
    }
    n
}

// The stale ones become empty.
fn mend_shadow(words: &[u32], frames: &[u32], shadow: &mut [u32], pages: u32, t: Table)
    requires placed { Placed frames.now pages (length words.now) }
    requires shadow_length { length shadow.old ≡ entries }
    ensures { shadow.new ≡ list_from (kept_in frames.now pages t words.now shadow.old) 0 entries }
{
    for (px, e) in shadow.iter_mut().enumerate() {
        if is_stale(words, frames, pages, t, px as u32, *e) {
            *e = 0;
        }
    }
}

// ---- one partition

// Partition i's first stale page.
fn first_of(h: &House, memory: &[u32], i: u32) -> Option<u32>
    requires i_bound { i < 8 }
    requires placed { Placed (frames_of h.now i) (pages_of h.now i) (length memory.now) }
    ensures { IsFirst (stale_at (world h.now memory.now) i) entries result }
{
    let k = wide(i);
    let p = h.parts[k];
    let frames = &h.frames[k * 256..k * 256 + 256];
    let shadow = &h.shadows[k * ENTRIES..k * ENTRIES + ENTRIES];
    first_page(memory, frames, shadow, p.pages, p.table)
}

// How many of its entries are stale.
fn count_of(h: &House, memory: &[u32], i: u32) -> u32
    requires i_bound { i < 8 }
    requires placed { Placed (frames_of h.now i) (pages_of h.now i) (length memory.now) }
    ensures { result ≡ stale_count (world h.now memory.now) i }
{
    let k = wide(i);
    let p = h.parts[k];
    let frames = &h.frames[k * 256..k * 256 + 256];
    let shadow = &h.shadows[k * ENTRIES..k * ENTRIES + ENTRIES];
    count_stale(memory, frames, shadow, p.pages, p.table)
}

// The house with its stale entries empty.
fn mend_of(h: House, memory: &[u32], i: u32) -> House
    requires i_bound { i < 8 }
    requires placed { Placed (frames_of h i) (pages_of h i) (length memory.now) }
    ensures { world result memory.now ≡ mended_one (world h memory.now) i }
{
    let k = wide(i);
    let p = h.parts[k];
    let frames = &h.frames[k * 256..k * 256 + 256];
    let mut shadows = h.shadows;
    let shadow = &mut shadows[k * ENTRIES..k * ENTRIES + ENTRIES];
    mend_shadow(memory, frames, shadow, p.pages, p.table);
    House { shadows, ..h }
}

// ---- all partitions

fn first_stale(h: House, memory: &[u32]) -> Option<Stale>
    requires { Walkable (world h memory.now) }
    ensures { found result ≡ first_stale (world h memory.now) }
{
    for i in 0..h.count {
        if let Some(page) = first_of(&h, memory, i) {
            return Some(Stale { partition: i, page });
        }
    }
    None
}

fn count_each(h: House, memory: &[u32]) -> [u32; 8]
    requires { Walkable (world h memory.now) }
    ensures { result ≡ stale_counts (world h memory.now) }
{
    let mut each = [0u32; 8];
    for i in 0..h.count {
        each[wide(i)] = count_of(&h, memory, i);
    }
    each
}

fn mend_each(h: House, memory: &[u32]) -> House
    requires { Walkable (world h memory.now) }
    ensures { world result memory.now ≡ mended (world h memory.now) }
{
    let mut r = h;
    for i in 0..h.count {
        r = mend_of(r, memory, i);
    }
    r
}

fn total(each: [u32; 8]) -> u64
    ensures { result ≡ sum each }
{
    let mut n = 0;
    for x in &each {
        n += u64::from(*x);
    }
    n
}

// ---- the calls

// Does anything refuse them with a memory of this length?
#[tactic(auto, unfolding(crate::specs::Audit::audit_verdict, house::specs::Boot::first_of))]
fn check(h: House, size: usize) -> Result<(), Refusal>
    ensures { (m : List ℕ) (d : ℕ) → length m ≡ size → verdict_of d result ≡ audit_verdict (world h m) d }
{
    if damaged(h) {
        return Err(Refusal::Damaged);
    }
    if size != wide(h.words) {
        return Err(Refusal::OtherMemory);
    }
    Ok(())
}

// Is any entry stale, and which is the first, by partition and then by page?
#[tactic(auto, using(crate::proofs::Verdicts::of_audit))]
pub fn audit(h: House, memory: &[u32]) -> Result<Option<Stale>, Refusal>
    ensures { finding_of result ≡ audit_call (world h memory.now) }
{
    check(h, memory.len())?;
    Ok(first_stale(h, memory))
}

// How many entries of each partition are stale?
#[tactic(auto, using(crate::proofs::Verdicts::of_counts))]
pub fn stale_counts(h: House, memory: &[u32]) -> Result<[u32; 8], Refusal>
    ensures { counts_of result ≡ counts_call (world h memory.now) }
{
    check(h, memory.len())?;
    Ok(count_each(h, memory))
}

// The stale entries, and no others, become empty. The detail is how many there were.
#[tactic(auto, using(crate::proofs::Verdicts::of_mend), unfolding(crate::specs::Audit::mend_call))]
pub fn mend(h: House, memory: &[u32]) -> Answer
    ensures { answer_of h result memory.now ≡ mend_call (world h memory.now) }
{
    check(h, memory.len())?;
    let detail = total(count_each(h, memory));
    let house = mend_each(h, memory);
    Ok(Done { detail, house })
}
