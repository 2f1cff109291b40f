// Address translation and shadow tables, by the definitions of `translate`. The arrays are lent: a partition's frame list, its shadow table, and the host's words.
#![tactic(auto)]

ghost use Rattle.std.specs.Prelude.{◌≡◌, ◌+◌, ◌*◌, ◌/◌, ◌%◌, ◌<◌, length, true};
ghost use Rattle.dlx.specs.Fields.{aligned, storing, width, placed};
ghost use Rattle.dlx.specs.declared.partition.Table.{Table};
ghost use Rattle.addresses.specs.Entries.{composed_page};
ghost use Rattle.addresses.specs.Walk.{entries, direct};
ghost use Rattle.addresses.specs.Memory.{updated, host, hosted, given, looked, served, host_reads, host_writes, emptied, fresh_shadow};
ghost use Rattle.addresses.specs.Premises.{Listed, Placed, Shadowed};

use addresses::ENTRIES;
use dlx::partition::Table;
use dlx::words::wide;

// Virtual pages are below it.
const LIMIT: u32 = ENTRIES as u32;

// Entry composition: 0 is load, all else store. Answers the guest page, or none for a fault.
pub fn compose(entry: u32, pages: u32, access: u32) -> Option<u32>
    ensures { result ≡ composed_page entry pages access }
{
    if entry / 2048 % 2 != 1 {
        return None;
    }
    if entry / 4096 >= pages {
        return None;
    }
    if access == 0 {
        return Some(entry / 4096);
    }
    if entry / 1024 % 2 == 1 {
        return None;
    }
    Some(entry / 4096)
}

// The shadow entry that the guest's table and the host's list give now for page px, or the fault's number.
pub fn walk(words: &[u32], frames: &[u32], pages: u32, t: Table, px: u32) -> u32
    requires { Placed frames.now pages (length words.now) }
    ensures { result ≡ given frames.now pages t words.now px }
{
    if px >= t.ptl {
        return 1;
    }
    if px >= LIMIT {
        return 2;
    }
    let pto = t.pto;
    if pto >= pages {
        return 3;
    }
    let entry = words[wide(frames[wide(pto)]) * 1024 + wide(px)];
    if entry / 2048 % 2 != 1 {
        return 4;
    }
    let page = entry / 4096;
    if page >= pages {
        return 5;
    }
    let frame = frames[wide(page)];
    frame * 4096 + 2048 + entry / 1024 % 2 * 1024
}

// The entry of the shadow for page px, filled from the guest's table where it is empty; or the fault's number.
fn look(words: &[u32], frames: &[u32], shadow: &mut [u32], pages: u32, t: Table, px: u32) -> u32
    requires placed { Placed frames.now pages (length words.now) }
    requires shadowed { Shadowed frames.now pages shadow.old }
    ensures { (result, host t words.now shadow.new) ≡ looked frames.now pages (host t words.now shadow.old) px }
{
    if px >= LIMIT {
        return walk(words, frames, pages, t, px);
    }
    let e = shadow[wide(px)];
    if e / 2048 % 2 == 1 {
        return e;
    }
    let w = walk(words, frames, pages, t, px);
    if w / 2048 % 2 == 1 {
        shadow[wide(px)] = w;
        return w;
    }
    w
}

// The entry of a system-mode address, or 7.
pub fn straight(frames: &[u32], pages: u32, a: u32) -> u32
    requires { Listed frames.now pages }
    ensures { result ≡ hosted frames.now (direct pages a) }
{
    let page = a / 4096;
    if page >= pages {
        return 7;
    }
    let frame = frames[wide(page)];
    frame * 4096 + 2048
}

// The entry that serves an access at address a, or the fault's number.
fn serve(
    words: &[u32],
    frames: &[u32],
    shadow: &mut [u32],
    pages: u32,
    t: Table,
    user: bool,
    a: u32,
) -> u32
    requires placed { Placed frames.now pages (length words.now) }
    requires shadowed { Shadowed frames.now pages shadow.old }
    ensures { (result, host t words.now shadow.new) ≡ served frames.now pages (host t words.now shadow.old) user a }
{
    if user {
        return look(words, frames, shadow, pages, t, a / 4096);
    }
    straight(frames, pages, a)
}

// The word at address a, or the translation fault's number.
pub fn load(
    words: &[u32],
    frames: &[u32],
    shadow: &mut [u32],
    pages: u32,
    t: Table,
    user: bool,
    a: u32,
) -> Result<u32, u32>
    requires placed { Placed frames.now pages (length words.now) }
    requires shadowed { Shadowed frames.now pages shadow.old }
    ensures { (result, host t words.now shadow.new) ≡ host_reads frames.now pages (host t words.now shadow.old) user a }
{
    let e = serve(words, frames, shadow, pages, t, user, a);
    if e / 2048 % 2 == 1 {
        return Ok(words[wide(e / 4096) * 1024 + wide(a / 4 % 1024)]);
    }
    Err(e)
}

// The word x after a store of v by an opcode at address a. The opcode's bit 1 tells a word, bit 0 a half word.
pub fn place(o: u32, a: u32, v: u32, x: u32) -> u32
    requires storing { storing o ≡ true }
    requires aligned { aligned (width o) a ≡ true }
    ensures { result ≡ placed o a v x }
{
    if o / 2 % 2 == 1 {
        return v;
    }
    let k = a % 4 * 8;
    if o % 2 == 1 {
        return x - ((x >> k) % 65536 << k) + (v % 65536 << k);
    }
    x - ((x >> k) % 256 << k) + (v % 256 << k)
}

// One word of a frame, after such a store.
pub fn put(frame: &mut [u32], off: usize, o: u32, a: u32, v: u32)
    requires frame_room { off < length frame.old }
    requires storing { storing o ≡ true }
    requires aligned { aligned (width o) a ≡ true }
    ensures { frame.new ≡ updated frame.old off (placed o a v) }
{
    frame[off] = place(o, a, v, frame[off]);
}

// What a store into a frame empties: entry `off`, where the frame holds the table. The table fills one page, so that every word of the frame below PTL is an entry.
fn empty_entry(frames: &[u32], shadow: &mut [u32], pages: u32, t: Table, frame: u32, off: u32)
    requires listed { Listed frames.now pages }
    requires shadow_length { length shadow.old ≡ entries }
    requires off_bound { off < entries }
    ensures { shadow.new ≡ emptied frames.now pages t frame off shadow.old }
{
    let pto = t.pto;
    if pto >= pages {
        return;
    }
    if frames[wide(pto)] != frame {
        return;
    }
    if off >= t.ptl {
        return;
    }
    shadow[wide(off)] = 0;
}

// The word at address a after a store of v by an opcode, or the translation fault's number.
pub fn store(
    words: &mut [u32],
    frames: &[u32],
    shadow: &mut [u32],
    pages: u32,
    t: Table,
    user: bool,
    o: u32,
    a: u32,
    v: u32,
) -> Result<(), u32>
    requires placed { Placed frames.now pages (length words.old) }
    requires shadowed { Shadowed frames.now pages shadow.old }
    requires storing { storing o ≡ true }
    requires aligned { aligned (width o) a ≡ true }
    ensures { (result, host t words.new shadow.new) ≡ host_writes frames.now pages (host t words.old shadow.old) user a (placed o a v) }
{
    let e = serve(words, frames, shadow, pages, t, user, a);
    if e / 2048 % 2 != 1 {
        return Err(e);
    }
    if e / 1024 % 2 == 1 {
        return Err(6);
    }
    let off = a / 4 % 1024;
    let base = wide(e / 4096) * 1024;
    let end = base + 1024;
    put(&mut words[base..end], wide(off), o, a, v);
    empty_entry(frames, shadow, pages, t, e / 4096, off);
    Ok(())
}

// A fresh shadow table.
pub fn fresh_shadow() -> [u32; ENTRIES]
    ensures { result ≡ fresh_shadow }
{
    [0; ENTRIES]
}

// The words of one list, written over another of the same length.
pub fn copy(to: &mut [u32], from: &[u32])
    requires { length to.old ≡ length from.now }
    ensures { to.new ≡ from.now }
{
    to.copy_from_slice(from);
}

// All entries become empty.
pub fn clear(shadow: &mut [u32])
    requires { length shadow.old ≡ entries }
    ensures { shadow.new ≡ fresh_shadow }
{
    shadow.fill(0);
}
