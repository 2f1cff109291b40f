// A house file, read in pieces of any size. The lists beside the reader take what is read: q and the run length, the page counts, the frame
// lists one after the other, and the memory.
#![tactic(auto)]

ghost use Rattle.std.specs.Prelude.{◌≡◌, ℕ, min, List, length, slice_set};
ghost use Rattle.dlx.specs.Choice.{when◌then◌else◌};
ghost use Rattle.house.specs.Refusals.{verdict_of as check_verdict};
ghost use Rattle.housefile.specs.Records.{may_come, verdict_of};
ghost use Rattle.housefile.specs.Reader.{no_record, no_reader, read, further, spoils, spoiled, placed, completed, settled, took, fed, answer_of};

use dlx::words::wide;
use house::Refusal;

// The record at hand: how many of its bytes have come, its body length, its kind, the frame number in front of a kind 3, and the last four bytes.
// Kinds are numbers here, not an enum: a file may hold any, and `feed` answers for a reader with any.
#[derive(Clone, Copy)]
pub struct Record {
    pub bytes: u32,
    pub size: u32,
    pub kind: u32,
    pub frame: u32,
    pub word: u32,
}

// Whether the record at hand is wrong, where it starts, the kind of the one before (0: none yet), the lists so far and their frames.
#[derive(Clone, Copy)]
pub struct Reader {
    pub wrong: bool,
    pub start: u64,
    pub last: u32,
    pub lists: u32,
    pub total: u32,
    pub at: Record,
}

impl Record {
    // No byte has come.
    fn none() -> Record
        ensures { result ≡ no_record }
    {
        Record {
            bytes: 0,
            size: 0,
            kind: 0,
            frame: 0,
            word: 0,
        }
    }
}

impl Reader {
    // Nothing read yet.
    pub fn none() -> Reader
        ensures { result ≡ no_reader }
    {
        Reader {
            wrong: false,
            start: 0,
            last: 0,
            lists: 0,
            total: 0,
            at: Record::none(),
        }
    }
}

// A word at its place; none where the list ends before it.
fn put(list: &mut [u32], i: usize, word: u32)
    ensures { list.new ≡ slice_set list.old i word }
{
    if i < list.len() {
        list[i] = word;
    }
}

// The record with one byte more.
#[tactic(auto, unfolding(crate::specs::Reader::further))]
fn further(n: Record, b: u8) -> Record
    ensures { result ≡ further n b }
{
    let word = n.word / 256 + u32::from(b) * 0x100_0000;
    let more = Record {
        bytes: n.bytes.wrapping_add(1),
        word,
        ..n
    };
    match n.bytes {
        3 => Record { size: word, ..more },
        5 => Record {
            kind: word / 0x1_0000,
            ..more
        },
        9 => Record {
            frame: word,
            ..more
        },
        _ => more,
    }
}

// A record of this kind and body length may come after one of the kind `last`.
#[tactic(auto, unfolding(crate::specs::Records::may_come))]
fn may_come(last: u32, lists: u32, kind: u32, size: u32) -> bool
    ensures { result ≡ may_come last lists kind size }
{
    match kind {
        1 => last == 0 && size == 8,
        2 => (last == 1 || last == 2) && lists < 8 && size % 4 == 0 && size <= 1024,
        3 => (last == 2 || last == 3) && size == 4100,
        4 => (last == 2 || last == 3) && size == 0,
        _ => false,
    }
}

// The header or the frame number has just come, and is wrong.
#[tactic(auto, unfolding(crate::specs::Reader::spoils))]
fn spoils(r: Reader, n: Record) -> bool
    ensures { result ≡ spoils r n }
{
    match n.bytes {
        6 => !may_come(r.last, r.lists, n.kind, n.size),
        10 => n.kind == 3 && 16 <= n.frame,
        _ => false,
    }
}

// A whole word of the body, at its place.
#[tactic(auto, unfolding(crate::specs::Reader::placed))]
fn place(r: Reader, n: Record, turns: &mut [u32; 2], frames: &mut [u32; 2048], memory: &mut [u32])
    ensures { (pages : List ℕ) → read r turns.new pages frames.new memory.new ≡ placed r n (read r turns.old pages frames.old memory.old) }
{
    if n.bytes < 10 || n.bytes % 4 != 2 {
        return;
    }
    let j = wide(n.bytes / 4 - 2);
    match n.kind {
        1 => put(turns, j, n.word),
        2 => put(frames, wide(r.total) + j, n.word),
        3 if j != 0 => put(memory, wide(n.frame) * 1024 + (j - 1), n.word),
        _ => {}
    }
}

// The reader behind a whole record. A list's page count goes to its place.
#[tactic(auto, unfolding(crate::specs::Reader::completed))]
fn complete(r: Reader, n: Record, pages: &mut [u32; 8]) -> Reader
    ensures { (result, pages.new) ≡ completed r n pages.old }
{
    let next = Reader {
        wrong: false,
        start: r.start.wrapping_add(6 + u64::from(n.size)),
        last: n.kind,
        at: Record::none(),
        ..r
    };
    if n.kind != 2 {
        return next;
    }
    let count = n.size / 4;
    put(pages, wide(r.lists), count);
    Reader {
        lists: r.lists.wrapping_add(1),
        total: r.total.wrapping_add(count),
        ..next
    }
}

// The reader at a wrong record.
fn spoil(r: Reader) -> Reader
    ensures { result ≡ spoiled r }
{
    Reader { wrong: true, ..r }
}

// The reader after the byte that made the record n.
#[tactic(auto, unfolding(crate::specs::Reader::settled))]
fn settle(
    r: Reader,
    n: Record,
    turns: &mut [u32; 2],
    pages: &mut [u32; 8],
    frames: &mut [u32; 2048],
    memory: &mut [u32],
) -> Reader
    ensures { read result turns.new pages.new frames.new memory.new ≡ settled (read r turns.old pages.old frames.old memory.old) n }
{
    if spoils(r, n) {
        return spoil(r);
    }
    place(r, n, turns, frames, memory);
    if wide(n.bytes) != 6 + wide(n.size) {
        return Reader { at: n, ..r };
    }
    complete(r, n, pages)
}

// One byte.
#[tactic(auto, unfolding(crate::specs::Reader::took))]
fn take(
    r: Reader,
    b: u8,
    turns: &mut [u32; 2],
    pages: &mut [u32; 8],
    frames: &mut [u32; 2048],
    memory: &mut [u32],
) -> Reader
    ensures { read result turns.new pages.new frames.new memory.new ≡ took (read r turns.old pages.old frames.old memory.old) b }
{
    if r.wrong {
        return r;
    }
    if r.last == 4 {
        return spoil(r);
    }
    settle(r, further(r.at, b), turns, pages, frames, memory)
}

// A piece of the file.
#[tactic(auto, using(crate::proofs::Parts::fed_on, crate::proofs::Parts::fed_done))]
pub fn feed(
    r: Reader,
    piece: &[u8],
    turns: &mut [u32; 2],
    pages: &mut [u32; 8],
    frames: &mut [u32; 2048],
    memory: &mut [u32],
) -> Reader
    ensures { read result turns.new pages.new frames.new memory.new ≡ fed (read r turns.old pages.old frames.old memory.old) piece.now }
{
    let mut s = r;
    for b in piece {
        s = take(s, *b, turns, pages, frames, memory);
    }
    s
}

// At the file's end: the start of the first wrong record is told.
#[tactic(auto, unfolding(crate::specs::Records::verdict_of, crate::specs::Reader::answer_of))]
pub fn finished(r: Reader) -> Result<(), Refusal>
    ensures { (turns pages frames memory : List ℕ) → check_verdict 0 result ≡ verdict_of (answer_of (read r turns pages frames memory)) }
{
    if r.wrong || r.last != 4 {
        return Err(Refusal::WrongHouseFile(r.start));
    }
    Ok(())
}

// A count, or the room where that is less.
fn at_most(n: u32, room: usize) -> usize
    ensures { result ≡ min n room }
{
    wide(n).min(room)
}

// How many of these page counts are the file's.
pub fn lists(r: Reader, pages: &[u32]) -> usize
    ensures { result ≡ min r.lists (length pages.now) }
{
    at_most(r.lists, pages.len())
}

// How many of these frames are.
pub fn total(r: Reader, frames: &[u32]) -> usize
    ensures { result ≡ min r.total (length frames.now) }
{
    at_most(r.total, frames.len())
}
