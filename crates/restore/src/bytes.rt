// The bytes of the record at hand.
ghost use Rattle.std.specs.Prelude.{◌≡◌, ℕ, ◌+◌, ◌*◌, ◌<◌, ◌≤◌, List, length, drop, slice_index};
ghost use Rattle.house.specs.declared.House.{House};
ghost use Rattle.housefile.specs.Records.{number, words_of, size, kind};
ghost use Rattle.save.specs.Reading.{may_come, fed};
ghost use Rattle.restore.specs.Standing.{held_to, wrong_at, progress_at, reading_at, reader_of, is_whole, stepped, SteppedTo, Rested, Kept};

use crate::Reader;
use crate::records::Kind;
use dlx::words::wide;

// A reader whose record at hand is whole, and still to be settled, or is not.
#[derive(Clone, Copy)]
pub enum Step {
    Open(Reader),
    Whole(Reader),
}

// Where the bytes of a piece have been taken to, and the next byte.
#[derive(Clone, Copy)]
pub struct Steps {
    pub step: Step,
    pub next: usize,
}

// The number of two bytes.
pub(crate) fn pair(held: &[u8], at: usize) -> u32
    requires { at + 2 ≤ length held.now }
    ensures value { result ≡ slice_index held.now at + 256 * slice_index held.now (at + 1) }
    ensures upper_bound { result < 65536 }
{
    u32::from(u16::from_le_bytes([held[at], held[at + 1]]))
}

// The number of four.
pub(crate) fn word(held: &[u8], at: usize) -> u32
    requires { at + 4 ≤ length held.now }
    ensures { result ≡ slice_index held.now at + 256 * slice_index held.now (at + 1) + 65536 * (slice_index held.now (at + 2) + 256 * slice_index held.now (at + 3)) }
{
    u32::from_le_bytes([held[at], held[at + 1], held[at + 2], held[at + 3]])
}

// A record of this kind and body length may come.
#[tactic(auto, unfolding(save::specs::Reading::may_come))]
fn may_come(r: Reader, count: u32, words: u32, kind: u32, size: u32) -> bool
    ensures { (h : House) (m : List ℕ) → h.count ≡ count → h.words ≡ words → result ≡ may_come (progress_at r h m) kind size }
{
    let Some(kind) = Kind::of(kind) else {
        return false;
    };
    if !r.opened {
        return kind == Kind::Turn && size == 16;
    }
    match kind {
        Kind::Turn => false,
        Kind::Guest => {
            r.queues == 0
                && r.frames == 0
                && count < 8
                && 200 <= size
                && size <= 1224
                && size % 4 == 0
        }
        Kind::Tickets => {
            r.frames == 0 && r.queues < count && r.queues < 8 && size <= 128 && size % 4 == 0
        }
        Kind::Frame => {
            r.queues == count && count != 0 && r.frames < words / 1024 && size == 4100
        }
        Kind::End => r.queues == count && count != 0 && r.frames == words / 1024 && size == 0,
    }
}

// The reader with so many bytes of the record at hand.
pub(crate) fn holding(r: Reader, n: u32) -> Reader
    ensures { result ≡ held_to r n }
{
    Reader { held: n, ..r }
}

// The reader at a wrong record.
pub(crate) fn wrong(r: Reader) -> Reader
    ensures { result ≡ wrong_at r }
{
    Reader {
        refusal: 17,
        held: 0,
        ..r
    }
}

// Behind a head that is right: the bytes from one on, as many as the record wants and the piece has.
fn take_rest(r: Reader, size: u32, piece: &[u8], from: usize, held: &mut [u8]) -> Steps
    requires held_bound { r.held < 6 + size }
    requires size_bound { size ≤ 4100 }
    requires held_length { length held.old ≡ 4106 }
    requires piece_room { from ≤ length piece.now }
    ensures { Rested r size piece.now from held.old (reader_of result.step) (is_whole result.step) result.next held.new }
{
    let at = wide(r.held);
    let to = 6 + wide(size);
    let n = (to - at).min(piece.len() - from);
    let end = at + n;
    let next = from + n;
    held[at..end].copy_from_slice(&piece[from..next]);
    let reader = holding(r, end as u32);
    let step = if end == to {
        Step::Whole(reader)
    } else {
        Step::Open(reader)
    };
    Steps { step, next }
}

// One byte, and with the last of a right head what follows it, in a house of so many partitions and a memory of so many words.
pub(crate) fn take_some(
    r: Reader,
    piece: &[u8],
    from: usize,
    held: &mut [u8],
    count: u32,
    words: u32,
) -> Steps
    requires held_bound { r.held ≤ 4105 }
    requires held_length { length held.old ≡ 4106 }
    requires piece_room { from < length piece.now }
    ensures piece_after { (h : House) (m : List ℕ) → h.count ≡ count → h.words ≡ words → fed (stepped (reader_of result.step) (is_whole result.step) h held.new m) (drop result.next piece.now) ≡ fed (reading_at r h held.old m) (drop from piece.now) }
    ensures stepped_to { SteppedTo (reader_of result.step) (is_whole result.step) count words held.new × (from < result.next) × (result.next ≤ length piece.now) }
    ensures kept { Kept r (reader_of result.step) }
{
    let next = from + 1;
    if r.refusal != 0 {
        return Steps {
            step: Step::Open(r),
            next,
        };
    }
    if r.ended {
        return Steps {
            step: Step::Open(wrong(r)),
            next,
        };
    }
    let at = wide(r.held);
    held[at] = piece[from];
    let more = holding(r, r.held + 1);
    if more.held < 6 {
        return Steps {
            step: Step::Open(more),
            next,
        };
    }
    let size = word(held, 0);
    let kind = pair(held, 4);
    if !may_come(r, count, words, kind, size) {
        return Steps {
            step: Step::Open(wrong(r)),
            next,
        };
    }
    if 6 + wide(size) <= wide(more.held) {
        return Steps {
            step: Step::Whole(more),
            next,
        };
    }
    take_rest(more, size, piece, next, held)
}
