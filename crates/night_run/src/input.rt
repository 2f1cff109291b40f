// The reads of a file: how many bytes they bring, and how they end. What is made of the bytes is for others.
ghost use Rattle.std.specs.Prelude.{◌≡◌, Bool, not, ◌&&◌, List, ◌++◌, ℕ, ◌-◌, ◌^◌, ◌<◌, ◌≤◌, ltb, length, take, IfSome};
ghost use Rattle.files.specs.Counts.{IsPrefixLen};
ghost use Rattle.night_run.specs.Pieces.{Bytes, none_taken, over, brought, after_read, OneRead, Going};

use crate::system;
use crate::system::Answer;
use files::Source;

// How many bytes of a file are read before anything is made of them, if there are so many: the first record of a saved file, which tells how large a memory it
// wants.
pub const HEAD: usize = 22;

// What the reads have come to: how many bytes they brought, whether they are over, and whether the last one failed. Other modules get one from `none` and
// `take_piece` alone. Two flags, and no enum: theorems name both (`going_more` and `as_told` the first, `told_answer` and `left_world` the second).
#[derive(Clone, Copy)]
pub struct Taken {
    bytes: u64,
    ended: bool,
    failed: bool,
}

impl Taken {
    // No read yet.
    pub fn none() -> Taken
        ensures { result ≡ none_taken }
    {
        Taken {
            bytes: 0,
            ended: false,
            failed: false,
        }
    }

    // One read more is to be made, where a record is wrong or not.
    pub fn more(self, wrong: bool) -> bool
        ensures { result ≡ (not self.ended && not wrong) }
    {
        !self.ended & !wrong
    }

    // One read more is to be made for the first bytes.
    fn begins(self) -> bool
        ensures { result ≡ (not self.ended && ltb self.bytes 22) }
    {
        !self.ended & (self.bytes < 22)
    }

    // The last read failed.
    pub fn failed(self) -> bool
        ensures { result ≡ self.failed }
    {
        self.failed
    }

    // How many bytes of the head have come.
    pub fn in_head(self, head: &[u8]) -> usize
        ensures prefix_len { IsPrefixLen result head.now }
        ensures value { self.bytes ≤ length head.now → result ≡ self.bytes }
    {
        head.len().min(self.bytes as usize)
    }
}

// ---- one read

// The last read brought nothing.
fn over(t: Taken, failed: bool) -> Taken
    ensures { result ≡ over t failed }
{
    Taken {
        bytes: t.bytes,
        ended: true,
        failed,
    }
}

// What a read brought: how the reads stand, and how many bytes stand at the buffer's start.
#[derive(Clone, Copy)]
pub struct Piece {
    pub taken: Taken,
    pub count: usize,
}

// After a read that answered this and left this in the buffer.
fn after_read(t: Taken, answer: Answer, buffer: &[u8]) -> Piece
    requires { IfSome answer.brought (λ n. IsPrefixLen n buffer.now) }
    ensures taken_value { result.taken ≡ after_read t answer.brought buffer.now }
    ensures buffer_value { take result.count buffer.now ≡ brought t answer.brought buffer.now }
    ensures prefix_len { IsPrefixLen result.count buffer.now }
    ensures bytes { Bytes buffer.now }
    ensures bytes_bound { t.bytes < 2 ^ 64 }
{
    let so_far = t.bytes;
    let n = answer.count();
    if n == 0 {
        let taken = over(t, answer.failed());
        return Piece { taken, count: 0 };
    }
    let size = n as u64;
    if size > u64::MAX - so_far {
        let taken = over(t, true);
        return Piece { taken, count: 0 };
    }
    let bytes = so_far + size;
    let taken = Taken {
        bytes,
        ended: false,
        failed: false,
    };
    Piece { taken, count: n }
}

// One read more. What it answers and leaves in the buffer is the system's.
pub fn take_piece(t: Taken, source: &mut Source, buffer: &mut [u8]) -> Piece
    ensures one_read { OneRead t result.taken result.count buffer.new }
    ensures prefix_len { IsPrefixLen result.count buffer.new }
{
    let answer = system::read(source, buffer);
    after_read(t, answer, buffer)
}

// ---- the first bytes

// One read more of them.
fn head_piece(t: Taken, source: &mut Source, head: &mut [u8]) -> Piece
    requires bytes_bound { t.bytes < 22 }
    requires head_length { length head.old ≡ 22 }
    ensures { (buffer : List ℕ) × OneRead t result.taken result.count buffer × (length buffer ≡ 22 - t.bytes) × (take result.taken.bytes head.new ≡ take t.bytes head.old ++ take result.count buffer) }
{
    let n = t.bytes as usize;
    take_piece(t, source, &mut head[n..22])
}

// The first bytes of the source, at the buffer's start.
pub fn take_head(source: &mut Source, head: &mut [u8]) -> Taken
    requires { length head.old ≡ 22 }
    ensures by_index { (wrong : List ℕ → Bool) → Going wrong (take result.bytes head.new) result (take result.bytes head.new) }
    ensures bytes_bound { result.bytes ≤ 22 }
{
    let mut t = Taken::none();
    // Not a `for`: how many bytes a read brings is the system's.
    while t.begins() {
        let p = head_piece(t, source, head);
        t = p.taken;
    }
    t
}
