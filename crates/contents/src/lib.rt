// The house file of its contents, put into a lent buffer. A function puts its piece at `at` and answers where the piece ends.
#![tactic(auto)]

ghost use Rattle.std.specs.Prelude.{◌≡◌, List, [], ◌∷◌, ◌++◌, ℕ, ◌*◌, ◌+◌, ◌<◌, ◌≤◌, length, take};
ghost use Rattle.decimal.specs.Texts.{Puts, joined};
ghost use Rattle.housefile.specs.Records.{file};
ghost use Rattle.save.specs.Saved.{record_of, frame_words};
ghost use Rattle.contents.specs.Contents.{list_record, frame_record, contents_file, Listed};

use dlx::words::wide;
use saver::head::{put_front, put_record, put_word, put_words};

// The most bytes that a file of contents has: eight lists of 256 frames.
pub const MOST: usize = 73956;

// A list for each partition.
fn put_lists(out: &mut [u8], at: usize, pages: &[u32], frames: &[u32]) -> usize
    requires { Listed pages.now frames.now }
    ensures { Puts out.old at out.new result (joined (list_record pages.now frames.now) (length pages.now)) (1030 * length pages.now) }
{
    let mut end = at;
    let mut from: usize = 0;
    for count in pages {
        let to = from + wide(*count);
        end = put_record(out, end, 2, &frames[from..to]);
        from = to;
    }
    end
}

// Frame f.
fn put_frame(out: &mut [u8], at: usize, memory: &[u32], f: u32) -> usize
    requires f_bound { f < 16 }
    requires memory_length { length memory.now ≡ 16384 }
    ensures { Puts out.old at out.new result (frame_record memory.now f) 4106 }
{
    let b = wide(f) * 1024;
    let e = b + 1024;
    let front = put_front(out, at, 3, 4100);
    let number = put_word(out, front, f);
    put_words(out, number, &memory[b..e])
}

// All 16.
fn put_frames(out: &mut [u8], at: usize, memory: &[u32]) -> usize
    requires { length memory.now ≡ 16384 }
    ensures { Puts out.old at out.new result (joined (frame_record memory.now) 16) (4106 * 16) }
{
    let mut end = at;
    for f in 0..16 {
        end = put_frame(out, end, memory, f);
    }
    end
}

// The file, at the start of a buffer. Answers its length.
pub fn put_contents(
    q: u32,
    run: u32,
    pages: &[u32],
    frames: &[u32],
    memory: &[u32],
    out: &mut [u8; MOST],
) -> usize
    requires listed { Listed pages.now frames.now }
    requires memory_length { length memory.now ≡ 16384 }
    ensures out_after { take result out.new ≡ contents_file (file q run pages.now frames.now memory.now) }
    ensures upper_bound { result ≤ length out.new }
{
    let turns = [q, run];
    let first = put_record(out, 0, 1, &turns);
    let second = put_lists(out, first, pages, frames);
    let third = put_frames(out, second, memory);
    put_front(out, third, 4, 0)
}
