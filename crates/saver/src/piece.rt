// A piece of the file, from any offset on.
ghost use Rattle.std.specs.Prelude.{◌≡◌, List, [], ◌∷◌, ◌++◌, ℕ, ◌*◌, ◌+◌, ◌-◌, ◌%◌, ◌^◌, ◌<◌, ◌≤◌, min, length, get_or, take, drop};
ghost use Rattle.save.specs.Saved.{little, record_of, frame_words};
ghost use Rattle.saver.specs.Heads.{tail_of, PieceFits};
ghost use Rattle.house.specs.Turns.{world};
ghost use Rattle.save.specs.Calls.{save_call};
ghost use Rattle.saver.specs.Answers.{answer_of};

use crate::head::put_head;
use damage::damaged;
use dlx::words::wide;
use house::{House, Refusal};

// Word j of the record of frame f.
fn frame_word(memory: &[u32], f: usize, j: usize) -> u32
    requires memory_room { f * 1024 + 1024 ≤ length memory.now }
    requires j_bound { j < 1025 }
    requires f_bound { f < 2 ^ 32 }
    ensures { result ≡ get_or (frame_words memory.now f) j 0 }
{
    if j == 0 {
        f as u32
    } else {
        memory[f * 1024 + (j - 1)]
    }
}

// Byte k of it.
fn frame_byte(memory: &[u32], f: usize, k: usize) -> u8
    requires memory_room { f * 1024 + 1024 ≤ length memory.now }
    requires k_bound { k < 4106 }
    requires f_bound { f < 2 ^ 32 }
    ensures { result ≡ get_or (record_of 3 (frame_words memory.now f)) k 0 }
{
    match k {
        0..=3 => 4100u32.to_le_bytes()[k],
        4 => 3,
        5 => 0,
        _ => frame_word(memory, f, (k - 6) / 4).to_le_bytes()[(k - 6) % 4],
    }
}

// Byte k of the file: of a head of n bytes, of so many frames, or of kind 4.
fn byte_at(head: &[u8], n: usize, memory: &[u32], frames: usize, k: usize) -> u8
    requires piece_fits { PieceFits head.now n memory.now frames }
    requires k_bound { k < n + (frames * 4106 + 6) }
    ensures { result ≡ get_or (take n head.now ++ tail_of memory.now frames) k 0 }
{
    if k < n {
        return head[k];
    }
    let o = k - n;
    if o < frames * 4106 {
        return frame_byte(memory, o / 4106, o % 4106);
    }
    if o == frames * 4106 + 4 {
        return 4;
    }
    0
}

// So many of its bytes.
fn put_piece(
    head: &[u8],
    n: usize,
    memory: &[u32],
    frames: usize,
    at: usize,
    count: usize,
    out: &mut [u8],
)
    requires piece_fits { PieceFits head.now n memory.now frames }
    requires out_room { count ≤ length out.old }
    requires count_bound { at + count ≤ n + (frames * 4106 + 6) }
    ensures { out.new ≡ take count (drop at (take n head.now ++ tail_of memory.now frames)) ++ drop count out.old }
{
    for (i, b) in out[..count].iter_mut().enumerate() {
        *b = byte_at(head, n, memory, frames, at + i);
    }
}

// How many bytes a piece has: as many as are left, and there is room for, at most 64 KiB.
fn piece_length(size: usize, at: u64, room: usize) -> usize
    ensures { result ≡ min (min room 65536) (size - at) }
{
    size.saturating_sub(at as usize).min(room).min(65536)
}

// Bytes of the file of a house and its memory, from an offset on: as many as there are, and there is room for, at most 64 KiB. Answers how many.
#[tactic(auto, unfolding(save::specs::Calls::save_call, save::specs::Calls::save_verdict, house::specs::Boot::first_of))]
pub fn save(house: House, memory: &[u32], at: u64, out: &mut [u8]) -> Result<usize, Refusal>
    ensures { answer_of house result out.new ≡ save_call (world house memory.now) at out.old }
{
    if damaged(house) {
        return Err(Refusal::Damaged);
    }
    if memory.len() != wide(house.words) {
        return Err(Refusal::OtherMemory);
    }
    let mut head = [0u8; 10934];
    let n = put_head(house, &mut head);
    let frames = memory.len() / 1024;
    let count = piece_length(n + (frames * 4106 + 6), at, out.len());
    if count == 0 {
        return Ok(0);
    }
    put_piece(&head, n, memory, frames, at as usize, count, out);
    Ok(count)
}
