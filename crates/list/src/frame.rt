// One frame of the memory that a house file holds, or that was saved, as lines.
ghost use Rattle.std.specs.Prelude.{◌≡◌, List, ℕ, ◌*◌, ◌<◌, length};
ghost use Rattle.dlx.specs.Parts.{inner};
ghost use Rattle.house.specs.declared.House.{House};
ghost use Rattle.house.specs.Turns.{world};
ghost use Rattle.house.specs.Calls.{answered};
ghost use Rattle.lines.specs.Listings.{listing};
ghost use Rattle.night_run.specs.Ran.{outcome_of, either_held, Told};
ghost use Rattle.report.specs.Put.{Counts, put};
ghost use Rattle.list.specs.Frame.{frame_text};

use command::{fail, put_out, wrong};
use files::Source;
use listing::list;
use night_run::{Outcome, Taken, WORDS, hold_file};
use report::put_refusal;

// The lines of 1,024 words, at most 43 bytes each with the newline.
const ROOM: usize = 44032;

// ---- each function puts its text at the buffer's start, and answers its length

// The words of the frame that the memory has.
fn put_frame(memory: &[u32], frame: usize, out: &mut [u8]) -> usize
    requires frame_bound { frame < 1024 }
    requires out_length { length out.old ≡ 44032 }
    ensures out_after { (result, out.new) ≡ put (listing (inner (frame * 1024) 1024 memory.now)) out.old }
    ensures counts { Counts result out.new }
{
    let from = frame * 1024;
    let size = memory.len();
    if from >= size {
        return 0;
    }
    if size - from < 1024 {
        return list(&memory[from..size], out).unwrap_or(0);
    }
    list(&memory[from..from + 1024], out).unwrap_or(0)
}

// The text for what a file holds.
fn text_of(outcome: Outcome, memory: &[u32], frame: usize, out: &mut [u8]) -> usize
    requires frame_bound { frame < 1024 }
    requires out_length { length out.old ≡ 44032 }
    ensures out_after { (h : House) → (result, out.new) ≡ put (frame_text frame (answered (outcome_of outcome) (world h memory.now))) out.old }
    ensures counts { Counts result out.new }
{
    match outcome {
        Ok(_) => put_frame(memory, frame, out),
        Err(refusal) => put_refusal(out, 0, refusal),
    }
}

// Prints a text: the one for the file that was read.
fn show(rt: &HostRuntime, t: Taken, frame: usize, text: &[u8])
    requires { Told either_held (frame_text frame) t text.now }
{
    put_out(rt, text);
}

// Prints the text for the answer. A frame that is not there, which this word named, is told.
fn tell(rt: &HostRuntime, t: Taken, outcome: Outcome, memory: &[u32], frame: usize, word: &[u8])
    requires frame_bound { frame < 1024 }
    requires told { ((h : House) × Told either_held (frame_text frame) t (frame_text frame (answered (outcome_of outcome) (world h memory.now)))) }
{
    let mut out = [0u8; ROOM];
    let n = text_of(outcome, memory, frame, &mut out);
    if n == 0 {
        wrong(rt, b"FRAME, one that the memory has", word);
        return;
    }
    show(rt, t, frame, &out[..n]);
}

// Reads the source, and prints the frame that this word names. A read that fails prints nothing and says why.
pub fn list_frame(rt: &HostRuntime, source: &mut Source, name: &[u8], frame: usize, word: &[u8])
    requires { frame < 1024 }
{
    let mut memory = [0u32; WORDS];
    let x = hold_file(source, &mut memory);
    let taken = x.taken;
    if taken.failed() {
        fail(rt, name, source.why());
        return;
    }
    let n = x.words;
    tell(rt, taken, x.outcome, &memory[..n], frame, word);
}
