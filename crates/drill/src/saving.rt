// A save, a piece of a reading, and its end.
ghost use Rattle.std.specs.Prelude.{◌≡◌, ℕ, ◌≤◌, List, [], length};
ghost use Rattle.decimal.specs.Texts.{Puts};
ghost use Rattle.save.specs.Calls.{finished};
ghost use Rattle.saver.specs.Answers.{answer_of as saved_by};
ghost use Rattle.restore.specs.Standing.{progress_at, reading_at};
ghost use Rattle.drill.specs.Fit.{Plays};
ghost use Rattle.drill.specs.Told.{most_told, most_read};
ghost use Rattle.drill.specs.Player.{more_of};
ghost use Rattle.drill.specs.Saving.{marked_bytes, saved_of, save_text_of, begun_by, cleared_by, piece_of, detail_of, piece_text_of, finish_text_of, keeps, kept_of, saving_text_of};

use crate::calls::AfterCall;
use crate::reading::Reading;
use crate::told;
use dlx::words::wide;
use drill_script::commands::{Command, Op};
use drill_text::{ROOM, lines};
use house::{House, Refusal};
use restore::{Reader, Restoring};

// The house, the reading, and the text used, after a command.
#[derive(Clone, Copy)]
pub struct Left {
    pub house: House,
    pub restoring: Restoring,
    pub used: usize,
}

// The reading and the text used after a piece.
#[derive(Clone, Copy)]
pub struct Pieced {
    pub restoring: Restoring,
    pub used: usize,
}

fn mark(output: &mut [u8])
    ensures { output.new ≡ marked_bytes (length output.old) }
{
    for (i, b) in output.iter_mut().enumerate() {
        *b = (i % 251) as u8;
    }
}

fn saved(h: House, c: Command, memory: &[u32], output: &mut [u8]) -> Result<usize, Refusal>
    ensures { saved_by h result output.new ≡ saved_of c h memory.now (length output.old) }
{
    mark(output);
    let at = c.a as u64 + c.b as u64 * 0x1_0000_0000;
    saver::piece::save(h, memory, at, output)
}

// A save, and its text with the output's.
fn save(
    h: House,
    c: Command,
    memory: &[u32],
    output: &mut [u8],
    text: &mut [u8; ROOM],
    used: usize,
) -> usize
    ensures { Puts text.old used text.new result (save_text_of c h memory.now (length output.old)) most_read }
{
    match saved(h, c, memory, output) {
        Ok(count) => {
            let called = told::call(text, used, c.op, 0, 0, h, memory);
            lines::written(text, called, count, output)
        }
        Err(refusal) => {
            let detail = refusal.detail();
            let called = told::call(text, used, c.op, refusal.number(), detail, h, memory);
            lines::written(text, called, 0, output)
        }
    }
}

// The detail of a reading's refusal so far.
fn detail(r: Reader) -> u64
    ensures { (h : House) (m : List ℕ) → result ≡ detail_of (progress_at r h m) }
{
    if r.refusal == 17 {
        return r.start;
    }
    0
}

// The reading that a piece goes on with: 1 begins a new one.
fn begins(b: u32, r: Restoring) -> Restoring
    ensures { (held : List ℕ) → reading_at result.reader result.house held [] ≡ begun_by b (reading_at r.reader r.house held []) }
{
    if b == 1 {
        return restore::reading::begin();
    }
    r
}

// A piece over the lent memory.
fn taken(
    c: Command,
    more: &[u8],
    r: Restoring,
    held: &mut [u8; 4106],
    memory: &mut [u32],
) -> Restoring
    requires { c.a ≤ length more.now }
    ensures { reading_at result.reader result.house held.new memory.new ≡ piece_of c more.now (reading_at r.reader r.house held.old []) memory.old }
{
    let here = begins(c.b, r);
    let n = wide(c.a);
    restore::reading::read(here, &more[..n], held, memory)
}

// And its text.
fn piece(
    h: House,
    c: Command,
    more: &[u8],
    r: Restoring,
    held: &mut [u8; 4106],
    memory: &mut [u32],
    text: &mut [u8; ROOM],
    used: usize,
) -> Pieced
    requires { c.a ≤ length more.now }
    ensures { (reading_at result.restoring.reader result.restoring.house held.new memory.new ≡ piece_of c more.now (reading_at r.reader r.house held.old []) memory.old) × Puts text.old used text.new result.used (piece_text_of c more.now h (reading_at r.reader r.house held.old []) memory.old) most_told }
{
    let x = taken(c, more, r, held, memory);
    let reader = x.reader;
    let detail = detail(reader);
    let end = told::call(text, used, c.op, reader.refusal, detail, h, memory);
    Pieced {
        restoring: x,
        used: end,
    }
}

// The end of a reading, and its text.
fn finish(c: Command, r: Restoring, memory: &[u32], text: &mut [u8; ROOM], used: usize) -> AfterCall
    ensures { (held : List ℕ) → (result.house ≡ (finished (reading_at r.reader r.house held [])).world.house) × Puts text.old used text.new result.used (finish_text_of c (reading_at r.reader r.house held []) memory.now) most_told }
{
    let none = House::none();
    let answer = restore::reading::finish(r);
    let end = told::answer(text, used, c.op, none, answer, memory);
    let house = told::left(none, answer);
    AfterCall { house, used: end }
}

// The reading behind another command.
#[tactic(auto, unfolding(crate::specs::Saving::cleared_by))]
pub fn cleared(op: Op, r: Restoring) -> Restoring
    ensures { (held : List ℕ) → reading_at result.reader result.house held [] ≡ cleared_by op (reading_at r.reader r.house held []) }
{
    if op == Op::Clear {
        return restore::reading::begin();
    }
    r
}

// One of the three. The output has room for 70,000 bytes.
pub fn play(
    h: House,
    s: Restoring,
    c: Command,
    r: Reading,
    input: &[u8],
    memory: &mut [u32],
    held: &mut [u8; 4106],
    output: &mut [u8],
    text: &mut [u8; ROOM],
    used: usize,
) -> Left
    requires plays { Plays r c (length input.now) (length memory.old) }
    requires output_room { 70000 ≤ length output.old }
    ensures { (keeps result.house memory.new (reading_at result.restoring.reader result.restoring.house held.new []) ≡ kept_of c (more_of r c input.now) r.lent (keeps h memory.old (reading_at s.reader s.house held.old []))) × Puts text.old used text.new result.used (saving_text_of c (more_of r c input.now) r.lent (keeps h memory.old (reading_at s.reader s.house held.old []))) most_read }
{
    let lent = r.lent;
    match c.op {
        Op::Save => {
            let n = wide(c.c);
            let end = save(h, c, &memory[..lent], &mut output[..n], text, used);
            Left {
                house: h,
                restoring: s,
                used: end,
            }
        }
        Op::Piece => {
            let from = r.at + 16;
            let to = r.at + c.size;
            let p = piece(
                h,
                c,
                &input[from..to],
                s,
                held,
                &mut memory[..lent],
                text,
                used,
            );
            Left {
                house: h,
                restoring: p.restoring,
                used: p.used,
            }
        }
        _ => {
            let d = finish(c, s, &memory[..lent], text, used);
            Left {
                house: d.house,
                restoring: restore::reading::begin(),
                used: d.used,
            }
        }
    }
}
