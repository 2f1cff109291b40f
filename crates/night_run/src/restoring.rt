// A saved file: read in pieces, its house and memory given back.
ghost use Rattle.std.specs.Prelude.{◌≡◌, List, ℕ, ◌≤◌, take, length};
ghost use Rattle.save.specs.Calls.{read_piece};
ghost use Rattle.restore.specs.Standing.{reading_at};
ghost use Rattle.night_run.specs.Pieces.{OneRead, Going};
ghost use Rattle.night_run.specs.Ran.{refused_over, saved_over, SavedGoing, SavedRead, HandedFrom};

use crate::input::take_piece;
use crate::{Ran, Taken};
use files::Source;
use house::House;
use restore::Restoring;
use restore::reading::{begin, finish, read};

// How the reads stand, and the reading behind their bytes.
#[derive(Clone, Copy)]
pub struct Restored {
    pub taken: Taken,
    pub restoring: Restoring,
}

// One read more.
fn saved_piece(
    t: Taken,
    r: Restoring,
    source: &mut Source,
    held: &mut [u8; 4106],
    memory: &mut [u32],
) -> Restored
    ensures { (count : ℕ) × (buffer : List ℕ) × OneRead t result.taken count buffer × (length buffer ≡ 65536) × (reading_at result.restoring.reader result.restoring.house held.new memory.new ≡ read_piece (reading_at r.reader r.house held.old memory.old) memory.old (take count buffer)) }
{
    let mut buffer = files::large_buffer();
    let p = take_piece(t, source, &mut buffer);
    let n = p.count;
    let restoring = read(r, &buffer[..n], held, memory);
    let taken = p.taken;
    Restored { taken, restoring }
}

// Reads on, to the end of the input or to the first refusal, which no byte behind it can change.
fn take_saved(
    source: &mut Source,
    t: Taken,
    r: Restoring,
    held: &mut [u8; 4106],
    memory: &mut [u32],
) -> Restored
    ensures { (first head : List ℕ) → SavedGoing first head t (reading_at r.reader r.house held.old memory.old) → SavedRead first head result.taken (reading_at result.restoring.reader result.restoring.house held.new memory.new) }
{
    let mut taken = t;
    let mut restoring = r;
    // Not a `for`: the system tells where the input ends, and its bytes what is refused.
    while taken.more(restoring.reader.refusal != 0) {
        let x = saved_piece(taken, restoring, source, held, memory);
        taken = x.taken;
        restoring = x.restoring;
    }
    Restored { taken, restoring }
}

// Reads on behind the first bytes, over this memory.
pub fn restore_from(source: &mut Source, t: Taken, head: &[u8], memory: &mut [u32]) -> Ran
    requires { Going (refused_over memory.old) head.now t head.now }
    ensures handed_from { HandedFrom (saved_over memory.old) head.now result memory.new }
    ensures words_in_bounds { result.words ≤ length memory.new }
{
    let mut held = [0u8; 4106];
    let none = begin();
    let first = read(none, head, &mut held, memory);
    let x = take_saved(source, t, first, &mut held, memory);
    let taken = x.taken;
    if taken.failed() {
        return Ran::none(taken, Ok(0));
    }
    let words = memory.len();
    match finish(x.restoring) {
        Ok(done) => Ran {
            taken,
            words,
            house: done.house,
            outcome: Ok(done.detail),
        },
        Err(refusal) => Ran {
            taken,
            words,
            house: House::none(),
            outcome: Err(refusal),
        },
    }
}
