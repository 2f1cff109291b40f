// A house file: read in pieces over the lent memory; then its house booted and run, or nothing made of it.
ghost use Rattle.std.specs.Prelude.{◌≡◌, List, ℕ, ◌≤◌, get_or, take, length, replicate};
ghost use Rattle.house.specs.House.{no_house};
ghost use Rattle.house.specs.Turns.{world};
ghost use Rattle.house.specs.Calls.{answered, boot_call};
ghost use Rattle.engines.specs.Promises.{emptied_by};
ghost use Rattle.housefile.specs.Reader.{read, no_reader, no_read, fed};
ghost use Rattle.night_run.specs.Pieces.{OneRead, Going};
ghost use Rattle.night_run.specs.Ran.{outcome_of, after_boot, house_file, house_file_by, held_file, HouseGoing, HouseRead, HandedFrom};

use crate::input::take_piece;
use crate::{Outcome, Ran, Taken};
use boot::boot;
use files::Source;
use house::House;
use housefile::{Reader, feed, finished, lists, total};
use unshadowed_run::run_by;

// How the reads stand, and the reader behind their bytes.
#[derive(Clone, Copy)]
pub struct Housed {
    pub taken: Taken,
    pub reader: Reader,
}

// One read more.
fn house_piece(
    t: Taken,
    r: Reader,
    source: &mut Source,
    turns: &mut [u32; 2],
    pages: &mut [u32; 8],
    frames: &mut [u32; 2048],
    memory: &mut [u32],
) -> Housed
    ensures { (count : ℕ) × (buffer : List ℕ) × OneRead t result.taken count buffer × (length buffer ≡ 65536) × (read result.reader turns.new pages.new frames.new memory.new ≡ fed (read r turns.old pages.old frames.old memory.old) (take count buffer)) }
{
    let mut buffer = files::large_buffer();
    let p = take_piece(t, source, &mut buffer);
    let n = p.count;
    let reader = feed(r, &buffer[..n], turns, pages, frames, memory);
    let taken = p.taken;
    Housed { taken, reader }
}

// Reads on, to the end of the input or to the first wrong record: that one's refusal no byte behind it can change.
fn take_house(
    source: &mut Source,
    t: Taken,
    r: Reader,
    turns: &mut [u32; 2],
    pages: &mut [u32; 8],
    frames: &mut [u32; 2048],
    memory: &mut [u32],
) -> Housed
    ensures { (head : List ℕ) → HouseGoing head t (read r turns.old pages.old frames.old memory.old) → HouseRead head result.taken (read result.reader turns.new pages.new frames.new memory.new) }
{
    let mut taken = t;
    let mut reader = r;
    // Not a `for`: the system tells where the input ends, and its bytes where a record is wrong.
    while taken.more(reader.wrong) {
        let x = house_piece(taken, reader, source, turns, pages, frames, memory);
        taken = x.taken;
        reader = x.reader;
    }
    Housed { taken, reader }
}

// Reads all of it: the first bytes, and on behind them.
fn read_house(
    source: &mut Source,
    t: Taken,
    head: &[u8],
    turns: &mut [u32; 2],
    pages: &mut [u32; 8],
    frames: &mut [u32; 2048],
    memory: &mut [u32],
) -> Housed
    requires going { Going house_file.wrong head.now t head.now }
    requires nothing_read { read no_reader turns.old pages.old frames.old memory.old ≡ no_read }
    ensures { HouseRead head.now result.taken (read result.reader turns.new pages.new frames.new memory.new) }
{
    let none = Reader::none();
    let first = feed(none, head, turns, pages, frames, memory);
    take_house(source, t, first, turns, pages, frames, memory)
}

// ---- what it comes to

// After a boot of the file's lists, and the run where it is done.
fn after_boot(
    r: Reader,
    pages: &[u32],
    q: u32,
    frames: &[u32],
    memory: &mut [u32],
    steps: u32,
    unshadowed: bool,
    house: &mut House,
) -> Outcome
    requires { house.old ≡ no_house }
    ensures { answered (outcome_of result) (world house.new memory.new) ≡ emptied_by unshadowed (after_boot (boot_call (take r.lists pages.now) q (take r.total frames.now) memory.old) steps) }
{
    let n = lists(r, pages);
    let k = total(r, frames);
    let booted = boot(&pages[..n], q, &frames[..k], memory)?;
    *house = booted.house;
    let ran = run_by(unshadowed, *house, memory, steps)?;
    *house = ran.house;
    Ok(ran.detail)
}

// After the reads: nothing where one failed.
fn ran_house(
    taken: Taken,
    reader: Reader,
    turns: &[u32; 2],
    pages: &[u32; 8],
    frames: &[u32; 2048],
    memory: &mut [u32],
    unshadowed: bool,
) -> Ran
    ensures by_index { (head : List ℕ) → HouseRead head taken (read reader turns.now pages.now frames.now memory.old) → HandedFrom (house_file_by unshadowed) head result memory.new }
    ensures words_in_bounds { result.words ≤ length memory.new }
{
    if taken.failed() {
        return Ran::none(taken, Ok(0));
    }
    match finished(reader) {
        Ok(_) => {
            let mut house = House::none();
            let outcome = after_boot(
                reader, pages, turns[0], frames, memory, turns[1], unshadowed, &mut house,
            );
            Ran {
                taken,
                words: memory.len(),
                house,
                outcome,
            }
        }
        Err(refusal) => Ran::none(taken, Err(refusal)),
    }
}

// The memory as the file holds it, and no house.
fn held_house(taken: Taken, reader: Reader, memory: &[u32]) -> Ran
    ensures handed_from { (head turns pages frames : List ℕ) → HouseRead head taken (read reader turns pages frames memory.now) → HandedFrom held_file head result memory.now }
    ensures words_in_bounds { result.words ≤ length memory.now }
{
    if taken.failed() {
        return Ran::none(taken, Ok(0));
    }
    match finished(reader) {
        Ok(_) => Ran {
            taken,
            words: memory.len(),
            house: House::none(),
            outcome: Ok(0),
        },
        Err(refusal) => Ran::none(taken, Err(refusal)),
    }
}

// Reads on behind the first bytes, over 16 zero frames, boots the house and runs it by the engine that is asked for.
pub fn boot_from(
    source: &mut Source,
    t: Taken,
    head: &[u8],
    memory: &mut [u32],
    unshadowed: bool,
) -> Ran
    requires going { Going house_file.wrong head.now t head.now }
    requires memory_zeros { memory.old ≡ replicate 16384 0 }
    ensures handed_from { HandedFrom (house_file_by unshadowed) head.now result memory.new }
    ensures words_in_bounds { result.words ≤ length memory.new }
{
    let mut turns = [0u32; 2];
    let mut pages = [0u32; 8];
    let mut frames = [0u32; 2048];
    let x = read_house(source, t, head, &mut turns, &mut pages, &mut frames, memory);
    let taken = x.taken;
    let reader = x.reader;
    ran_house(taken, reader, &turns, &pages, &frames, memory, unshadowed)
}

// Reads on behind the first bytes, over 16 zero frames, and boots nothing.
pub fn hold_from(source: &mut Source, t: Taken, head: &[u8], memory: &mut [u32]) -> Ran
    requires going { Going house_file.wrong head.now t head.now }
    requires memory_zeros { memory.old ≡ replicate 16384 0 }
    ensures handed_from { HandedFrom held_file head.now result memory.new }
    ensures words_in_bounds { result.words ≤ length memory.new }
{
    let mut turns = [0u32; 2];
    let mut pages = [0u32; 8];
    let mut frames = [0u32; 2048];
    let x = read_house(source, t, head, &mut turns, &mut pages, &mut frames, memory);
    let taken = x.taken;
    let reader = x.reader;
    held_house(taken, reader, memory)
}
