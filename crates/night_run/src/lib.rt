// What programs over a file share. A house file is read in pieces, its house booted over a memory of 16 zero frames and run; a saved file is read in pieces, and
// nothing is run. House and memory are handed on, or the refusal.
#![tactic(auto)]

mod booting;
mod choice;
mod input;
mod restoring;
mod system;

ghost use Rattle.std.specs.Prelude.{◌≡◌, List, ℕ, ◌≤◌, length};
ghost use Rattle.house.specs.House.{no_house};
ghost use Rattle.house.specs.Turns.{world};
ghost use Rattle.house.specs.Calls.{answered};
ghost use Rattle.house.specs.Refusals.{answer_of};
ghost use Rattle.night_run.specs.Ran.{outcome_of, no_frames, house_file_by, saved_file, either_file, either_held, Handed};

use booting::{boot_from, hold_from};
use choice::{is_saved, room};
use files::Source;
use house::{Answer, Done, House, Refusal};
pub use input::Taken;
use input::take_head;
use restoring::restore_from;

// The memory that a program lends: 1,024 frames.
pub const WORDS: usize = 1048576;

// The detail of what is done, or what refuses it.
pub type Outcome = Result<u64, Refusal>;

// What was read, and what it came to: how many words of the lent memory are the house's, the house that is left, and the outcome. A refused run leaves the house
// as boot, or the run before, made it; all other refusals leave none.
#[derive(Clone, Copy)]
pub struct Ran {
    pub taken: Taken,
    pub words: usize,
    pub house: House,
    pub outcome: Outcome,
}

impl Ran {
    // There is no house.
    pub(crate) fn none(taken: Taken, outcome: Outcome) -> Ran
        ensures { result ≡ record { taken = taken; words = 0; house = no_house; outcome = outcome } }
    {
        Ran {
            taken,
            words: 0,
            house: House::none(),
            outcome,
        }
    }

    // As an answer, which has the house only where all was done.
    pub fn answer(self) -> Answer
        ensures { (m : List ℕ) → answer_of self.house result m ≡ answered (outcome_of self.outcome) (world self.house m) }
    {
        let detail = self.outcome?;
        Ok(Done {
            detail,
            house: self.house,
        })
    }
}

// ---- in a memory that is lent as a slice

// A house file, by the engine that is asked for.
fn run_in(source: &mut Source, memory: &mut [u32], unshadowed: bool) -> Ran
    requires { memory.old ≡ no_frames }
    ensures handed { Handed (house_file_by unshadowed) result memory.new }
    ensures words_in_bounds { result.words ≤ length memory.new }
{
    let mut head = [0u8; 22];
    let t = take_head(source, &mut head);
    let n = t.in_head(&head);
    boot_from(source, t, &head[..n], &mut memory[..16384], unshadowed)
}

// A saved file.
fn restore_in(source: &mut Source, memory: &mut [u32]) -> Ran
    requires { memory.old ≡ no_frames }
    ensures handed { Handed saved_file result memory.new }
    ensures words_in_bounds { result.words ≤ length memory.new }
{
    let mut head = [0u8; 22];
    let t = take_head(source, &mut head);
    let n = t.in_head(&head);
    let words = room(&head[..n]);
    restore_from(source, t, &head[..n], &mut memory[..words])
}

// Either; the first record tells which.
fn read_in(source: &mut Source, memory: &mut [u32]) -> Ran
    requires { memory.old ≡ no_frames }
    ensures handed { Handed either_file result memory.new }
    ensures words_in_bounds { result.words ≤ length memory.new }
{
    let mut head = [0u8; 22];
    let t = take_head(source, &mut head);
    let n = t.in_head(&head);
    if is_saved(&head[..n]) {
        let words = room(&head[..n]);
        return restore_from(source, t, &head[..n], &mut memory[..words]);
    }
    boot_from(source, t, &head[..n], &mut memory[..16384], false)
}

// Either, and nothing is booted of a house file.
fn hold_in(source: &mut Source, memory: &mut [u32]) -> Ran
    requires { memory.old ≡ no_frames }
    ensures handed { Handed either_held result memory.new }
    ensures words_in_bounds { result.words ≤ length memory.new }
{
    let mut head = [0u8; 22];
    let t = take_head(source, &mut head);
    let n = t.in_head(&head);
    if is_saved(&head[..n]) {
        let words = room(&head[..n]);
        return restore_from(source, t, &head[..n], &mut memory[..words]);
    }
    hold_from(source, t, &head[..n], &mut memory[..16384])
}

// ---- and as the array that a program has

// Reads the source as a house file, boots its house and runs it by the engine that is asked for.
pub fn run_file(source: &mut Source, memory: &mut [u32; WORDS], unshadowed: bool) -> Ran
    requires { memory.old ≡ no_frames }
    ensures handed { Handed (house_file_by unshadowed) result memory.new }
    ensures words_in_bounds { result.words ≤ length memory.new }
{
    run_in(source, memory, unshadowed)
}

// Reads the source as a saved file.
pub fn restore_file(source: &mut Source, memory: &mut [u32; WORDS]) -> Ran
    requires { memory.old ≡ no_frames }
    ensures handed { Handed saved_file result memory.new }
    ensures words_in_bounds { result.words ≤ length memory.new }
{
    restore_in(source, memory)
}

// Reads the source: a saved file, or a house file, whose house is booted and run. The first record tells which.
pub fn read_file(source: &mut Source, memory: &mut [u32; WORDS]) -> Ran
    requires { memory.old ≡ no_frames }
    ensures handed { Handed either_file result memory.new }
    ensures words_in_bounds { result.words ≤ length memory.new }
{
    read_in(source, memory)
}

// Reads the source: a saved file, or a house file, and then boots nothing.
pub fn hold_file(source: &mut Source, memory: &mut [u32; WORDS]) -> Ran
    requires { memory.old ≡ no_frames }
    ensures handed { Handed either_held result memory.new }
    ensures words_in_bounds { result.words ≤ length memory.new }
{
    hold_in(source, memory)
}
