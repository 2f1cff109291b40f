// A house run on, and a saved file read and run on.
ghost use Rattle.std.specs.Prelude.{◌≡◌, false, ℕ, ◌≤◌, length};
ghost use Rattle.house.specs.Boot.{verdict};
ghost use Rattle.house.specs.Turns.{world};
ghost use Rattle.house.specs.Calls.{answered};
ghost use Rattle.night_run.specs.Ran.{outcome_of, no_frames, saved_file, Handed};
ghost use Rattle.resume.specs.Resumed.{resumed, resumed_file};

use files::Source;
use house::House;
use hypervisor::calls::run;
use night_run::{Outcome, Ran, WORDS, restore_file};

// Runs a house so many steps, in runs of at most 1,000,000. A run that is refused leaves it as the one before did.
fn run_on(house: &mut House, memory: &mut [u32], steps: u64) -> Outcome
    ensures { answered (outcome_of result) (world house.new memory.new) ≡ resumed (answered (verdict 0 0) (world house.old memory.old)) steps }
{
    let mut left = steps;
    // Not a `for`: what is left counts down by a run's length.
    while left > 1000000 {
        let done = run(*house, memory, 1000000)?;
        *house = done.house;
        left -= 1000000;
    }
    let done = run(*house, memory, left as u32)?;
    *house = done.house;
    Ok(done.detail)
}

// The same of what was read, in the first words of the lent memory.
fn run_from(x: Ran, memory: &mut [u32], steps: u64) -> Ran
    requires { x.words ≤ length memory.old }
    ensures handed { Handed saved_file x memory.old → x.taken.failed ≡ false → (detail : ℕ) → x.outcome ≡ Ok detail → Handed (resumed_file steps) result memory.new }
    ensures words_in_bounds { result.words ≤ length memory.new }
{
    let mut after = x.house;
    let n = x.words;
    let outcome = run_on(&mut after, &mut memory[..n], steps);
    Ran {
        taken: x.taken,
        words: n,
        house: after,
        outcome,
    }
}

// Reads the source as a saved file, and runs its house.
pub fn resume_file(source: &mut Source, steps: u64, memory: &mut [u32; WORDS]) -> Ran
    requires { memory.old ≡ no_frames }
    ensures handed { Handed (resumed_file steps) result memory.new }
    ensures words_in_bounds { result.words ≤ length memory.new }
{
    let x = restore_file(source, memory);
    if x.taken.failed() {
        return x;
    }
    match x.outcome {
        Ok(_) => run_from(x, memory, steps),
        Err(_) => x,
    }
}
