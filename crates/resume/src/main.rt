// resume SAVED STEPS [save OUT]: reads a saved file, runs its house STEPS host steps, in as many runs of at most 1,000,000 as it takes, saves house and memory as the
// file OUT where that is asked for, and prints the report; or `refused N D`, and then nothing is saved. OUT may be SAVED.
#![tactic(auto)]

mod runs;

ghost use Rattle.std.specs.Prelude.{◌≡◌, List, ℕ};
ghost use Rattle.house.specs.declared.Done.{Done};
ghost use Rattle.house.specs.declared.House.{House};
ghost use Rattle.house.specs.Turns.{world};
ghost use Rattle.house.specs.Refusals.{answer_of};
ghost use Rattle.report.specs.Printed.{printed};
ghost use Rattle.night_run.specs.Ran.{Told, Left};
ghost use Rattle.resume.specs.Resumed.{resumed_file};

use command::{asks_help, fail, number_in, open, put_out, wrong};
use decimal::is;
use files::{Source, print, try_word};
use house::{Answer, House};
use keep::keep;
use night_run::{Taken, WORDS};
use report::text_of_answer;
use runs::resume_file;

// ---- after the run

// Saves house and memory: those after the run of the file that was read.
fn save_left(
    rt: &HostRuntime,
    t: Taken,
    steps: u64,
    house: House,
    memory: &[u32],
    path: &[u8],
) -> bool
    requires { Left (resumed_file steps) t (world house memory.now) }
{
    keep(rt, house, memory, path)
}

// The same where a path is given, and the run was not refused. Answers whether all that was to be done is done.
fn saved(
    rt: &HostRuntime,
    t: Taken,
    steps: u64,
    answer: Answer,
    memory: &[u32],
    path: Option<&[u8]>,
) -> bool
    requires { (done : Done) → answer ≡ Ok done → Left (resumed_file steps) t (world done.house memory.now) }
{
    match (answer, path) {
        (Ok(done), Some(path)) => save_left(rt, t, steps, done.house, memory, path),
        _ => true,
    }
}

// Prints a text: the one for the file that was read.
fn show(rt: &HostRuntime, t: Taken, steps: u64, text: &[u8])
    requires { Told (resumed_file steps) printed t text.now }
{
    put_out(rt, text);
}

// Prints the text for the answer.
fn tell(rt: &HostRuntime, t: Taken, steps: u64, answer: Answer)
    requires { (given : House) × (m : List ℕ) × Told (resumed_file steps) printed t (printed (answer_of given answer m)) }
{
    let mut out = [0u8; 1024];
    let n = text_of_answer(answer, &mut out);
    show(rt, t, steps, &out[..n]);
}

// Reads the source, runs it on, saves and prints. A read that fails prints nothing and says why, and so does a save.
fn resume(rt: &HostRuntime, source: &mut Source, steps: u64, name: &[u8], path: Option<&[u8]>) {
    let mut memory = [0u32; WORDS];
    let x = resume_file(source, steps, &mut memory);
    let taken = x.taken;
    if taken.failed() {
        fail(rt, name, source.why());
        return;
    }
    let answer = x.answer();
    let n = x.words;
    if saved(rt, taken, steps, answer, &memory[..n], path) {
        tell(rt, taken, steps, answer);
    }
}

// ---- the command

fn help(rt: &HostRuntime) {
    let _ = print(
        rt,
        b"resume SAVED STEPS [save OUT]: reads a saved file (- for standard input), runs its house STEPS steps, saves it as the file OUT, which may be SAVED,\n",
    );
    let _ = print(
        rt,
        b"where asked to, and prints a line for each partition; or `refused N D`, and nothing is saved: docs/FILES.md and docs/CALLS.md tell what it means\n",
    );
}

// Opens the file and goes on.
fn open_and_run(rt: &HostRuntime, name: &[u8], steps: u64, path: Option<&[u8]>) {
    match open(rt, name) {
        Ok(mut source) => resume(rt, &mut source, steps, name, path),
        Err(why) => fail(rt, name, why),
    }
}

// With the words behind STEPS: `save` and OUT.
fn with_out(rt: &HostRuntime, name: &[u8], steps: u64) {
    let mut word = files::buffer();
    let n = files::word(rt, 3, &mut word);
    if !is(&word[..n], b"save") {
        wrong(rt, b"nothing behind STEPS, or save OUT", &word[..n]);
        return;
    }
    let mut path = files::buffer();
    match try_word(rt, 4, &mut path) {
        Ok(length) => open_and_run(rt, name, steps, Some(&path[..length])),
        Err(why) => fail(rt, b"OUT", why),
    }
}

// The number that the second word says. Where it says none, that is told.
fn steps_said(rt: &HostRuntime) -> Option<u64> {
    let mut word = files::buffer();
    let length = files::word(rt, 2, &mut word);
    let n = number_in(&word[..length], 0xFFFF_FFFF_FFFF_FFFF);
    if n.is_none() {
        wrong(
            rt,
            b"STEPS, a decimal below 18446744073709551616",
            &word[..length],
        );
    }
    n
}

// With the words behind SAVED.
fn with_words(rt: &HostRuntime, name: &[u8], given: usize) {
    let Some(steps) = steps_said(rt) else {
        return;
    };
    if given == 3 {
        open_and_run(rt, name, steps, None);
        return;
    }
    with_out(rt, name, steps);
}

fn main(rt: HostRuntime) {
    let mut path = files::buffer();
    let length = files::word(&rt, 1, &mut path);
    if asks_help(&path[..length]) {
        help(&rt);
        return;
    }
    let given = files::words(&rt);
    if given < 3 {
        wrong(&rt, b"SAVED STEPS [save OUT]", b"fewer words");
        return;
    }
    if given == 4 {
        wrong(&rt, b"SAVED STEPS [save OUT]", b"three words");
        return;
    }
    if given > 5 {
        wrong(&rt, b"SAVED STEPS [save OUT]", b"more words");
        return;
    }
    with_words(&rt, &path[..length], given);
}
