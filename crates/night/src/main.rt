// night [FILE [unshadowed] [save OUT]]: reads a house file, or standard input where no file is named, boots its house over a memory of 16 zero frames, runs it,
// saves house and memory as the file OUT where that is asked for, and prints the report; or `refused N D`, and then nothing is saved. By the engine without
// shadows, where that is asked for, the text is the same.
#![tactic(auto)]

ghost use Rattle.std.specs.Prelude.{◌≡◌, List, ℕ};
ghost use Rattle.house.specs.declared.Done.{Done};
ghost use Rattle.house.specs.declared.House.{House};
ghost use Rattle.house.specs.Turns.{world};
ghost use Rattle.house.specs.Refusals.{answer_of};
ghost use Rattle.report.specs.Printed.{printed};
ghost use Rattle.night_run.specs.Ran.{house_file, house_file_by, Told, Left};

use command::{asks_help, fail, open, put_out, wrong};
use decimal::is;
use files::{Source, is_not_given, print, try_word};
use house::{Answer, House};
use keep::keep;
use night_run::{Taken, WORDS, run_file};
use report::text_of_answer;
use std::io;

// ---- after the run

// Saves house and memory: those after the run of the file that was read.
fn save_left(
    rt: &HostRuntime,
    t: Taken,
    unshadowed: bool,
    house: House,
    memory: &[u32],
    path: &[u8],
) -> bool
    requires { Left (house_file_by unshadowed) t (world house memory.now) }
{
    keep(rt, house, memory, path)
}

// The same where a path is given, and the run was not refused. Answers whether all that was to be done is done.
fn saved(
    rt: &HostRuntime,
    t: Taken,
    unshadowed: bool,
    answer: Answer,
    memory: &[u32],
    path: Option<&[u8]>,
) -> bool
    requires { (done : Done) → answer ≡ Ok done → Left (house_file_by unshadowed) t (world done.house memory.now) }
{
    match (answer, path) {
        (Ok(done), Some(path)) => save_left(rt, t, unshadowed, done.house, memory, path),
        _ => true,
    }
}

// Prints a text: the one for the file that was read.
fn show(rt: &HostRuntime, t: Taken, text: &[u8])
    requires { Told house_file printed t text.now }
{
    put_out(rt, text);
}

// Prints the text for the answer.
fn tell(rt: &HostRuntime, t: Taken, answer: Answer)
    requires { (given : House) × (m : List ℕ) × Told house_file printed t (printed (answer_of given answer m)) }
{
    let mut out = [0u8; 1024];
    let n = text_of_answer(answer, &mut out);
    show(rt, t, &out[..n]);
}

// Reads and runs the source, saves and prints. A read that fails prints nothing and says why, and so does a save.
fn night(
    rt: &HostRuntime,
    source: &mut Source,
    name: &[u8],
    unshadowed: bool,
    path: Option<&[u8]>,
) {
    let mut memory = [0u32; WORDS];
    let x = run_file(source, &mut memory, unshadowed);
    let taken = x.taken;
    if taken.failed() {
        fail(rt, name, source.why());
        return;
    }
    let answer = x.answer();
    let n = x.words;
    if saved(rt, taken, unshadowed, answer, &memory[..n], path) {
        tell(rt, taken, answer);
    }
}

// ---- the command

fn help(rt: &HostRuntime) {
    let _ = print(
        rt,
        b"night [FILE [unshadowed] [save OUT]]: reads a house file (standard input where none is named, or where it is -), boots and runs its house, saves it\n",
    );
    let _ = print(
        rt,
        b"as the file OUT where asked to, and prints a line for each partition; or `refused N D`, and nothing is saved: docs/FILES.md and docs/CALLS.md tell\n",
    );
    let _ = print(
        rt,
        b"what it means; unshadowed: run by the engine that keeps no shadows, and the same is printed and saved\n",
    );
}

// Opens the file and goes on.
fn open_and_run(rt: &HostRuntime, name: &[u8], unshadowed: bool, path: Option<&[u8]>) {
    match open(rt, name) {
        Ok(mut source) => night(rt, &mut source, name, unshadowed, path),
        Err(why) => fail(rt, name, why),
    }
}

// With two words more, which stand here: `save` and OUT.
fn with_out(rt: &HostRuntime, name: &[u8], unshadowed: bool, at: usize, out_at: usize) {
    let mut word = files::buffer();
    let n = files::word(rt, at, &mut word);
    if !is(&word[..n], b"save") {
        wrong(rt, b"save OUT", &word[..n]);
        return;
    }
    let mut path = files::buffer();
    match try_word(rt, out_at, &mut path) {
        Ok(length) => open_and_run(rt, name, unshadowed, Some(&path[..length])),
        Err(why) => fail(rt, b"OUT", why),
    }
}

// With so many words behind FILE, the first of which is said to be `unshadowed` or not.
fn with_words(rt: &HostRuntime, name: &[u8], unshadowed: bool, behind: usize) {
    if unshadowed & (behind == 1) {
        open_and_run(rt, name, true, None);
        return;
    }
    if unshadowed & (behind == 3) {
        with_out(rt, name, true, 3, 4);
        return;
    }
    if !unshadowed & (behind == 2) {
        with_out(rt, name, false, 2, 3);
        return;
    }
    wrong(rt, b"[FILE [unshadowed] [save OUT]]", b"other words");
}

// Without a word for FILE: standard input. With one that cannot be taken, that is told.
fn without_name(rt: &HostRuntime, why: io::Error) {
    if is_not_given(why) {
        let mut source = Source::standard_input(rt);
        night(rt, &mut source, b"standard input", false, None);
        return;
    }
    fail(rt, b"the file's name", why);
}

// With FILE.
fn with_name(rt: &HostRuntime, name: &[u8], given: usize) {
    if asks_help(name) {
        help(rt);
        return;
    }
    if given < 3 {
        open_and_run(rt, name, false, None);
        return;
    }
    let mut word = files::buffer();
    let n = files::word(rt, 2, &mut word);
    with_words(rt, name, is(&word[..n], b"unshadowed"), given - 2);
}

fn main(rt: HostRuntime) {
    let given = files::words(&rt);
    let mut path = files::buffer();
    match try_word(&rt, 1, &mut path) {
        Ok(length) => with_name(&rt, &path[..length], given),
        Err(why) => without_name(&rt, why),
    }
}
