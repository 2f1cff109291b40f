// look FILE: reads a house file, or standard input where no file is named, boots and runs its house as night does, and prints each partition's registers, and why
// it was interrupted last. Of a saved file it prints the same, and runs nothing. Or `refused N D`.
#![tactic(auto)]

mod lines;

ghost use Rattle.std.specs.Prelude.{◌≡◌, List, ℕ};
ghost use Rattle.house.specs.declared.House.{House};
ghost use Rattle.house.specs.Refusals.{answer_of};
ghost use Rattle.report.specs.Put.{Counts, put};
ghost use Rattle.night_run.specs.Ran.{no_frames, either_file, Told};
ghost use Rattle.look.specs.Look.{printed};

use command::{asks_help, fail, open, put_out, wrong};
use files::{Source, is_not_given, print, try_word};
use house::Answer;
use lines::{ROOM, put_house};
use night_run::{Taken, WORDS, read_file};
use report::put_refusal;
use std::io;

// Puts the text for an answer at the buffer's start, and answers its length.
fn text_of(answer: Answer, out: &mut [u8; ROOM]) -> usize
    ensures by_index { (given : House) (m : List ℕ) → (result, out.new) ≡ put (printed (answer_of given answer m)) out.old }
    ensures counts { Counts result out.new }
{
    match answer {
        Ok(done) => put_house(done.house, out),
        Err(refusal) => put_refusal(out, 0, refusal),
    }
}

// What was read, and the length of the text for it.
#[derive(Clone, Copy)]
struct Text {
    taken: Taken,
    length: usize,
}

// Reads the source, runs it where it is a house file, and puts the text for it at the buffer's start; none where a read failed.
fn text_for(source: &mut Source, memory: &mut [u32; WORDS], out: &mut [u8; ROOM]) -> Text
    requires { memory.old ≡ no_frames }
    ensures by_index { (text : List ℕ) × Told either_file printed result.taken text × ((result.length, out.new) ≡ put text out.old) }
    ensures counts { Counts result.length out.new }
{
    let x = read_file(source, memory);
    let taken = x.taken;
    if taken.failed() {
        return Text { taken, length: 0 };
    }
    let length = text_of(x.answer(), out);
    Text { taken, length }
}

// Prints a text: the one for the file that was read.
fn show(rt: &HostRuntime, t: Taken, text: &[u8])
    requires { Told either_file printed t text.now }
{
    put_out(rt, text);
}

// Reads the source, runs it where it is a house file, and prints. A read that fails prints nothing and says why.
fn look(rt: &HostRuntime, source: &mut Source, name: &[u8]) {
    let mut memory = [0u32; WORDS];
    let mut out = [0u8; ROOM];
    let x = text_for(source, &mut memory, &mut out);
    if x.taken.failed() {
        fail(rt, name, source.why());
        return;
    }
    let n = x.length;
    show(rt, x.taken, &out[..n]);
}

fn help(rt: &HostRuntime) {
    let _ = print(
        rt,
        b"look [FILE]: reads a house file (standard input where none is named, or where it is -), boots and runs its house, or reads a saved file, and prints each\n",
    );
    let _ = print(
        rt,
        b"partition's state, why it was interrupted last, and its registers; or `refused N D`: docs/FILES.md tells what it means\n",
    );
}

// Without a word for FILE: standard input. With one that cannot be taken, that is told.
fn without_name(rt: &HostRuntime, why: io::Error) {
    if is_not_given(why) {
        let mut source = Source::standard_input(rt);
        look(rt, &mut source, b"standard input");
        return;
    }
    fail(rt, b"the file's name", why);
}

// With FILE.
fn with_name(rt: &HostRuntime, name: &[u8]) {
    if asks_help(name) {
        help(rt);
        return;
    }
    match open(rt, name) {
        Ok(mut source) => look(rt, &mut source, name),
        Err(why) => fail(rt, name, why),
    }
}

fn main(rt: HostRuntime) {
    if files::words(&rt) > 2 {
        wrong(&rt, b"one FILE or none", b"more words");
        return;
    }
    let mut path = files::buffer();
    match try_word(&rt, 1, &mut path) {
        Ok(length) => with_name(&rt, &path[..length]),
        Err(why) => without_name(&rt, why),
    }
}
