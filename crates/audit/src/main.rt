// audit FILE: reads a house file, or standard input where no file is named, boots its house over a memory of 16 zero frames, runs it, audits it
// and prints how many shadow entries of each partition are stale, or `refused N D`. Where one is stale, standard error names the first. Of a saved file it audits the house
// that was saved, and runs nothing.
#![tactic(auto)]

ghost use Rattle.std.specs.Prelude.{◌≡◌, [], ◌∷◌, ◌≤◌};
ghost use Rattle.decimal.specs.Texts.{Puts};
ghost use Rattle.house.specs.declared.House.{House};
ghost use Rattle.house.specs.Refusals.{answer_of};
ghost use Rattle.report.specs.Put.{Counts, put};
ghost use Rattle.report.specs.Report.{line};
ghost use Rattle.night_run.specs.Ran.{either_file, Told};
ghost use Rattle.audit.specs.Printed.{lines_to, printed, first_line, named};

use command::{asks_help, fail, open, put_out, wrong};
use decimal::put_text;
use dlx::words::wide;
use files::{Source, is_not_given, print, say, try_word};
use house::Answer;
use night_run::{Taken, WORDS, read_file};
use report::{put_word, text_of_refusal};
use staleness::{Stale, stale_counts};
use std::io;

// A partition's line, at most 22 bytes.
fn put_count(out: &mut [u8], at: usize, i: u32, n: u32) -> usize
    ensures { Puts out.old at out.new result (line i (n ∷ [])) 22 }
{
    let first = put_word(out, at, i, b' ');
    put_word(out, first, n, b'\n')
}

// The lines of the first n partitions.
fn put_counts(out: &mut [u8], at: usize, each: [u32; 8], n: u32) -> usize
    requires { n ≤ 8 }
    ensures { Puts out.old at out.new result (lines_to each n) 176 }
{
    let mut end = at;
    for i in 0..n {
        end = put_count(out, end, i, each[wide(i)]);
    }
    end
}

// The same as a whole text. Answers its length.
fn lines(each: [u32; 8], n: u32, out: &mut [u8; 1024]) -> usize
    requires { n ≤ 8 }
    ensures value { (result, out.new) ≡ put (lines_to each n) out.old }
    ensures counts { Counts result out.new }
{
    put_counts(out, 0, each, n)
}

// Puts the text for an answer at the buffer's start, and answers its length.
fn text_of(answer: Answer, memory: &[u32], out: &mut [u8; 1024]) -> usize
    ensures out_after { (given : House) → (result, out.new) ≡ put (printed (answer_of given answer memory.now)) out.old }
    ensures counts { Counts result out.new }
{
    let done = match answer {
        Ok(done) => done,
        Err(refusal) => return text_of_refusal(refusal, out),
    };
    match stale_counts(done.house, memory) {
        Ok(each) => lines(each, done.house.count, out),
        Err(refusal) => text_of_refusal(refusal, out),
    }
}

// ---- the first stale entry

// Its line, at most 57 bytes.
fn put_first(out: &mut [u8], at: usize, entry: Stale) -> usize
    ensures { Puts out.old at out.new result (first_line entry.partition entry.page) 57 }
{
    let first = put_text(out, at, b"first stale entry: partition ");
    let second = put_word(out, first, entry.partition, b',');
    let third = put_text(out, second, b" page ");
    put_word(out, third, entry.page, b'\n')
}

// The same as a whole text. Answers its length.
fn first_line(entry: Stale, out: &mut [u8; 1024]) -> usize
    ensures value { (result, out.new) ≡ put (first_line entry.partition entry.page) out.old }
    ensures counts { Counts result out.new }
{
    put_first(out, 0, entry)
}

// Says a text on standard error: the one that names the first stale entry of the file that was read.
fn say_first(rt: &HostRuntime, t: Taken, text: &[u8])
    requires { Told either_file named t text.now }
{
    say(rt, text);
}

// Names the first stale entry, where there is one.
fn name_first(rt: &HostRuntime, t: Taken, answer: Answer, memory: &[u32])
    requires { (given : House) × Told either_file named t (named (answer_of given answer memory.now)) }
{
    let Ok(done) = answer else {
        return;
    };
    if let Ok(Some(entry)) = staleness::audit(done.house, memory) {
        let mut out = [0u8; 1024];
        let n = first_line(entry, &mut out);
        say_first(rt, t, &out[..n]);
    }
}

// ---- what is printed

// Prints a text: the one for the file that was read.
fn show(rt: &HostRuntime, t: Taken, text: &[u8])
    requires { Told either_file printed t text.now }
{
    put_out(rt, text);
}

// Prints the text for the answer, and names the first stale entry.
fn tell(rt: &HostRuntime, t: Taken, answer: Answer, memory: &[u32])
    requires told { (given : House) × Told either_file printed t (printed (answer_of given answer memory.now)) }
    requires named_told { (given : House) × Told either_file named t (named (answer_of given answer memory.now)) }
{
    let mut out = [0u8; 1024];
    let n = text_of(answer, memory, &mut out);
    show(rt, t, &out[..n]);
    name_first(rt, t, answer, memory);
}

// Reads the source, runs it where it is a house file, audits it, and prints. A read that fails prints nothing and says why.
fn audit(rt: &HostRuntime, source: &mut Source, name: &[u8]) {
    let mut memory = [0u32; WORDS];
    let x = read_file(source, &mut memory);
    if x.taken.failed() {
        fail(rt, name, source.why());
        return;
    }
    let n = x.words;
    tell(rt, x.taken, x.answer(), &memory[..n]);
}

fn help(rt: &HostRuntime) {
    let _ = print(
        rt,
        b"audit [FILE]: reads a house file (standard input where none is named, or where it is -), boots and runs its house, or reads a saved file, audits the house and prints\n",
    );
    let _ = print(
        rt,
        b"`P COUNT` for each partition, its number and its stale shadow entries, or `refused N D`; where one is stale, standard error names the first: docs/AUDIT.md tells what it means\n",
    );
}

// Without a word for FILE: standard input. With one that cannot be taken, that is told.
fn without_name(rt: &HostRuntime, why: io::Error) {
    if is_not_given(why) {
        let mut source = Source::standard_input(rt);
        audit(rt, &mut source, b"standard input");
        return;
    }
    fail(rt, b"the file's name", why);
}

// With FILE.
fn with_name(rt: &HostRuntime, name: &[u8]) {
    if asks_help(name) {
        help(rt);
        return;
    }
    match open(rt, name) {
        Ok(mut source) => audit(rt, &mut source, name),
        Err(why) => fail(rt, name, why),
    }
}

fn main(rt: HostRuntime) {
    if files::words(&rt) > 2 {
        wrong(&rt, b"one FILE or none", b"more words");
        return;
    }
    let mut path = files::buffer();
    match try_word(&rt, 1, &mut path) {
        Ok(length) => with_name(&rt, &path[..length]),
        Err(why) => without_name(&rt, why),
    }
}
