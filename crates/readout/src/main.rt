// readout FILE PARTITION ADDRESS COUNT [raw|signed]: reads a house file, boots and runs its house as night does, and prints COUNT words of one partition's pages, from
// the untranslated guest byte address ADDRESS on: in decimals, one to a line, as two's complement numbers where that is asked for, or raw, four bytes each, the lowest
// first. Or `refused N D`, on standard error alone where raw words are asked for. Of a saved file it prints the words that were saved, and runs nothing.
#![tactic(auto)]

mod shown;
mod words;

ghost use Rattle.std.specs.Prelude.{◌≡◌, ◌+◌, ◌%◌, ◌<◌, ◌≤◌, IfSome, IfOk, MatchResult};
ghost use Rattle.house.specs.House.{pages_of};
ghost use Rattle.house.specs.declared.House.{House};
ghost use Rattle.house.specs.Turns.{world};
ghost use Rattle.house.specs.Refusals.{refusal as verdict_of, answer_of};
ghost use Rattle.report.specs.Report.{refusal as refusal_text};
ghost use Rattle.night_run.specs.Ran.{no_frames, either_file, Told};
ghost use Rattle.readout.specs.Printed.{is_raw, words_text, refused_out, read_text, printed, read_refusal, refusal_of};

use command::{asks_help, fail, number_in, open, put_out, wrong};
use dlx::words::wide;
use files::{Source, print};
use house::{Answer, House, Refusal};
use hypervisor::calls::read_out;
use night_run::{Taken, read_file};
use report::text_of_refusal;
use shown::{Shown, Unwritten, show};
use words::{PIECE, ROOM, WORDS, put_words};

// How words are written: in decimals, without their sign or with it, or raw.
#[derive(Clone, Copy, Debug, PartialEq, Eq)]
pub enum Form {
    Unsigned,
    Signed,
    Raw,
}

impl Form {
    fn is_raw(self) -> bool
        ensures { result ≡ is_raw self }
    {
        matches!(self, Form::Raw)
    }
}

// What is asked for.
#[derive(Clone, Copy)]
pub struct Want {
    pub partition: u32,
    pub address: u32,
    pub count: u64,
    pub form: Form,
}

// The memory that is lent to a file.
const LENT: usize = night_run::WORDS;

// ---- what is printed

// Says a refusal on standard error, where raw words are asked for: the refusal of the file that was read, or of the read-out.
fn say(rt: &HostRuntime, t: Taken, w: Want, refusal: Refusal)
    requires { Told either_file (refusal_of w) t (refusal_text (verdict_of refusal)) }
{
    files::say(rt, b"refused: ");
    files::say_number(rt, u64::from(refusal.number()));
    files::say(rt, b" ");
    files::say_number(rt, refusal.detail());
    files::say(rt, b"\n");
}

// Prints a refusal: the text for the file that was read.
fn show_refusal(rt: &HostRuntime, t: Taken, w: Want, text: &[u8])
    requires { Told either_file (printed w) t text.now }
{
    put_out(rt, text);
}

// Prints a refusal, or says it.
fn tell_refusal(rt: &HostRuntime, t: Taken, w: Want, refusal: Refusal)
    requires told { Told either_file (printed w) t (refused_out w (verdict_of refusal)) }
    requires refusal_told { Told either_file (refusal_of w) t (refusal_text (verdict_of refusal)) }
{
    if w.form.is_raw() {
        say(rt, t, w, refusal);
        return;
    }
    let mut out = [0u8; 1024];
    let n = text_of_refusal(refusal, &mut out);
    show_refusal(rt, t, w, &out[..n]);
}

// ---- which of its two reasons 12 has, on standard error

fn say_odd(rt: &HostRuntime, address: u32)
    requires { address % 4 ≡ 0 → ⊥ }
{
    files::say(rt, b"the address is not a multiple of 4\n");
}

fn say_pages(rt: &HostRuntime, house: House, i: u32, address: u32, pages: u32)
    requires { (address % 4 ≡ 0) × (pages ≡ pages_of house i) }
{
    files::say(rt, b"the partition has ");
    files::say_number(rt, pages as u64);
    files::say(rt, b" page");
    if pages != 1 {
        files::say(rt, b"s");
    }
    files::say(rt, b": addresses below ");
    files::say_number(rt, 4096 * pages as u64);
    files::say(rt, b"\n");
}

fn pages_of(house: House, i: u32) -> u32
    requires { i < 8 }
    ensures { result ≡ pages_of house i }
{
    let parts = house.parts;
    let p = parts[wide(i)];
    return p.pages;
}

fn tell_reason(rt: &HostRuntime, w: Want, house: House)
    requires { w.partition < 8 }
{
    let address = w.address;
    let i = w.partition;
    if address % 4 != 0 {
        say_odd(rt, address);
        return;
    }
    say_pages(rt, house, i, address, pages_of(house, i));
}

// ---- the words

// Prints n of the words, those behind the ones that are printed.
fn show_words(
    rt: &HostRuntime,
    t: Taken,
    w: Want,
    words: &[u32; WORDS],
    s: Shown,
    n: usize,
    count: usize,
) -> Result<Shown, Unwritten>
    requires n_bound { s.words + n ≤ count }
    requires piece_bound { n ≤ 4096 }
    requires count_bound { count ≤ 262144 }
    requires told { Told either_file (printed w) t (words_text w words.now count) }
    ensures { MatchResult result (λ x. x.words ≡ s.words + n) (λ x. x.words ≡ s.words + n) }
{
    let mut out = [0u8; ROOM];
    let k = put_words(words, s.words(), n, w, &mut out);
    show(rt, s, t, w, n, &out[..k])
}

// Prints the words, piece by piece: all of them, but where a write fails.
fn tell_words(
    rt: &HostRuntime,
    t: Taken,
    w: Want,
    words: &[u32; WORDS],
    count: usize,
) -> Result<Shown, Unwritten>
    requires count_bound { count ≤ 262144 }
    requires told { Told either_file (printed w) t (words_text w words.now count) }
    ensures { IfOk result (λ s. s.words ≡ count) }
{
    let mut s = Shown::none();
    // Not a `for`: the words that are printed say how many the next piece has.
    while s.words() < count {
        let n = PIECE.min(count - s.words());
        s = show_words(rt, t, w, words, s, n, count)?;
    }
    Ok(s)
}

// Reads the words of the house out over these zeros, and prints them.
fn tell_read(
    rt: &HostRuntime,
    t: Taken,
    w: Want,
    house: House,
    memory: &[u32],
    words: &mut [u32; WORDS],
)
    requires told { Told either_file (printed w) t (read_text w (world house memory.now) words.old) }
    requires refusal_told { Told either_file (refusal_of w) t (read_refusal w (world house memory.now) words.old) }
{
    match read_out(house, memory, w.partition, w.address, w.count, words) {
        Ok(_) => {
            let _ = tell_words(rt, t, w, words, w.count as usize);
        }
        Err(refusal) => {
            tell_refusal(rt, t, w, refusal);
            if refusal == Refusal::BeyondPages {
                tell_reason(rt, w, house);
            }
        }
    }
}

// Prints the text for an answer.
fn tell(rt: &HostRuntime, t: Taken, w: Want, answer: Answer, memory: &[u32])
    requires told { (given : House) × Told either_file (printed w) t (printed w (answer_of given answer memory.now)) }
    requires refusal_told { (given : House) × Told either_file (refusal_of w) t (refusal_of w (answer_of given answer memory.now)) }
{
    match answer {
        Ok(done) => {
            let mut words = [0u32; WORDS];
            tell_read(rt, t, w, done.house, memory, &mut words);
        }
        Err(refusal) => tell_refusal(rt, t, w, refusal),
    }
}

// Reads the source, runs it where it is a house file, and prints. A read that fails prints nothing and says why.
fn readout(rt: &HostRuntime, source: &mut Source, name: &[u8], w: Want) {
    let mut memory = [0u32; LENT];
    let x = read_file(source, &mut memory);
    let taken = x.taken;
    if taken.failed() {
        fail(rt, name, source.why());
        return;
    }
    let n = x.words;
    tell(rt, taken, w, x.answer(), &memory[..n]);
}

// ---- the command

fn help(rt: &HostRuntime) {
    let _ = print(
        rt,
        b"readout FILE PARTITION ADDRESS COUNT [raw|signed]: reads a house file (- for standard input), boots and runs its house, or reads a saved file, and prints COUNT words of a\n",
    );
    let _ = print(
        rt,
        b"partition's pages from a byte address on, in decimals, one to a line, with a minus where bit 31 is set and signed is asked for, or raw, four bytes each, the lowest first;\n",
    );
    let _ = print(
        rt,
        b"or `refused N D`, on standard error where raw words are asked for: docs/FILES.md and docs/CALLS.md tell what it means\n",
    );
}

// The number that argument i says. Where it says none, that is told.
fn number_at(rt: &HostRuntime, i: usize, expected: &[u8], most: u64) -> Option<u64>
    ensures { IfSome result (λ n. n ≤ most) }
{
    let mut word = files::buffer();
    let length = files::word(rt, i, &mut word);
    let n = number_in(&word[..length], most);
    if n.is_none() {
        wrong(rt, expected, &word[..length]);
    }
    n
}

// The form that the fifth word asks for, if there is one. Where it asks for none, that is told.
fn asked_form(rt: &HostRuntime, given: usize) -> Option<Form> {
    if given < 6 {
        return Some(Form::Unsigned);
    }
    let mut word = files::buffer();
    let length = files::word(rt, 5, &mut word);
    match &word[..length] {
        b"raw" => Some(Form::Raw),
        b"signed" => Some(Form::Signed),
        other => {
            wrong(rt, b"nothing behind COUNT, raw or signed", other);
            None
        }
    }
}

fn open_and_read(rt: &HostRuntime, path: &[u8], w: Want) {
    match open(rt, path) {
        Ok(mut source) => readout(rt, &mut source, path, w),
        Err(why) => fail(rt, path, why),
    }
}

fn with_words(rt: &HostRuntime, path: &[u8], given: usize) {
    let Some(form) = asked_form(rt, given) else {
        return;
    };
    let Some(partition) = number_at(rt, 2, b"PARTITION, a decimal below 4294967296", 0xFFFF_FFFF)
    else {
        return;
    };
    let Some(address) = number_at(rt, 3, b"ADDRESS, a decimal below 4294967296", 0xFFFF_FFFF) else {
        return;
    };
    let Some(count) = number_at(
        rt,
        4,
        b"COUNT, a decimal below 18446744073709551616",
        0xFFFF_FFFF_FFFF_FFFF,
    ) else {
        return;
    };
    let w = Want {
        partition: partition as u32,
        address: address as u32,
        count,
        form,
    };
    open_and_read(rt, path, w);
}

fn main(rt: HostRuntime) {
    let mut path = files::buffer();
    let length = files::word(&rt, 1, &mut path);
    if asks_help(&path[..length]) {
        help(&rt);
        return;
    }
    let given = files::words(&rt);
    if given < 5 {
        wrong(
            &rt,
            b"FILE PARTITION ADDRESS COUNT [raw|signed]",
            b"fewer words",
        );
        return;
    }
    if given > 6 {
        wrong(
            &rt,
            b"FILE PARTITION ADDRESS COUNT [raw|signed]",
            b"more words",
        );
        return;
    }
    with_words(&rt, &path[..length], given);
}
