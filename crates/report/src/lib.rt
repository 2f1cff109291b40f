// The report of a house and the text of a refusal, each written into a lent buffer from its start. A function that puts a piece of text at
// `at` answers where the piece ends.
#![tactic(auto)]

ghost use Rattle.std.specs.Prelude.{◌≡◌, List, [], ◌∷◌, ◌++◌, ℕ, min, length, take, drop};
ghost use Rattle.decimal.specs.Texts.{Puts};
ghost use Rattle.house.specs.declared.House.{House};
ghost use Rattle.house.specs.Boot.{verdict};
ghost use Rattle.house.specs.Turns.{world};
ghost use Rattle.house.specs.Calls.{answered};
ghost use Rattle.house.specs.Refusals.{refusal as verdict_of, answer_of};
ghost use Rattle.report.specs.Put.{Counts, put};
ghost use Rattle.report.specs.Printed.{printed};
ghost use Rattle.report.specs.Report.{field, line, line_of, lines_from, report_of, refused_text, refusal as refusal_text};

use decimal::{put_byte, put_decimal, put_text};
use dlx::partition::Partition;
use dlx::words::wide;
use house::{Answer, House, Refusal};

// A number, of at most 20 digits, and the byte behind it.
pub fn put_field(out: &mut [u8], at: usize, n: u64, behind: u8) -> usize
    ensures { Puts out.old at out.new result (field n behind) 21 }
{
    let end = put_decimal(out, at, n);
    put_byte(out, end, behind)
}

// The same of a word, which has at most 10 digits.
pub fn put_word(out: &mut [u8], at: usize, n: u32, behind: u8) -> usize
    ensures { Puts out.old at out.new result (field n behind) 11 }
{
    put_field(out, at, u64::from(n), behind)
}

// A line of numbers: six words and the steps, at most 87 bytes.
fn put_line(
    out: &mut [u8; 1024],
    at: usize,
    i: u32,
    pages: u32,
    steps: u64,
    mode: u32,
    dpc: u32,
    pc: u32,
    fault: u32,
) -> usize
    ensures { Puts out.old at out.new result (line i (pages ∷ steps ∷ mode ∷ dpc ∷ pc ∷ fault ∷ [])) 87 }
{
    let first = put_word(out, at, i, b' ');
    let second = put_word(out, first, pages, b' ');
    let third = put_field(out, second, steps, b' ');
    let fourth = put_word(out, third, mode, b' ');
    let fifth = put_word(out, fourth, dpc, b' ');
    let sixth = put_word(out, fifth, pc, b' ');
    put_word(out, sixth, fault, b'\n')
}

// Partition i's line.
fn put_partition(out: &mut [u8; 1024], at: usize, i: u32, p: Partition) -> usize
    ensures { Puts out.old at out.new result (line_of i p) 87 }
{
    put_line(
        out,
        at,
        i,
        p.pages,
        p.counter,
        p.processor.mode,
        p.processor.dpc,
        p.processor.pc,
        p.fault,
    )
}

// A line for each of the first count partitions; there are no more than 8.
fn put_partitions(out: &mut [u8; 1024], at: usize, count: u32, parts: [Partition; 8]) -> usize
    ensures { Puts out.old at out.new result (lines_from 0 (take count parts)) 696 }
{
    let used = wide(count).min(8);
    let mut end = at;
    for (i, p) in parts[..used].iter().enumerate() {
        end = put_partition(out, end, i as u32, *p);
    }
    end
}

// The report: a header, and a line for each partition. Answers the report's length.
pub fn report(h: House, out: &mut [u8; 1024]) -> usize
    ensures value { (result ≡ length (report_of h)) × (out.new ≡ report_of h ++ drop (length (report_of h)) out.old) }
    ensures counts { Counts result out.new }
{
    let parts = h.parts;
    let at = put_text(out, 0, b"partition pages steps mode dpc pc fault\n");
    put_partitions(out, at, h.count, parts)
}

// `refused`, a number and a detail, whatever they are: at most 40 bytes.
pub fn put_refused(out: &mut [u8], at: usize, number: u32, detail: u64) -> usize
    ensures { Puts out.old at out.new result (refused_text number detail) 40 }
{
    let first = put_text(out, at, b"refused ");
    let second = put_word(out, first, number, b' ');
    put_field(out, second, detail, b'\n')
}

// The text of a refusal.
pub fn put_refusal(out: &mut [u8], at: usize, refusal: Refusal) -> usize
    ensures { Puts out.old at out.new result (refusal_text (verdict_of refusal)) 40 }
{
    put_refused(out, at, refusal.number(), refusal.detail())
}

// The same as a whole text, of any number and detail. Answers its length.
pub fn refused(number: u32, detail: u64, out: &mut [u8; 1024]) -> usize
    ensures value { (result ≡ length (refused_text number detail)) × (out.new ≡ refused_text number detail ++ drop (length (refused_text number detail)) out.old) }
    ensures counts { Counts result out.new }
{
    put_refused(out, 0, number, detail)
}

// The same of a refusal.
pub fn text_of_refusal(refusal: Refusal, out: &mut [u8; 1024]) -> usize
    ensures value { (result, out.new) ≡ put (refusal_text (verdict_of refusal)) out.old }
    ensures counts { Counts result out.new }
{
    put_refusal(out, 0, refusal)
}

// The text for a house number and its detail, whatever they are: the report where the number is 0, or the refusal. Answers its length.
pub fn text_of(number: u32, detail: u64, house: House, out: &mut [u8; 1024]) -> usize
    ensures by_index { (m : List ℕ) → (result, out.new) ≡ put (printed (answered (verdict number detail) (world house m))) out.old }
    ensures counts { Counts result out.new }
{
    if number != 0 {
        return refused(number, detail, out);
    }
    report(house, out)
}

// The text for an answer: the report, or the refusal. Answers its length.
pub fn text_of_answer(answer: Answer, out: &mut [u8; 1024]) -> usize
    ensures by_index { (given : House) (m : List ℕ) → (result, out.new) ≡ put (printed (answer_of given answer m)) out.old }
    ensures counts { Counts result out.new }
{
    match answer {
        Ok(done) => report(done.house, out),
        Err(refusal) => text_of_refusal(refusal, out),
    }
}
