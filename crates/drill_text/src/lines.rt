// The lines that tell of the answer, the house's own numbers, the memory, the outputs of a read-out and a save, and what an audit found.
ghost use Rattle.std.specs.Prelude.{◌≡◌, ◌+◌, ◌*◌, ◌≤◌, [], ◌++◌, length};
ghost use Rattle.decimal.specs.Texts.{ascii, Puts};
ghost use Rattle.drill_text.specs.Numbers.{number_of, numbers_of};
ghost use Rattle.drill_text.specs.Lines.{row_of, flags_of, house_of, name_of, call_of, memory_of, output_of, written_of, stale_of};

use crate::ROOM;
use crate::digest::{digest, digest_bytes};
use crate::numbers::{number, numbers};
use decimal::{put_byte, put_text};
use house::House;

// Numbers to the end of a line.
pub(crate) fn rest(text: &mut [u8; ROOM], used: usize, words: &[u32]) -> usize
    ensures { Puts text.old used text.new result (row_of [] words.now) (21 * length words.now + 1) }
{
    let told = numbers(text, used, words);
    put_byte(text, told, b'\n')
}

// A name and numbers.
pub fn row(text: &mut [u8; ROOM], used: usize, name: &[u8], words: &[u32]) -> usize
    ensures { Puts text.old used text.new result (row_of name.now words.now) (length name.now + (21 * length words.now + 1)) }
{
    let named = put_text(text, used, name);
    rest(text, named, words)
}

// Two numbers to the end of a line.
fn pair(text: &mut [u8; ROOM], used: usize, first: u64, second: u64) -> usize
    ensures { Puts text.old used text.new result (number_of first ++ (number_of second ++ ascii "\n")) 43 }
{
    let one = number(text, used, first);
    let two = number(text, one, second);
    put_byte(text, two, b'\n')
}

// Each flag as 0 or 1.
fn flags(text: &mut [u8; ROOM], used: usize, running: &[bool; 8]) -> usize
    ensures { Puts text.old used text.new result (flags_of running.now) 168 }
{
    let mut end = used;
    for r in running {
        end = number(text, end, u64::from(*r));
    }
    end
}

fn house_line(text: &mut [u8; ROOM], used: usize, own: &[u32; 5], running: &[bool; 8]) -> usize
    ensures { Puts text.old used text.new result (ascii "house" ++ (numbers_of own.now ++ (flags_of running.now ++ ascii "\n"))) 279 }
{
    let named = put_text(text, used, b"house");
    let told = numbers(text, named, own);
    let flagged = flags(text, told, running);
    put_byte(text, flagged, b'\n')
}

#[tactic(auto, unfolding(crate::specs::Lines::house_of))]
pub fn house(text: &mut [u8; ROOM], used: usize, h: House) -> usize
    ensures { Puts text.old used text.new result (house_of h) 279 }
{
    let own = [h.count, h.q, h.words, h.current, h.left];
    house_line(text, used, &own, &h.running)
}

// The name of a call, by its command's number.
#[tactic(auto, unfolding(crate::specs::Lines::name_of, decimal::specs::Texts::ascii))]
fn name(op: u32) -> &'static [u8]
    ensures named { result.now ≡ name_of op }
    ensures short { length result.now ≤ 10 }
{
    match op {
        1 => b"boot",
        2 => b"run",
        3 => b"start",
        4 => b"stop",
        5 => b"empty",
        12 => b"audit",
        13 => b"mend",
        14 => b"save",
        15 => b"piece",
        16 => b"finish",
        17 => b"unshadowed",
        _ => b"read",
    }
}

pub fn call(text: &mut [u8; ROOM], used: usize, op: u32, n: u32, detail: u64) -> usize
    ensures { Puts text.old used text.new result (call_of op n detail) 61 }
{
    let called = put_text(text, used, b"call ");
    let named = put_text(text, called, name(op));
    let answered = put_text(text, named, b" ->");
    pair(text, answered, n as u64, detail)
}

pub fn memory(text: &mut [u8; ROOM], used: usize, words: &[u32]) -> usize
    ensures { Puts text.old used text.new result (memory_of words.now) 49 }
{
    let d = digest(words);
    let named = put_text(text, used, b"memory");
    pair(text, named, words.len() as u64, d)
}

// The whole output's digest, and so many of its words.
pub fn output(text: &mut [u8; ROOM], used: usize, words: &[u32], shown: usize) -> usize
    requires { shown ≤ length words.now }
    ensures { Puts text.old used text.new result (output_of words.now shown) (27 + (21 * shown + 1)) }
{
    let d = digest(words);
    let named = put_text(text, used, b"output");
    let digested = number(text, named, d);
    rest(text, digested, &words[..shown])
}

// How many bytes were written, and the whole output's digest.
pub fn written(text: &mut [u8; ROOM], used: usize, count: usize, bytes: &[u8]) -> usize
    ensures { Puts text.old used text.new result (written_of count bytes.now) 50 }
{
    let d = digest_bytes(bytes);
    let named = put_text(text, used, b"written");
    pair(text, named, count as u64, d)
}

// The first stale entry, by partition and page, where one was found.
pub fn stale(text: &mut [u8; ROOM], used: usize, found: Option<(u32, u32)>) -> usize
    ensures { Puts text.old used text.new result (stale_of found) 48 }
{
    let Some((partition, page)) = found else {
        return put_text(text, used, b"stale none\n");
    };
    let named = put_text(text, used, b"stale");
    pair(text, named, u64::from(partition), u64::from(page))
}
