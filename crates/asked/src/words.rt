// Two of noon's words: a frame list, decimals with commas between, and an image with its address.
ghost use Rattle.std.specs.Prelude.{◌≡◌, ℕ, ◌+◌, ◌≤◌, Some, IfSome, length, slice_set};
ghost use Rattle.asked.specs.Words.{rowed, row_ended, row_took, row_of, counted, name_length, address_of};

use command::{number_in, with_digit};
use dlx::words::wide;

// A frame list as far as it was read: the number that is begun, and how many have ended.
#[derive(Clone, Copy)]
pub struct Row {
    pub number: Option<u32>,
    pub count: u32,
}

// A number at its place; none where the list ends before it.
pub fn put_at(list: &mut [u32], at: u32, k: u32, n: u32)
    ensures { list.new ≡ slice_set list.old (at + k) n }
{
    let place = wide(at) + wide(k);
    if place < list.len() {
        list[place] = n;
    }
}

// A number has ended.
fn row_ended(r: Row, frames: &mut [u32], at: u32) -> Result<Row, Option<u32>>
    ensures { rowed result frames.new ≡ row_ended at r frames.old }
{
    let Some(number) = r.number else {
        return Err(None);
    };
    put_at(frames, at, r.count, number);
    Ok(Row {
        number: None,
        count: r.count.wrapping_add(1),
    })
}

// One byte more.
fn row_took(r: Row, frames: &mut [u32], at: u32, b: u8) -> Result<Row, Option<u32>>
    ensures { rowed result frames.new ≡ row_took at r frames.old b }
{
    if b == b',' {
        return row_ended(r, frames, at);
    }
    let so_far = u64::from(r.number.unwrap_or(0));
    let Some(number) = with_digit(4294967295, Some(so_far), b) else {
        return Err(Some(r.count));
    };
    Ok(Row {
        number: Some(number as u32),
        count: r.count,
    })
}

// The list that a word says, put into a list from a place on. Answers how many numbers it has; an error says how many had ended before a wrong byte, none where a number has no digit.
pub fn row_of(word: &[u8], frames: &mut [u32], at: u32) -> Result<u32, Option<u32>>
    ensures value { result ≡ counted (row_of at frames.old word.now) }
    ensures frames_after { frames.new ≡ (row_of at frames.old word.now).frames }
{
    if word.is_empty() {
        return Ok(0);
    }
    let mut r = Row {
        number: None,
        count: 0,
    };
    for b in word {
        r = row_took(r, frames, at, *b)?;
    }
    Ok(row_ended(r, frames, at)?.count)
}

// How long an image's name is: the bytes before the last @.
pub fn name_length(word: &[u8]) -> usize
    ensures value { result ≡ name_length word.now }
    ensures upper_bound { result ≤ length word.now }
{
    match word.iter().rposition(|b| *b == b'@') {
        Some(n) => n,
        None => word.len(),
    }
}

// The address behind it.
pub fn address_of(word: &[u8]) -> Option<u64>
    ensures value { result ≡ address_of word.now }
    ensures value_bound { IfSome result (λ n. n ≤ 4294967295) }
{
    let n = name_length(word);
    if n == word.len() {
        return Some(0);
    }
    number_in(&word[n + 1..], 4294967295)
}
