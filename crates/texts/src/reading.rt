// A text read in pieces: lines that end in one are kept for the next, and each line's word is put at its place.
ghost use Rattle.std.specs.Prelude.{◌≡◌, ℕ, ◌≤◌, List, length, slice_set};
ghost use Rattle.texts.specs.Numbers.{idle};
ghost use Rattle.texts.specs.Reading.{held, Fits, longer, ended, took, fed, finished};

use crate::numbers::{idle, right_by, word_by};

// How much of a line is kept, how many lines have ended, and the number of the wrong one, if one is.
#[derive(Clone, Copy)]
pub struct At {
    pub length: usize,
    pub lines: u64,
    pub wrong: Option<u64>,
}

// A word at its place; none where the output ends before it.
fn put_word(words: &mut [u32], i: u64, w: u32)
    ensures { words.new ≡ slice_set words.old i w }
{
    let place = i as usize;
    if place < words.len() {
        words[place] = w;
    }
}

// One byte of a line more.
fn longer(a: At, line: &mut [u8], b: u8) -> At
    requires { Fits a line.old }
    ensures by_index { (words : List ℕ) → held result line.new words ≡ longer (held a line.old words) b }
    ensures fits { Fits result line.new }
{
    let place = a.length;
    if place >= 81 {
        return a;
    }
    line[place] = b;
    At {
        length: place + 1,
        ..a
    }
}

// The line has ended.
fn ended(decimals: bool, a: At, line: &[u8], words: &mut [u32]) -> At
    requires { Fits a line.now }
    ensures words_after { held result line.now words.new ≡ ended decimals (held a line.now words.old) }
    ensures fits { Fits result line.now }
{
    let n = a.length;
    let number = a.lines.wrapping_add(1);
    if !right_by(decimals, &line[..n]) {
        return At {
            length: n,
            lines: number,
            wrong: Some(number),
        };
    }
    let w = word_by(decimals, &line[..n]);
    put_word(words, a.lines, w);
    At {
        length: 0,
        lines: number,
        wrong: None,
    }
}

// The byte is a zero that tells nothing, behind the line so far.
fn idle_behind(decimals: bool, a: At, line: &[u8], b: u8) -> bool
    requires { Fits a line.now }
    ensures { (words : List ℕ) → result ≡ idle decimals (held a line.now words).line b }
{
    let n = a.length;
    idle(decimals, &line[..n], b)
}

fn took(decimals: bool, a: At, line: &mut [u8], words: &mut [u32], b: u8) -> At
    requires { Fits a line.old }
    ensures words_after { held result line.new words.new ≡ took decimals (held a line.old words.old) b }
    ensures fits { Fits result line.new }
{
    if a.wrong.is_some() {
        return a;
    }
    if b == 10 {
        return ended(decimals, a, line, words);
    }
    if idle_behind(decimals, a, line, b) {
        return a;
    }
    longer(a, line, b)
}

// After the bytes of a piece.
pub fn fed(decimals: bool, a: At, line: &mut [u8], words: &mut [u32], piece: &[u8]) -> At
    requires { Fits a line.old }
    ensures words_after { held result line.new words.new ≡ fed decimals (held a line.old words.old) piece.now }
    ensures fits { Fits result line.new }
{
    let mut x = a;
    for b in piece {
        x = took(decimals, x, line, words, *b);
    }
    x
}

// At the end of the text.
pub fn finished(decimals: bool, a: At, line: &[u8], words: &mut [u32]) -> At
    requires { Fits a line.now }
    ensures words_after { held result line.now words.new ≡ finished decimals (held a line.now words.old) }
    ensures fits { Fits result line.now }
{
    if a.wrong.is_some() {
        return a;
    }
    if a.length == 0 {
        return a;
    }
    ended(decimals, a, line, words)
}
