// Words as lines of text, and back: docs/LISTINGS.md has the lines in words. A line has one instruction, or a word that is none as a number; what a line must be is
// told by `line_of` alone: any other line is wrong.
#![tactic(auto)]

ghost use Rattle.std.specs.Prelude.{◌≡◌, [], ◌∷◌, ◌++◌, ◌<◌, ◌≤◌, leb, length, drop, MatchOption, position, ◌==◌};
ghost use Rattle.decimal.specs.Texts.{text, put};
ghost use Rattle.lines.specs.Lines.{line_of};
ghost use Rattle.lines.specs.Listings.{listing, lines_of, words_of, assembled, listed};
ghost use Rattle.listing.specs.Answers.{answer_of, Surveyed};

use crate::reading::{candidate, right};
use crate::writing::{LONGEST, put_line};
use decimal::put_byte;

pub mod reading;
mod table;
pub mod writing;

// Why nothing was written: 13, the output is too short, or 18 and the number of the first wrong line.
#[derive(Clone, Copy, Debug, PartialEq, Eq)]
pub enum Refusal {
    ShortOutput,
    WrongLine(usize),
}

// ---- lines out of words

fn line_length(w: u32) -> usize
    ensures { result ≡ length (line_of w) }
{
    let mut buffer = [0u8; LONGEST];
    put_line(&mut buffer, 0, w)
}

// The listing has at most so many bytes.
fn has_room(words: &[u32], room: usize) -> bool
    ensures { result ≡ leb (length (listing words.now)) room }
{
    let mut left = room;
    for w in words {
        let n = line_length(*w);
        if left <= n {
            return false;
        }
        left -= n + 1;
    }
    true
}

fn write_lines(words: &[u32], out: &mut [u8]) -> usize
    ensures { text out.new result ≡ put (text out.old 0) (listing words.now) }
{
    let mut end = 0;
    for w in words {
        let line = put_line(out, end, *w);
        end = put_byte(out, line, b'\n');
    }
    end
}

// Writes the listing of the words at the start of the output, and answers how many bytes it has.
pub fn list(words: &[u32], out: &mut [u8]) -> Result<usize, Refusal>
    ensures { answer_of result out.new ≡ listed words.now out.old }
{
    if !has_room(words, out.len()) {
        return Err(Refusal::ShortOutput);
    }
    Ok(write_lines(words, out))
}

// ---- words out of lines

// Where the first newline of a text is.
fn newline_in(text: &[u8]) -> Option<usize>
    ensures { result ≡ position (λ b. b == 10) text.now }
{
    text.iter().position(|b| *b == b'\n')
}

// The first line of a text, and what stands behind its newline.
fn next_line(text: &[u8]) -> Option<(&[u8], &[u8])>
    ensures { MatchOption result (text.now ≡ []) (λ p. lines_of text.now ≡ p.0.now ∷ lines_of p.1.now × length p.1.now < length text.now) }
{
    if text.is_empty() {
        return None;
    }
    match newline_in(text) {
        Some(end) => Some((&text[..end], &text[end + 1..])),
        None => Some((text, &[])),
    }
}

// How many lines a text has, where none is wrong.
fn look_over(text: &[u8]) -> Result<usize, Refusal>
    ensures { Surveyed (lines_of text.now) result }
{
    let mut rest = text;
    let mut n = 0;
    // Not a `for`: a line ends at its newline, wherever that is.
    while let Some((line, behind)) = next_line(rest) {
        n += 1;
        if !right(line) {
            return Err(Refusal::WrongLine(n));
        }
        rest = behind;
    }
    Ok(n)
}

fn write_words(text: &[u8], out: &mut [u32])
    requires { length (lines_of text.now) ≤ length out.old }
    ensures { out.new ≡ words_of (lines_of text.now) ++ drop (length (lines_of text.now)) out.old }
{
    let mut rest = text;
    let mut n = 0;
    // Not a `for`: a line ends at its newline, wherever that is.
    while let Some((line, behind)) = next_line(rest) {
        out[n] = candidate(line);
        n += 1;
        rest = behind;
    }
}

// Writes the words of a text's lines at the start of the output, and answers how many they are.
pub fn assemble(text: &[u8], out: &mut [u32]) -> Result<usize, Refusal>
    ensures { answer_of result out.new ≡ assembled text.now out.old }
{
    let lines = look_over(text)?;
    if out.len() < lines {
        return Err(Refusal::ShortOutput);
    }
    write_words(text, out);
    Ok(lines)
}
