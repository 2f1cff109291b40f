// What the programs' commands share: the words that they are given, and what they say where these are wrong, or where a read or a write failed. That goes to
// standard error, with `failed: ` before all else.
#![tactic(auto)]

ghost use Rattle.std.specs.Prelude.{◌≡◌, ◌≤◌, IfSome, is_ok};
ghost use Rattle.command.specs.Words.{with_digit, number_of, asks_help};

use decimal::is;
use files::{Source, print, say, say_error};
use std::io;

// ---- words

// The word asks for the help text.
pub fn asks_help(word: &[u8]) -> bool
    ensures { result ≡ asks_help word.now }
{
    is(word, b"-h") || is(word, b"--help")
}

// The number with one digit more; none where the byte is no digit, or the number is too large.
pub fn with_digit(most: u64, n: Option<u64>, b: u8) -> Option<u64>
    ensures value { result ≡ with_digit most n b }
    ensures value_le_most { IfSome result (λ v. v ≤ most) }
{
    if !b.is_ascii_digit() {
        return None;
    }
    let longer = n?.checked_mul(10)?.checked_add(u64::from(b - b'0'))?;
    if longer <= most { Some(longer) } else { None }
}

// The number that a word says, at most so much.
pub fn number_in(word: &[u8], most: u64) -> Option<u64>
    ensures value { result ≡ number_of most word.now }
    ensures value_le_most { IfSome result (λ n. n ≤ most) }
{
    if word.is_empty() {
        return None;
    }
    let mut n = Some(0);
    for b in word {
        n = with_digit(most, n, *b);
    }
    n
}

// Opens the file that the word names for reading; `-` is standard input.
pub fn open(rt: &HostRuntime, word: &[u8]) -> io::Result<Source> {
    if is(word, b"-") {
        return Ok(Source::standard_input(rt));
    }
    Source::open(rt, word)
}

// ---- what went wrong

// A read or a write of what is named here failed, for what the system said.
pub fn fail(rt: &HostRuntime, what: &[u8], why: io::Error) {
    say(rt, b"failed: ");
    say(rt, what);
    say(rt, b": ");
    say_error(rt, why);
}

// Answers whether a read or a write of what is named here was done. Where it was not, that is told.
pub fn done(rt: &HostRuntime, what: &[u8], outcome: io::Result<()>) -> bool
    ensures { result ≡ is_ok outcome }
{
    match outcome {
        Ok(()) => true,
        Err(why) => {
            fail(rt, what, why);
            false
        }
    }
}

// Writes a text to standard output, and answers whether that could be done. Where it could not, that is told.
pub fn put_out(rt: &HostRuntime, text: &[u8]) -> bool {
    done(rt, b"standard output", print(rt, text))
}

// The program was given something that it cannot use.
pub fn wrong(rt: &HostRuntime, expected: &[u8], given: &[u8]) {
    say(rt, b"failed: expected ");
    say(rt, expected);
    say(rt, b"; was given ");
    say(rt, given);
    say(rt, b"\n");
}
