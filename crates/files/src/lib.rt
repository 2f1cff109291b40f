// What the programs ask of the system, over std's files, streams and words: an input that is read, a file that is written, names, and the words that the program was given.
// A name is text: one that is not UTF-8 names no file.
#![tactic(auto)]

pub mod source;
pub mod target;

ghost use Rattle.std.specs.Prelude.{◌≡◌, ◌≤◌, min, length, IfOk};
ghost use Rattle.files.specs.Counts.{IsPrefixLen, clamp_len};

pub use source::Source;
use std::env::{Env, FillError};
use std::{fs, io};
pub use target::Target;

// ---- buffers

// 4,096 zeros, which hold any name.
pub fn buffer() -> [u8; 4096]
    ensures { 4096 ≡ length result }
{
    [0; 4096]
}

// 65,536 zeros, for much data.
pub fn large_buffer() -> [u8; 65536]
    ensures { 65536 ≡ length result }
{
    [0; 65536]
}

// What a read into this buffer answered, as a number of the buffer's bytes: 0 where it failed.
pub fn count(got: isize, buffer: &[u8]) -> usize
    ensures in_bounds { IsPrefixLen result buffer.now }
    ensures value { result ≡ clamp_len got (length buffer.now) }
{
    clamp(got, buffer.len())
}

fn clamp(got: isize, most: usize) -> usize
    ensures bound { result ≤ most }
    ensures value { result ≡ clamp_len got most }
{
    if got > 0 {
        least(got as usize, most)
    } else {
        0
    }
}

fn least(a: usize, b: usize) -> usize
    ensures a_bound { result ≤ a }
    ensures b_bound { result ≤ b }
    ensures value { result ≡ min a b }
{
    if a < b { a } else { b }
}

// ---- what the system said

// The system's numbers of errors: there is no such word, a word is too long, a name is no text.
const NOT_GIVEN: i32 = 22;

const TOO_LONG: i32 = 36;

const NO_TEXT: i32 = 84;

// Nothing went wrong yet.
pub(crate) fn none() -> io::Error {
    io::Error::from_raw_os_error(0)
}

// There is no file of the name.
pub fn is_missing(e: io::Error) -> bool {
    e.kind() == io::ErrorKind::NotFound
}

// ---- names

// A name as text.
pub(crate) fn name_of(path: &[u8]) -> io::Result<&str> {
    match std::str::from_utf8(path) {
        Ok(text) => Ok(text),
        Err(_) => Err(io::Error::from_raw_os_error(NO_TEXT)),
    }
}

pub fn remove(rt: &HostRuntime, path: &[u8]) -> io::Result<()> {
    fs::remove_file(rt, name_of(path)?)
}

pub fn rename(rt: &HostRuntime, from: &[u8], to: &[u8]) -> io::Result<()> {
    fs::rename(rt, name_of(from)?, name_of(to)?)
}

// ---- the standard streams

// Writes all of these bytes to standard output.
pub fn print(rt: &HostRuntime, bytes: &[u8]) -> io::Result<()> {
    rt.write_all(bytes)
}

// And a number in decimals. Where that fails, it is not told: the end of the line that it stands in can be.
pub fn print_number(rt: &HostRuntime, n: u64) {
    let _ = print!(rt; "{n}");
}

// Writes these bytes to standard error. Where that fails, there is nowhere to tell it.
pub fn say(rt: &HostRuntime, bytes: &[u8]) {
    let _ = rt.stderr().write_all(bytes);
}

// And a number in decimals.
pub fn say_number(rt: &HostRuntime, n: u64) {
    let _ = eprint!(rt; "{n}");
}

// The text of an error as the system has it, and a newline.
pub fn say_error(rt: &HostRuntime, e: io::Error) {
    match e.to_string(rt.alloc()) {
        Ok(text) => {
            let whole = text.as_str();
            let said = match whole.split_once(" (os error ") {
                Some((before, _)) => before,
                None => whole,
            };
            say(rt, said.as_bytes());
        }
        Err(_) => say(rt, b"Cannot allocate memory"),
    }
    say(rt, b"\n");
}

// ---- the words that the program was given

// Puts word i at the buffer's start, and answers its length: 0 where there is none, or it is longer than the buffer.
pub fn word(rt: &HostRuntime, i: usize, buffer: &mut [u8]) -> usize
    ensures { IsPrefixLen result buffer.new }
{
    match rt.arg(i, buffer) {
        Ok(n) => n,
        Err(_) => 0,
    }
}

// The same, or why it is not there whole.
pub fn try_word(rt: &HostRuntime, i: usize, buffer: &mut [u8]) -> io::Result<usize>
    ensures { IfOk result (λ n. IsPrefixLen n buffer.new) }
{
    match rt.arg(i, buffer) {
        Ok(n) => Ok(n),
        Err(FillError::NotPresent) => Err(io::Error::from_raw_os_error(NOT_GIVEN)),
        Err(FillError::TooLong) => Err(io::Error::from_raw_os_error(TOO_LONG)),
    }
}

// There is no such word.
pub fn is_not_given(why: io::Error) -> bool {
    why.kind() == io::ErrorKind::InvalidInput
}

// There is a word i.
fn is_given(rt: &HostRuntime, i: usize) -> bool {
    match rt.arg(i, &mut []) {
        Ok(_) => true,
        Err(FillError::TooLong) => true,
        Err(FillError::NotPresent) => false,
    }
}

// How many words there are, the program's own name among them.
pub fn words(rt: &HostRuntime) -> usize {
    for i in 0..usize::MAX {
        if !is_given(rt, i) {
            return i;
        }
    }
    usize::MAX
}
