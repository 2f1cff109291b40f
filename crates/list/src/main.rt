// list FILE: reads raw words, four bytes each, the lowest first, and prints each as a line of its listing. list FILE FRAME: reads a house file or a saved one, and
// prints the words of one frame of the memory that it holds so; it boots and runs nothing.
#![tactic(auto)]

mod frame;
mod words;

ghost use Rattle.std.specs.Prelude.{◌≡◌, ◌≤◌, length, IfSome};
ghost use Rattle.list.specs.Words.{Bytes, Behind, rest_behind, Told};

use command::{asks_help, fail, number_in, open, put_out, wrong};
use files::{Source, count, print};
use frame::list_frame;
use words::{Rest, put_words};

// The lines of a piece of 4,096 bytes, at most 43 bytes with the newline: no byte completes more than one.
const ROOM: usize = 176128;

// Prints the text for a piece, and answers whether that could be written. Where it could not, that is told.
fn show(rt: &HostRuntime, r: Rest, piece: &[u8], text: &[u8]) -> bool
    requires { Told r piece.now text.now }
{
    put_out(rt, text)
}

// What a piece leaves, where its lines could be written.
fn list_piece(rt: &HostRuntime, r: Rest, piece: &[u8]) -> Option<Rest>
    requires piece_length { length piece.now ≤ 4096 }
    requires behind { Behind r }
    ensures rest_value { IfSome result (λ rest. rest ≡ rest_behind r piece.now) }
    ensures bytes { Bytes piece.now }
{
    let mut out = [0u8; ROOM];
    let p = put_words(r, piece, &mut out);
    if !show(rt, r, piece, &out[..p.end]) {
        return None;
    }
    Some(p.rest)
}

// At the end of the words. Fewer than four bytes at the end are told.
fn finish(rt: &HostRuntime, r: Rest) {
    if r.count % 4 != 0 {
        wrong(rt, b"whole words, 4 bytes each", b"fewer bytes at the end");
    }
}

// Reads the source to its end, and prints piece by piece. A read or a write that fails is told. No file has so many pieces that the count would end them.
fn list_words(rt: &HostRuntime, source: &mut Source, name: &[u8]) {
    let mut rest = Rest::none();
    for _ in 0..u64::MAX {
        let mut buffer = files::buffer();
        let got = source.read(&mut buffer);
        if got < 0 {
            fail(rt, name, source.why());
            return;
        }
        let n = count(got, &buffer);
        if n == 0 {
            finish(rt, rest);
            return;
        }
        match list_piece(rt, rest, &buffer[..n]) {
            Some(left) => rest = left,
            None => return,
        }
    }
}

fn help(rt: &HostRuntime) {
    let _ = print(
        rt,
        b"list FILE: reads raw words (- for standard input), four bytes each, the lowest first, and prints each as a line: docs/LISTINGS.md has the lines\n",
    );
    let _ = print(
        rt,
        b"list FILE FRAME: reads a house file or a saved one, and prints the words of one frame, from 0 on, of the memory that it holds so; nothing is run\n",
    );
}

// The frame that the second word names.
fn frame_of(rt: &HostRuntime, source: &mut Source, name: &[u8]) {
    let mut word = files::buffer();
    let length = files::word(rt, 2, &mut word);
    let Some(frame) = number_in(&word[..length], 1023) else {
        wrong(rt, b"FRAME, a decimal below 1024", &word[..length]);
        return;
    };
    list_frame(rt, source, name, frame as usize, &word[..length]);
}

// What is open as source, with so many words.
fn list_open(rt: &HostRuntime, source: &mut Source, name: &[u8], given: usize) {
    if given > 2 {
        frame_of(rt, source, name);
        return;
    }
    list_words(rt, source, name);
}

fn main(rt: HostRuntime) {
    let mut path = files::buffer();
    let length = files::word(&rt, 1, &mut path);
    if asks_help(&path[..length]) {
        help(&rt);
        return;
    }
    let given = files::words(&rt);
    if given < 2 {
        wrong(&rt, b"FILE [FRAME]", b"fewer words");
        return;
    }
    if given > 3 {
        wrong(&rt, b"FILE [FRAME]", b"more words");
        return;
    }
    match open(&rt, &path[..length]) {
        Ok(mut source) => list_open(&rt, &mut source, &path[..length], given),
        Err(why) => fail(&rt, &path[..length], why),
    }
}
