// Words as text: in decimals, one to a line, with their sign or without, or raw, four bytes each, the lowest first.
ghost use Rattle.std.specs.Prelude.{◌≡◌, [], ◌∷◌, ◌++◌, ◌+◌, ◌*◌, ◌^◌, ◌≤◌};
ghost use Rattle.decimal.specs.Decimals.{signed_text};
ghost use Rattle.decimal.specs.Texts.{Puts};
ghost use Rattle.report.specs.Put.{Counts, put};
ghost use Rattle.readout.specs.Printed.{word_text, words_from};

use crate::{Form, Want};
use decimal::{put_byte, put_raw, put_signed};
use report::put_word;

// The words of the largest partition.
pub const WORDS: usize = 262144;

// A piece of the text has at most 4,096 words, of 12 bytes each in decimals, a minus and a newline among them.
pub const PIECE: usize = 4096;

pub const ROOM: usize = 49152;

// A word with its sign, and a newline.
fn put_with_sign(out: &mut [u8], at: usize, w: u32) -> usize
    ensures { Puts out.old at out.new result (signed_text (2 ^ 32) w ++ (10 ∷ [])) 12 }
{
    let number = put_signed(out, at, 4294967296, w as u64);
    put_byte(out, number, b'\n')
}

// A word.
fn put_one(out: &mut [u8], at: usize, w: u32, want: Want) -> usize
    ensures { Puts out.old at out.new result (word_text want w) 12 }
{
    match want.form {
        Form::Raw => put_raw(out, at, w),
        Form::Signed => put_with_sign(out, at, w),
        Form::Unsigned => put_word(out, at, w, b'\n'),
    }
}

// n of the words, from this one on.
fn put_each(words: &[u32; WORDS], from: usize, n: usize, want: Want, out: &mut [u8]) -> usize
    requires { from + n ≤ 262144 }
    ensures { Puts out.old 0 out.new result (words_from want words.now from n) (12 * n) }
{
    let mut end = 0;
    for w in &words[from..from + n] {
        end = put_one(out, end, *w, want);
    }
    end
}

// The same as a whole text. Answers its length.
pub fn put_words(
    words: &[u32; WORDS],
    from: usize,
    n: usize,
    want: Want,
    out: &mut [u8; ROOM],
) -> usize
    requires n_bound { from + n ≤ 262144 }
    requires piece_bound { n ≤ 4096 }
    ensures out_after { (result, out.new) ≡ put (words_from want words.now from n) out.old }
    ensures counts { Counts result out.new }
{
    put_each(words, from, n, want, out)
}
