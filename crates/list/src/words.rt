// Raw words as lines: four bytes to a word, the lowest first, in pieces that may end inside a word.
ghost use Rattle.std.specs.Prelude.{◌≡◌};
ghost use Rattle.decimal.specs.Texts.{text, put};
ghost use Rattle.lines.specs.Listings.{listing};
ghost use Rattle.list.specs.Words.{no_rest, further, completed, rest_behind, words_behind};

use decimal::put_byte;
use listing::writing::put_line;

// What the bytes so far leave: the last four of them, each at the top when it came, and how many of these stand behind the last whole word, modulo 4.
#[derive(Clone, Copy)]
pub struct Rest {
    pub word: u32,
    pub count: u32,
}

impl Rest {
    pub fn none() -> Rest
        ensures { result ≡ no_rest }
    {
        Rest { word: 0, count: 0 }
    }
}

// One byte more.
fn further(r: Rest, b: u8) -> Rest
    ensures { result ≡ further r b }
{
    let word = r.word / 256 + b as u32 * 0x100_0000;
    let count = r.count % 4 + 1;
    Rest { word, count }
}

// The line of the word that this byte makes whole, if it does.
fn put_completed(out: &mut [u8], at: usize, r: Rest, b: u8) -> usize
    ensures { text out.new result ≡ put (text out.old at) (listing (completed r b)) }
{
    if r.count % 4 != 3 {
        return at;
    }
    let f = further(r, b);
    let line = put_line(out, at, f.word);
    put_byte(out, line, 10)
}

// The lines of a piece: where they end, and what its bytes leave.
#[derive(Clone, Copy)]
pub struct Put {
    pub rest: Rest,
    pub end: usize,
}

pub fn put_words(r: Rest, piece: &[u8], out: &mut [u8]) -> Put
    ensures end_after { text out.new result.end ≡ put (text out.old 0) (listing (words_behind r piece.now)) }
    ensures rest_value { result.rest ≡ rest_behind r piece.now }
{
    let mut rest = r;
    let mut end = 0;
    for b in piece {
        end = put_completed(out, end, rest, *b);
        rest = further(rest, *b);
    }
    Put { rest, end }
}
