// Texts: two compared; and text put into a lent buffer, byte by byte, as a number in decimals, or a word raw. A function puts its piece at `at` and answers where the piece ends;
// what has no room in the buffer is left out.
#![tactic(auto)]

ghost use Rattle.std.specs.Prelude.{◌≡◌, [], ◌∷◌, ◌<◌};
ghost use Rattle.decimal.specs.Decimals.{digit, decimal, signed_text};
ghost use Rattle.decimal.specs.Raw.{low_first};
ghost use Rattle.decimal.specs.Texts.{Puts, same, text, put};

// The text is this one.
pub fn is(word: &[u8], this: &[u8]) -> bool
    ensures { result ≡ same word.now this.now }
{
    word == this
}

pub fn put_byte(out: &mut [u8], at: usize, b: u8) -> usize
    ensures { text out.new result ≡ put (text out.old at) (b ∷ []) }
{
    if at < out.len() {
        out[at] = b;
        at + 1
    } else {
        at
    }
}

// Bytes as they are.
pub fn put_text(out: &mut [u8], at: usize, more: &[u8]) -> usize
    ensures { text out.new result ≡ put (text out.old at) more.now }
{
    let mut end = at;
    for b in more {
        end = put_byte(out, end, *b);
    }
    end
}

// The last digit of a number.
fn put_digit(out: &mut [u8], at: usize, n: u64) -> usize
    ensures { text out.new result ≡ put (text out.old at) (digit n ∷ []) }
{
    put_byte(out, at, b'0' + (n % 10) as u8)
}

// A number in decimals.
pub fn put_decimal(out: &mut [u8], at: usize, n: u64) -> usize
    ensures { text out.new result ≡ put (text out.old at) (decimal n) }
{
    if n < 10 {
        return put_digit(out, at, n);
    }
    let last = put_decimal(out, at, n / 10);
    put_digit(out, last, n)
}

// A number of so many values with a sign: in decimals, and behind a minus where it stands for v less the size.
pub fn put_signed(out: &mut [u8], at: usize, size: u64, v: u64) -> usize
    requires { v < size }
    ensures { text out.new result ≡ put (text out.old at) (signed_text size v) }
{
    if v < size / 2 {
        put_decimal(out, at, v)
    } else {
        let minus = put_byte(out, at, b'-');
        put_decimal(out, minus, size - v)
    }
}

// A word's four bytes, the lowest first.
pub fn put_raw(out: &mut [u8], at: usize, w: u32) -> usize
    ensures { Puts out.old at out.new result (low_first w) 4 }
{
    put_text(out, at, &w.to_le_bytes())
}
