// What a line is: a word in decimals, or an instruction of a listing.
ghost use Rattle.std.specs.Prelude.{◌≡◌};
ghost use Rattle.texts.specs.Numbers.{word_said, idle, right_by, word_by};

use command::number_in;
use decimal::is;
use listing::reading::{candidate, right};

// The word that a line says in decimals, if it says one.
pub fn word_in(line: &[u8]) -> Option<u32>
    ensures { result ≡ word_said line.now }
{
    match line.strip_prefix(b"-") {
        Some(digits) => {
            let n = number_in(digits, 2147483648)?;
            Some((n as u32).wrapping_neg())
        }
        None => {
            let n = number_in(line, 4294967295)?;
            Some(n as u32)
        }
    }
}

// The byte is a zero that tells nothing: a zero behind a first zero, with a minus before it or not.
pub fn idle(decimals: bool, line: &[u8], b: u8) -> bool
    ensures { result ≡ idle decimals line.now b }
{
    if !decimals {
        return false;
    }
    if b != 48 {
        return false;
    }
    if is(line, b"0") {
        return true;
    }
    is(line, b"-0")
}

// The line, without zeros that tell nothing, is right: it has at most 80 bytes, and is one of those that are asked for.
pub fn right_by(decimals: bool, line: &[u8]) -> bool
    ensures { result ≡ right_by decimals line.now }
{
    if !decimals {
        return right(line);
    }
    if line.len() > 80 {
        return false;
    }
    word_in(line).is_some()
}

// Its word, where it is right.
pub fn word_by(decimals: bool, line: &[u8]) -> u32
    ensures { result ≡ word_by decimals line.now }
{
    if !decimals {
        return candidate(line);
    }
    word_in(line).unwrap_or(0)
}
