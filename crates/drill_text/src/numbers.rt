// Decimal numbers, each with a space before it.
ghost use Rattle.std.specs.Prelude.{◌*◌, length};
ghost use Rattle.decimal.specs.Texts.{Puts};
ghost use Rattle.drill_text.specs.Numbers.{number_of, numbers_of};

use crate::ROOM;
use decimal::{put_byte, put_decimal};

// A space and the number.
pub fn number(text: &mut [u8; ROOM], used: usize, n: u64) -> usize
    ensures { Puts text.old used text.new result (number_of n) 21 }
{
    let space = put_byte(text, used, b' ');
    put_decimal(text, space, n)
}

pub fn numbers(text: &mut [u8; ROOM], used: usize, words: &[u32]) -> usize
    ensures { Puts text.old used text.new result (numbers_of words.now) (21 * length words.now) }
{
    let mut end = used;
    for w in words {
        end = number(text, end, u64::from(*w));
    }
    end
}
