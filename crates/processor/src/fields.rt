// Bytes, half words and words: what a load makes of the word at its address. An opcode's bit 1 tells a word, bit 0 a half word, bit 2 that zeros extend it.
ghost use Rattle.std.specs.Prelude.{◌≡◌, true};
ghost use Rattle.dlx.specs.Fields.{aligned, loading, width, brought};

use crate::words::extend;

pub fn bring(o: u32, a: u32, x: u32) -> u32
    requires loading { loading o ≡ true }
    requires aligned { aligned (width o) a ≡ true }
    ensures { result ≡ brought o a x }
{
    if o / 2 % 2 == 1 {
        return x;
    }
    let f = x >> (a % 4 * 8);
    if o % 2 == 1 {
        if o / 4 % 2 == 0 {
            return extend(0x8000, f);
        }
        return f % 65536;
    }
    if o / 4 % 2 == 0 {
        return extend(0x80, f);
    }
    f % 256
}
