// Words of a script's bytes, and words of the memory.
ghost use Rattle.std.specs.Prelude.{◌≡◌, ◌+◌, ◌*◌, ◌≤◌, min, length};
ghost use Rattle.house.specs.Lists.{list_from};
ghost use Rattle.drill_script.specs.Words.{word_at, marked_of, filled_of};

use dlx::words::wide;

// The word of the four bytes at a place, the lowest first.
#[tactic(auto, unfolding(crate::specs::Words::word_at))]
pub fn word(bytes: &[u8], at: usize) -> u32
    requires { at + 4 ≤ length bytes.now }
    ensures { result ≡ word_at bytes.now at }
{
    u32::from_le_bytes([bytes[at], bytes[at + 1], bytes[at + 2], bytes[at + 3]])
}

// As many words as there are places for, from the bytes' place `at` on.
pub fn take(bytes: &[u8], at: usize, words: &mut [u32])
    requires { at + 4 * length words.old ≤ length bytes.now }
    ensures { words.new ≡ list_from (λ i. word_at bytes.now (at + 4 * i)) 0 (length words.old) }
{
    for (i, w) in words.iter_mut().enumerate() {
        *w = word(bytes, at + 4 * i);
    }
}

// A read-out's output as it is before the call.
pub fn mark(words: &mut [u32])
    requires { length words.old ≤ 4096 }
    ensures { words.new ≡ list_from marked_of 0 (length words.old) }
{
    for (i, w) in words.iter_mut().enumerate() {
        *w = 3405691582 + i as u32;
    }
}

// So many words from a place on, as far as there are any.
pub fn fill(words: &mut [u32], from: u32, count: u32, value: u32)
    ensures { words.new ≡ filled_of words.old from count value }
{
    let start = wide(from).min(words.len());
    let end = (start + wide(count)).min(words.len());
    words[start..end].fill(value);
}

// The words lent after a command that sets their number.
pub fn lent(number: u32, most: usize) -> usize
    ensures { result ≡ min number most }
{
    wide(number).min(most)
}
