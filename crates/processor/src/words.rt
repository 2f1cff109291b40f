// Words of 32 bits: signed readings, the eight tests, overflow, sign extension.
ghost use Rattle.std.specs.Prelude.{◌≡◌, ℕ, ◌^◌, ◌≤◌};
ghost use Rattle.dlx.specs.Words.{reading_of, holds, outside_of, sum_overflows, difference_overflows, test_of, extended_by};

// A word read as a two's complement number.
pub fn reading(x: u32) -> i64
    ensures { result ≡ reading_of x }
{
    if x < 0x8000_0000 {
        x as i64
    } else {
        x as i64 - 0x1_0000_0000
    }
}

// Test number k of two numbers: clr, sgr, seq, sge, sls, sne, sle, set.
fn compare(k: u32, x: i64, y: i64) -> bool
    ensures { result ≡ holds k x y }
{
    match k {
        0 => false,
        1 => x > y,
        2 => x == y,
        3 => x >= y,
        4 => x < y,
        5 => x != y,
        6 => x <= y,
        _ => true,
    }
}

// Test number k of two words, as 0 or 1.
pub fn test(k: u32, x: u32, y: u32) -> u32
    ensures { result ≡ test_of k x y }
{
    compare(k, reading(x), reading(y)) as u32
}

// No word reads as z.
fn outside(z: i64) -> bool
    ensures { result ≡ outside_of z }
{
    (z < -0x8000_0000) | (0x7FFF_FFFF < z)
}

pub fn sum_overflows(x: u32, y: u32) -> bool
    ensures { result ≡ sum_overflows x y }
{
    let z = reading(x) + reading(y);
    outside(z)
}

pub fn difference_overflows(x: u32, y: u32) -> bool
    ensures { result ≡ difference_overflows x y }
{
    let z = reading(x) - reading(y);
    outside(z)
}

// The low field of x with 2 * half values, where half is a power of 2, sign-extended to a word: its highest bit is flipped, and half taken away.
pub fn extend(half: u32, x: u32) -> u32
    requires { (k : ℕ) × (k ≤ 30) × (half ≡ 2 ^ k) }
    ensures { result ≡ extended_by half x }
{
    let field = x % (half * 2);
    std::num::wrapping_sub_u32(field ^ half, half)
}
