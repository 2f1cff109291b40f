// Words of 32 bits.
ghost use Rattle.std.specs.Prelude.{◌≡◌};

// A word as an index.
pub fn wide(x: u32) -> usize
    ensures { result ≡ x }
{
    x as usize
}
