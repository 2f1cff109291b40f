// The level of a cause word.
ghost use Rattle.std.specs.Prelude.{◌≡◌};
ghost use Rattle.dlx.specs.Interrupts.{level_of};

// The lowest set bit of a cause word, 32 for 0.
pub fn level(causes: u32) -> u32
    ensures { result ≡ level_of causes }
{
    u32::trailing_zeros(causes)
}
