// The digest of words.
ghost use Rattle.std.specs.Prelude.{◌≡◌};
ghost use Rattle.drill_text.specs.Digest.{mixed_of, digest_of};

const FACTOR: u64 = 6_364_136_223_846_793_005;

// The digest with one word more.
#[tactic(auto, unfolding(crate::specs::Digest::mixed_of))]
fn mixed(d: u64, w: u32) -> u64
    ensures { result ≡ mixed_of d w }
{
    d.wrapping_mul(FACTOR).wrapping_add(u64::from(w) + 1)
}

// Of bytes, each a word.
pub fn digest_bytes(bytes: &[u8]) -> u64
    ensures { result ≡ digest_of bytes.now }
{
    bytes.iter().fold(0, |d, b| mixed(d, u32::from(*b)))
}

pub fn digest(words: &[u32]) -> u64
    ensures { result ≡ digest_of words.now }
{
    words.iter().fold(0, |d, w| mixed(d, *w))
}
